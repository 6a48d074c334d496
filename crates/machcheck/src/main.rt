//! `machcheck` answers whether a wired system of tasks can ever pass a forbidden port right to a
//! task.
#![tactic(auto)]

use mrc_command::words_of;
use mrc_files::Disk;
use mrc_program::{Watched, start};
use std::io::IsTerminal;
use std::process::ExitCode;

fn main(rt: HostRuntime) -> ExitCode {
    let mut out = rt.stdout();
    let mut err = rt.stderr();
    let watched = Watched {
        out: out.is_terminal(),
        err: err.is_terminal(),
    };
    let status = start(
        &rt,
        &mut Disk(&rt),
        rt.alloc(),
        words_of(&rt),
        &mut out,
        &mut err,
        watched,
    );
    ExitCode::from(status)
}
