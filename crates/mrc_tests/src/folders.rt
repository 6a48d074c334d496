//! What the whole program prints of files whose bytes are known.

ghost use Rattle.mrc_tests.specs.Folders.{text_named};

use crate::starting::Stop;
use mrc_base::OrMemory;
use mrc_files::{Folder, WriteFault};
use mrc_program::{Watched, run};
use std::alloc::Global;
use std::io;
use std::io::ErrorKind;
use std::sync::Wait;
use std::test::Fail;
use std::thread::Threads;

/// A folder in memory, with a MIG file, a wiring and a policy of known texts. It takes no file.
#[derive(Clone, Copy)]
struct MemoryFolder {
    defs: &'static str,
    wiring: &'static str,
    policy: &'static str,
}

impl Folder for MemoryFolder {
    type File = &'static [u8];

    ghost held = { λ folder name.
        text_named folder.defs.now folder.wiring.now folder.policy.now name };

    fn open(&self, name: &str) -> io::Result<&'static [u8]> {
        if name == "fsys.defs" {
            Ok(self.defs.as_bytes())
        } else if name == "fsys.wiring" {
            Ok(self.wiring.as_bytes())
        } else if name == "fsys.policy" {
            Ok(self.policy.as_bytes())
        } else {
            Err(io::Error::from(ErrorKind::NotFound))
        }
    }

    fn replace(
        &mut self,
        _alloc: Global,
        _name: &str,
        _bytes: &[u8],
    ) -> Result<(), OrMemory<WriteFault>> {
        Err(OrMemory::Fault(WriteFault { written: 0 }))
    }
}

/// A file server that answers with ports of its own births.
const DEFS: &str = "subsystem fsys 3000;
#include <mach/std_types.defs>
type file_t = MACH_MSG_TYPE_COPY_SEND;
routine open(root : mach_port_t; out file : file_t);
";

/// Its wiring.
const WIRING: &str = "wiring 1
task app
task fs
port root receiver fs accepts request fsys
births app accepts reply fsys
hold app send port root
admit fsys.file_t births fs
";

/// The words of a command line that asks for `verify`.
fn words_of<R: AllocGlobal>(rt: &R) -> Result<Vec<String>, Stop> {
    let mut words = Vec::new(rt.alloc());
    for word in [
        "machcheck",
        "verify",
        "--wiring",
        "fsys.wiring",
        "--policy",
        "fsys.policy",
        "fsys.defs",
    ] {
        words.push(String::from_str(rt.alloc(), word)?)?;
    }
    Ok(words)
}

/// The status of `verify` with this policy, and what it prints.
fn verified<R: AllocGlobal + Threads + Wait + Sync>(
    rt: &R,
    policy: &'static str,
) -> Result<(u8, Vec<u8>), Stop> {
    let words = words_of(rt)?;
    let mut folder = MemoryFolder {
        defs: DEFS,
        wiring: WIRING,
        policy,
    };
    let mut out = Vec::new(rt.alloc());
    let mut err = Vec::new(rt.alloc());
    let watched = Watched {
        out: false,
        err: false,
    };
    let status = run(
        rt,
        &mut folder,
        rt.alloc(),
        words.as_slice(),
        &mut out,
        &mut err,
        watched,
    );
    Ok((status, out))
}

#[test]
fn a_policy_that_holds_is_a_yes(rt: HostRuntime) -> Result<(), Fail> {
    let (status, out) = verified(&rt, "policy 1\nforbid app send task fs\n")?;
    assert_eq!(rt; status, 0);
    assert!(rt; out.as_slice() == b"YES\n".as_slice());
    Ok(())
}

#[test]
fn a_policy_that_is_broken_is_a_no(rt: HostRuntime) -> Result<(), Fail> {
    let (status, out) = verified(&rt, "policy 1\nforbid app send births fs\n")?;
    assert_eq!(rt; status, 1);
    assert!(rt;
        out.as_slice()
            .starts_with(b"NO forbidden line 2 ".as_slice())
    );
    Ok(())
}
