//! The text of a script.

ghost use Rattle.mrc_check.specs.Texts.{meaningless};
ghost use Rattle.mrc_interface.specs.Reading.{GivesAs};
ghost use Rattle.mrc_answer.specs.Texts.{script};

use crate::files::Texts;
use mrc_base::OrMemory;
use mrc_check::CaseFault;
use mrc_report::{Script, read_script};
use mrc_wiring::Wired;
use mrc_wiring_text::TextFault;
use std::alloc::Global;
use std::str;

/// What a script says to the tasks of a wiring, which run as threads (`live`) or do not.
pub fn script_said(
    alloc: Global,
    wired: &Wired,
    live: bool,
    texts: &Texts,
) -> Result<Script, OrMemory<CaseFault>>
    ensures { GivesAs (λ script. script) meaningless result (script live wired.now texts.now) }
{
    match str::from_utf8(texts.script()) {
        Ok(text) => match read_script(alloc, wired, text, live) {
            Ok(script) => Ok(script),
            Err(refusal) => Err(refusal.map_fault(CaseFault::Script)),
        },
        Err(_) => Err(OrMemory::Fault(CaseFault::Script(TextFault::NotUtf8))),
    }
}
