//! All parts of a system that can do nothing.

ghost use Rattle.std.specs.Prelude.{◌≡◌, IfOk};
ghost use Rattle.mrc_facts.specs.Sets.{has};
ghost use Rattle.mrc_dead.specs.Dead as definitions;

use crate::interfaces::{unaccepted, unanswered};
use crate::parts::DeadParts;
use crate::quiet_lines::quiet_lines;
use crate::slots::dead_lines;
use crate::subjects::{idle_lines, named_subjects};
use mrc_rows::Facts;
use mrc_wiring::Wired;
use mrc_wiring_text::WiringLine;
use std::alloc::{AllocError, Global};

/// The parts of a system that can do nothing by these facts: of its wiring and the lines of the
/// wiring's text. By the least set they do nothing on any run.
pub fn dead_parts(
    alloc: Global,
    wired: &Wired,
    lines: &[WiringLine],
    facts: &Facts,
) -> Result<DeadParts, AllocError>
    ensures unaccepted { IfOk result (λ parts.
        parts.unaccepted ≡ definitions.unaccepted wired.now) }
    ensures quiet { IfOk result (λ parts.
        parts.quiet ≡ definitions.quiet_lines wired.now (has facts.now) lines.now) }
    ensures unanswered { IfOk result (λ parts.
        parts.unanswered ≡ definitions.unanswered wired.now (has facts.now)) }
    ensures slots { IfOk result (λ parts.
        parts.slots ≡ definitions.dead_lines wired.now (has facts.now) lines.now) }
    ensures idle { IfOk result (λ parts. parts.idle ≡ definitions.idle_lines lines.now) }
    // And these are all.
    ensures all { IfOk result (λ parts.
        parts ≡ definitions.dead_parts wired.now lines.now (has facts.now)) }
{
    let named = named_subjects(alloc, lines)?;
    let unaccepted = unaccepted(alloc, wired)?;
    let quiet = quiet_lines(alloc, wired, lines, facts)?;
    let unanswered = unanswered(alloc, wired, facts)?;
    let slots = dead_lines(alloc, wired, facts, &named, lines)?;
    let idle = idle_lines(alloc, &named, lines)?;
    Ok(DeadParts {
        unaccepted,
        quiet,
        unanswered,
        slots,
        idle,
    })
}
