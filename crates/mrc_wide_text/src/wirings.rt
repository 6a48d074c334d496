//! Wirings of whichever version.

ghost use Rattle.std.specs.Prelude.{◌≡◌, ◌≢◌, Ok, Err, IfOk};
ghost use Rattle.std.specs.Str.{IsUtf8};
ghost use Rattle.mrc_base.specs.Reading.{Gives};
ghost use Rattle.mrc_wide_text.specs.Wirings.{older_of, said_of, wide_said, Says, Said};

use crate::reading::read_wide_wiring;
use mrc_base::OrMemory;
use mrc_stand_for::{Known, StandFault, StandsFor, WideLine, known_of, stand_for};
use mrc_wiring_text::{Edition, TextFault, WiringLine, read_wiring, wiring_edition};
use std::alloc::{AllocError, Global};
use std::marker::Model;

/// What a wiring says.
#[derive(Drop)]
pub struct Said {
    /// The edition whose limits it has: that of version 3 for one of version 4.
    pub edition: Edition,
    /// The lines that it stands for: all, or those in front of the first that is refused. Those of
    /// an older version are its own.
    pub lines: Vec<WiringLine>,
    /// What is known after all lines, or why a line is refused.
    pub end: Result<Known, StandFault>,
}

impl Model for Said {
    ghost use Rattle.mrc_wide_text.specs.Wirings as definitions;

    ghost Value = { definitions.Said };

    ghost view = { λ s. record { edition = s.edition; lines = s.lines.items; end = s.end } };
}

/// What lines of version 4 say.
fn wide_said(alloc: Global, wide: &[WideLine]) -> Result<Said, AllocError>
    ensures { IfOk result (λ said. said ≡ wide_said wide.now) }
{
    let StandsFor { lines, end } = stand_for(alloc, wide)?;
    Ok(Said {
        edition: Edition::Third,
        lines: lines.into_vec(),
        end,
    })
}

/// What a wiring of an older version says.
fn older_of(alloc: Global, wiring: &[u8]) -> Result<Said, OrMemory<TextFault>>
    ensures { Gives (λ said. said) result (older_of wiring.now) }
{
    let edition = wiring_edition(alloc, wiring)?;
    let lines = read_wiring(alloc, wiring)?;
    let known = known_of(alloc, lines.as_slice())?;
    Ok(Said {
        edition,
        lines,
        end: Ok(known),
    })
}

/// What a wiring says.
fn said_of(alloc: Global, wiring: &[u8]) -> Result<Said, OrMemory<TextFault>>
    ensures { Gives (λ said. said) result (said_of wiring.now) }
{
    match read_wide_wiring(alloc, wiring) {
        Ok(wide) => Ok(wide_said(alloc, &wide)?),
        Err(OrMemory::Fault(TextFault::Version)) => older_of(alloc, wiring),
        Err(refusal) => Err(refusal),
    }
}

/// Reads a wiring of whichever version: the lines that it stands for, or the first fault of its
/// text. What a line of version 4 is refused for beyond its text is in the answer, behind the lines
/// in front of it.
pub fn read_said(alloc: Global, wiring: &[u8]) -> Result<Said, OrMemory<TextFault>>
    // What is read is what a text of one of the versions says.
    ensures found { IfOk result (Says wiring.now) }
    // What a text of one of the versions says is read, unless memory runs out.
    ensures only { (said : Said) → Says wiring.now said → Gives (λ said. said) result (Ok said) }
    // Which fault it is: the first.
    ensures fault { Gives (λ said. said) result (said_of wiring.now) }
{
    said_of(alloc, wiring)
}
