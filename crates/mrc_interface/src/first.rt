//! What a text of edition 1 says.

ghost use Rattle.std.specs.Option.{ok_or};
ghost use Rattle.mrc_mig_lex.specs.Lexing.{tokens_of};
ghost use Rattle.mrc_mig_parse.specs.Files.{meaning_of};
ghost use Rattle.mrc_interface.specs.Subsystems.{table_of};
ghost use Rattle.mrc_interface.specs.Reading.{NoTokens, NoFile, NoTable, reason_of, step, GivesAs};
ghost use Rattle.mrc_interface.specs.Reading.{said_first};

use crate::fault::DefsFault;
use crate::interface::forms_of;
use mrc_base::OrMemory;
use mrc_forms::Interface;
use mrc_mig_forms::Forms;
use mrc_mig_parse::{Subsystem, parse};
use mrc_mig_symbols::{Tokens, lex};
use std::alloc::Global;

/// The tokens of a text.
fn tokens_of(alloc: Global, text: &str) -> Result<Tokens<'_>, OrMemory<DefsFault>>
    ensures { GivesAs (λ tokens. tokens) reason_of result
        (step NoTokens (tokens_of text.now)) }
{
    match lex(alloc, text) {
        Ok(tokens) => Ok(tokens),
        Err(OrMemory::Fault(fault)) => Err(OrMemory::Fault(DefsFault::Lex(fault))),
        Err(OrMemory::Memory) => Err(OrMemory::Memory),
    }
}

/// The subsystem of tokens.
fn subsystem_of(alloc: Global, tokens: &Tokens<'_>) -> Result<Subsystem, OrMemory<DefsFault>>
    ensures { GivesAs (λ subsystem. subsystem) reason_of result
        (ok_or (meaning_of tokens.now) NoFile) }
{
    match parse(alloc, tokens) {
        Ok(subsystem) => Ok(subsystem),
        Err(OrMemory::Fault(fault)) => Err(OrMemory::Fault(DefsFault::Parse(fault))),
        Err(OrMemory::Memory) => Err(OrMemory::Memory),
    }
}

/// The table of a subsystem.
fn table_of(alloc: Global, subsystem: Subsystem) -> Result<Interface, OrMemory<DefsFault>>
    ensures { GivesAs (λ table. table) reason_of result (step NoTable (table_of subsystem)) }
{
    match forms_of(alloc, subsystem) {
        Ok(interface) => Ok(interface),
        Err((_, OrMemory::Fault(fault))) => Err(OrMemory::Fault(DefsFault::Interface(fault))),
        Err((_, OrMemory::Memory)) => Err(OrMemory::Memory),
    }
}

/// What a text of edition 1 says, step by step.
pub(crate) fn first_edition(alloc: Global, text: &str) -> Result<Forms, OrMemory<DefsFault>>
    ensures { GivesAs (λ said. said) reason_of result (said_first text.now) }
{
    let tokens = tokens_of(alloc, text)?;
    let subsystem = subsystem_of(alloc, &tokens)?;
    let interface = table_of(alloc, subsystem)?;
    Ok(Forms {
        interface,
        left_out: Vec::new(alloc),
        unread: Vec::new(alloc),
    })
}
