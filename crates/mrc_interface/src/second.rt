//! What a text of edition 2 says.

ghost use Rattle.std.specs.Prelude.{◌≡◌};
ghost use Rattle.mrc_mig_tokens.specs.Tokens.{lex};
ghost use Rattle.mrc_mig_forms.specs.Files.{forms_in};
ghost use Rattle.mrc_interface.specs.Reading.{NoTokens, NoFile, reason_of, step, GivesAs};
ghost use Rattle.mrc_interface.specs.Reading.{said_second};

use crate::fault::DefsFault;
use mrc_base::OrMemory;
use mrc_mig_forms::{Forms, read_forms};
use mrc_mig_rows::place_of;
use mrc_mig_symbols::{Stop, fault_at};
use mrc_mig_tokens::{Tokens, lex};
use std::alloc::Global;

/// The tokens of a text.
fn tokens_of(alloc: Global, text: &str) -> Result<Tokens<'_>, OrMemory<DefsFault>>
    ensures { GivesAs (λ tokens. tokens) reason_of result (step NoTokens (lex text.now)) }
{
    match lex(alloc, text) {
        Ok(tokens) => Ok(tokens),
        Err(OrMemory::Fault(fault)) => Err(OrMemory::Fault(DefsFault::Lex(fault))),
        Err(OrMemory::Memory) => Err(OrMemory::Memory),
    }
}

/// The fault for which the reading of tokens stops.
fn fault_of(tokens: &Tokens<'_>, stop: Stop) -> DefsFault
    ensures { reason_of result ≡ NoFile }
{
    DefsFault::Parse(fault_at(stop.why, place_of(tokens, stop.left)))
}

/// What tokens say, as received or not.
fn said_by(alloc: Global, tokens: &Tokens<'_>, received: bool) -> Result<Forms, OrMemory<DefsFault>>
    ensures { GivesAs (λ said. said) reason_of result
        (step (λ _. NoFile) (forms_in received tokens.now.tokens)) }
{
    match read_forms(alloc, tokens, received) {
        Ok(forms) => Ok(forms),
        Err(OrMemory::Fault(stop)) => Err(OrMemory::Fault(fault_of(tokens, stop))),
        Err(OrMemory::Memory) => Err(OrMemory::Memory),
    }
}

/// What a text of edition 2 says, as received or not, step by step.
pub(crate) fn second_edition(
    alloc: Global,
    text: &str,
    received: bool,
) -> Result<Forms, OrMemory<DefsFault>>
    ensures { GivesAs (λ said. said) reason_of result (said_second received text.now) }
{
    let tokens = tokens_of(alloc, text)?;
    said_by(alloc, &tokens, received)
}
