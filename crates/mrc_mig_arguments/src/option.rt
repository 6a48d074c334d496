//! The options behind a type.

ghost use Rattle.std.specs.Prelude.{◌≡◌};
ghost use Rattle.mrc_mig_symbols.specs.Symbols.{Answers};
ghost use Rattle.mrc_mig_tokens.specs.Reading.{left};
ghost use Rattle.mrc_mig_arguments.specs.Reading.{name_behind, call_at, translation_at, payload_at};
ghost use Rattle.mrc_mig_arguments.specs.Reading.{destructor_at, option_at, begins_option};
ghost use Rattle.mrc_mig_arguments.specs.Reading.{options_at};

use crate::words::is_payload;
use mrc_mig_lex::Sign;
use mrc_mig_symbols::{Stop, Word};
use mrc_mig_tokens::{Rest, Symbol, any_name, sign};

/// Passes `: name`.
#[tactic(auto, unfolding(crate::specs::Reading::name_behind))]
fn name_behind(rest: Rest<'_>) -> Result<Rest<'_>, Stop>
    ensures { Answers left result (name_behind (left rest.entry)) }
{
    let (_, rest) = any_name(sign(rest, Sign::Colon)?)?;
    Ok(rest)
}

/// Passes `name ( name )`.
#[tactic(auto, unfolding(crate::specs::Reading::call_at))]
fn call(rest: Rest<'_>) -> Result<Rest<'_>, Stop>
    ensures { Answers left result (call_at (left rest.entry)) }
{
    let (_, rest) = any_name(rest)?;
    let (_, rest) = any_name(sign(rest, Sign::OpenParenthesis)?)?;
    sign(rest, Sign::CloseParenthesis)
}

/// Passes `: name name ( name )`.
#[tactic(auto, unfolding(crate::specs::Reading::translation_at))]
fn translation(rest: Rest<'_>) -> Result<Rest<'_>, Stop>
    ensures { Answers left result (translation_at (left rest.entry)) }
{
    call(name_behind(rest)?)
}

/// Passes `: name name`.
#[tactic(auto, unfolding(crate::specs::Reading::payload_at))]
fn payload(rest: Rest<'_>) -> Result<Rest<'_>, Stop>
    ensures { Answers left result (payload_at (left rest.entry)) }
{
    let (_, rest) = any_name(name_behind(rest)?)?;
    Ok(rest)
}

/// Passes `: name ( name )`.
#[tactic(auto, unfolding(crate::specs::Reading::destructor_at))]
fn destructor(rest: Rest<'_>) -> Result<Rest<'_>, Stop>
    ensures { Answers left result (destructor_at (left rest.entry)) }
{
    call(sign(rest, Sign::Colon)?)
}

/// Whether an option comes next.
#[tactic(auto, unfolding(crate::specs::Reading::begins_option))]
fn begins_option(rest: Rest<'_>) -> bool
    ensures { result ≡ begins_option (left rest.entry) }
{
    match rest.first() {
        Symbol::Word(Word::CType | Word::Translation | Word::Destructor) => true,
        Symbol::Name => is_payload(rest.text()),
        _ => false,
    }
}

/// Passes an option.
#[tactic(auto, unfolding(crate::specs::Reading::option_at))]
fn option(rest: Rest<'_>) -> Result<Rest<'_>, Stop>
    ensures { Answers left result (option_at (left rest.entry)) }
{
    match rest.first() {
        Symbol::Word(Word::CType) => name_behind(rest.next()),
        Symbol::Word(Word::Translation) => translation(rest.next()),
        Symbol::Word(Word::Destructor) => destructor(rest.next()),
        Symbol::Name if is_payload(rest.text()) => payload(rest.next()),
        _ => Err(rest.unexpected()),
    }
}

/// Passes the options behind a type. One that is not written to its end is Unexpected.
#[tactic(auto, using(mrc_mig_tokens::proofs::LoopLemmas::many_ends, mrc_mig_tokens::proofs::LoopLemmas::many_goes_on, mrc_mig_tokens::proofs::LoopLemmas::many_done), unfolding(crate::specs::Reading::options_at))]
pub fn options(rest: Rest<'_>) -> Result<Rest<'_>, Stop>
    ensures { Answers left result (options_at (left rest.entry)) }
{
    let mut rest = rest;
    let count = rest.len();
    for _ in 0..count {
        if !begins_option(rest) {
            return Ok(rest);
        }
        rest = option(rest)?;
    }
    Ok(rest)
}
