//! What may follow a type.
ghost use Rattle.mrc_mig_symbols.specs.Symbols.{Means, many};
ghost use Rattle.mrc_mig_symbols.specs.Readers.{left};
ghost use Rattle.mrc_mig_parse.specs.Arguments.{c_type_at, call_at, translation_at, destructor_at};
ghost use Rattle.mrc_mig_parse.specs.Arguments.{begins_option, option_at, options_at};
ghost use Rattle.std.specs.Prelude.{◌≡◌, length};
ghost use Rattle.mrc_mig_parse.specs.Stops.{c_type_stop, call_stop, destructor_stop};
ghost use Rattle.mrc_mig_parse.specs.Stops.{each_option_stop, option_stop, options_stop};
ghost use Rattle.mrc_mig_parse.specs.Stops.{translation_stop};
ghost use Rattle.mrc_mig_symbols.specs.Symbols.{StopsAt};

use crate::types::no_flag;
use mrc_mig_lex::Sign;
use mrc_mig_symbols::{Rest, Stop, Symbol, Word, name, sign};

/// Reads `: name`.
#[tactic(auto, unfolding(crate::specs::Stops::c_type_stop, crate::specs::Arguments::c_type_at))]
fn c_type(rest: Rest<'_>) -> Result<Rest<'_>, Stop>
    ensures exact { Means left result (c_type_at (left rest.entry)) }
    ensures fault { StopsAt result (c_type_stop (left rest.entry)) }
{
    let rest = sign(rest, Sign::Colon)?;
    let (_, rest) = name(rest)?;
    Ok(rest)
}

/// Reads `name ( name )`.
#[tactic(auto, unfolding(crate::specs::Stops::call_stop, crate::specs::Arguments::call_at))]
fn call(rest: Rest<'_>) -> Result<Rest<'_>, Stop>
    ensures exact { Means left result (call_at (left rest.entry)) }
    ensures fault { StopsAt result (call_stop (left rest.entry)) }
{
    let (_, rest) = name(rest)?;
    let rest = sign(rest, Sign::OpenParenthesis)?;
    let (_, rest) = name(rest)?;
    sign(rest, Sign::CloseParenthesis)
}

/// Reads `: name name ( name )`.
#[tactic(auto, unfolding(crate::specs::Stops::translation_stop, crate::specs::Arguments::translation_at))]
fn translation(rest: Rest<'_>) -> Result<Rest<'_>, Stop>
    ensures exact { Means left result (translation_at (left rest.entry)) }
    ensures fault { StopsAt result (translation_stop (left rest.entry)) }
{
    let rest = sign(rest, Sign::Colon)?;
    let (_, rest) = name(rest)?;
    call(rest)
}

/// Reads `: name ( name )`.
#[tactic(auto, unfolding(crate::specs::Stops::destructor_stop, crate::specs::Arguments::destructor_at))]
fn destructor(rest: Rest<'_>) -> Result<Rest<'_>, Stop>
    ensures exact { Means left result (destructor_at (left rest.entry)) }
    ensures fault { StopsAt result (destructor_stop (left rest.entry)) }
{
    let rest = sign(rest, Sign::Colon)?;
    call(rest)
}

/// Whether an option comes next.
#[tactic(auto, unfolding(crate::specs::Arguments::begins_option))]
fn begins_option(rest: Rest<'_>) -> bool
    ensures { result ≡ begins_option (left rest.entry) }
{
    match rest.first() {
        Symbol::Word(Word::CType | Word::Translation | Word::Destructor) => true,
        _ => false,
    }
}

/// Reads an option.
#[tactic(auto, unfolding(crate::specs::Stops::option_stop, crate::specs::Arguments::option_at))]
fn option(rest: Rest<'_>) -> Result<Rest<'_>, Stop>
    ensures exact { Means left result (option_at (left rest.entry)) }
    ensures fault { StopsAt result (option_stop (left rest.entry)) }
{
    match rest.first() {
        Symbol::Word(Word::CType) => c_type(rest.next()),
        Symbol::Word(Word::Translation) => translation(rest.next()),
        Symbol::Word(Word::Destructor) => destructor(rest.next()),
        _ => Err(rest.unexpected()),
    }
}

/// Reads the options that come next.
#[tactic(auto, using(mrc_mig_symbols::proofs::LoopLemmas::many_ends, mrc_mig_symbols::proofs::LoopLemmas::many_goes_on, mrc_mig_symbols::proofs::LoopLemmas::many_stops_on, mrc_mig_symbols::proofs::LoopLemmas::many_done))]
fn each_option(rest: Rest<'_>) -> Result<Rest<'_>, Stop>
    ensures exact { Means left result
        (many begins_option option_at (length (left rest.entry)) (left rest.entry)) }
    ensures fault { StopsAt result (each_option_stop (left rest.entry)) }
{
    let mut rest = rest;
    let count = rest.len();
    for _ in 0..count {
        if !begins_option(rest) {
            return Ok(rest);
        }
        rest = option(rest)?;
    }
    Ok(rest)
}

/// Reads the options behind a type. They may repeat, and mean nothing for messages.
#[tactic(auto, unfolding(crate::specs::Stops::options_stop, crate::specs::Arguments::options_at))]
pub fn options(rest: Rest<'_>) -> Result<Rest<'_>, Stop>
    ensures exact { Means left result (options_at (left rest.entry)) }
    ensures fault { StopsAt result (options_stop (left rest.entry)) }
{
    let rest = each_option(rest)?;
    no_flag(rest)?;
    Ok(rest)
}
