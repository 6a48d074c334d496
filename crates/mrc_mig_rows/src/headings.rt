//! The statements `subsystem` and `skip`.

ghost use Rattle.std.specs.Prelude.{◌≡◌, false};
ghost use Rattle.mrc_mig_symbols.specs.Symbols.{Answers};
ghost use Rattle.mrc_mig_tokens.specs.Reading.{first_of, text_of, left};
ghost use Rattle.mrc_mig_rows.specs.Headings.{is_side, is_server, sides_from, number_at};
ghost use Rattle.mrc_mig_rows.specs.Headings.{short_name_at, subsystem_of, heading_at};
ghost use Rattle.mrc_mig_rows.specs.Headings.{skipped_by, skip_at};

use crate::kinds::is_spelled;
use mrc_base::limits;
use mrc_mig_lex::Sign;
use mrc_mig_symbols::{Stop, StopReason, Word, stop_at};
use mrc_mig_tokens::{Rest, Symbol, any_name, sign};

/// What a `subsystem` statement says.
#[derive(Clone, Copy, Debug)]
pub struct Heading<'t> {
    /// The name.
    pub name: &'t str,
    /// The first id.
    pub base: u32,
    /// Whether it is a kernel's server, whose replies are sent by the type numbers that are
    /// received.
    pub is_kernel_server: bool,
}

/// Whether a symbol is `kernelserver` or `kerneluser`.
fn is_side(symbol: Symbol) -> bool
    ensures { result ≡ is_side symbol }
{
    matches!(symbol, Symbol::Word(Word::Side))
}

/// Whether the one of these two that comes next is `kernelserver`.
fn is_server(rest: Rest<'_>) -> bool
    ensures { result ≡ is_server (text_of (left rest.entry)) }
{
    is_spelled(rest.text(), "kernelserver")
}

/// Passes `kernelserver` and `kerneluser`, any number of them, and gives whether `kernelserver` is
/// among them.
#[tactic(auto, using(crate::proofs::HeadingLemmas::side_passed, crate::proofs::HeadingLemmas::no_side, crate::proofs::HeadingLemmas::side_is_shorter))]
fn sides(rest: Rest<'_>) -> (bool, Rest<'_>)
    ensures { (result.0, left result.1) ≡ sides_from false (left rest.entry) }
{
    let mut rest = rest;
    let mut has_server = false;
    while is_side(rest.first()) {
        has_server = has_server || is_server(rest);
        rest = rest.next();
    }
    (has_server, rest)
}

/// Reads a number.
#[tactic(auto, unfolding(crate::specs::Headings::number_at))]
fn number(rest: Rest<'_>) -> Result<(u32, Rest<'_>), Stop>
    ensures { Answers (λ x. (x.0, left x.1)) result (number_at (left rest.entry)) }
{
    match rest.first() {
        Symbol::Number(number) => Ok((number, rest.next())),
        _ => Err(rest.unexpected()),
    }
}

/// Reads a name that is not too long.
#[tactic(auto, unfolding(crate::specs::Headings::short_name_at))]
fn short_name(rest: Rest<'_>) -> Result<(&str, Rest<'_>), Stop>
    ensures { Answers (λ x. (x.0.now, left x.1)) result (short_name_at (left rest.entry)) }
{
    let (name, after) = any_name(rest)?;
    if name.len() > limits::NAME {
        Err(stop_at(StopReason::TooMany, rest.len()))
    } else {
        Ok((name, after))
    }
}

/// Reads a `subsystem` statement from behind its word.
#[tactic(auto, unfolding(crate::specs::Headings::heading_at))]
pub(crate) fn heading_at(rest: Rest<'_>) -> Result<Heading<'_>, Stop>
    ensures { Answers subsystem_of result (heading_at (left rest.entry)) }
{
    let (is_kernel_server, rest) = sides(rest);
    let (name, rest) = short_name(rest)?;
    let (base, rest) = number(rest)?;
    sign(rest, Sign::Semicolon)?;
    Ok(Heading {
        name,
        base,
        is_kernel_server,
    })
}

/// How many ids a `skip` takes: its number, or else one.
fn skipped(rest: Rest<'_>) -> (u32, Rest<'_>)
    ensures { (result.0, left result.1) ≡
        skipped_by (first_of (left rest.entry)) (left rest.entry) }
{
    match rest.first() {
        Symbol::Number(number) => (number, rest.next()),
        _ => (1, rest),
    }
}

/// How many ids a `skip` statement takes, from behind its word.
#[tactic(auto, unfolding(crate::specs::Headings::skip_at))]
pub(crate) fn skip_at(rest: Rest<'_>) -> Result<u32, Stop>
    ensures { Answers (λ n. n) result (skip_at (left rest.entry)) }
{
    let (count, rest) = skipped(rest);
    sign(rest, Sign::Semicolon)?;
    Ok(count)
}
