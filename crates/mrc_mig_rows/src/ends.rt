//! Where statements end, and the parts of a parenthesis.

ghost use Rattle.std.specs.Prelude.{◌≡◌, ◌+◌, ◌<◌, ◌^◌};
ghost use Rattle.mrc_mig_symbols.specs.Symbols.{Answers};
ghost use Rattle.mrc_mig_tokens.specs.Reading.{left};
ghost use Rattle.mrc_mig_rows.specs.Ends.{ends, opened, part_end, statement_end};

use mrc_mig_lex::Sign;
use mrc_mig_symbols::{Feature, Stop, StopReason, stop_at};
use mrc_mig_tokens::{Rest, Symbol};

/// Whether a symbol ends a part in which so many parentheses and braces are open: a line of the
/// preprocessor and the end always do, a `;` and a closing sign where none is open.
fn ends(depth: usize, symbol: Symbol) -> bool
    ensures { result ≡ ends depth symbol }
{
    match symbol {
        Symbol::Include | Symbol::Line | Symbol::End => true,
        Symbol::Sign(Sign::Semicolon | Sign::CloseParenthesis) | Symbol::CloseBrace => depth == 0,
        _ => false,
    }
}

/// How many parentheses and braces are open behind a symbol.
fn opened(depth: usize, symbol: Symbol) -> usize
    requires { depth + 1 < 2 ^ 64 }
    ensures { result ≡ opened depth symbol }
{
    match symbol {
        Symbol::Sign(Sign::OpenParenthesis) | Symbol::OpenBrace => depth + 1,
        Symbol::Sign(Sign::CloseParenthesis) | Symbol::CloseBrace => depth.saturating_sub(1),
        _ => depth,
    }
}

/// What is left from the token on that ends a part: a line of the preprocessor, or outside of
/// parentheses and braces, which are counted together, a `;` or a closing sign.
#[tactic(auto, using(crate::proofs::EndLemmas::end_here, crate::proofs::EndLemmas::end_later, crate::proofs::EndLemmas::one_is_less, crate::proofs::EndLemmas::opens_one, crate::proofs::EndLemmas::none_left))]
pub(crate) fn part_end(rest: Rest<'_>) -> Rest<'_>
    ensures { left result ≡ part_end (left rest.entry) }
{
    let mut rest = rest;
    let mut depth = 0;
    let count = rest.len();
    for _ in 0..count {
        if ends(depth, rest.first()) {
            return rest;
        }
        depth = opened(depth, rest.first());
        rest = rest.next();
    }
    rest
}

/// What is left behind the statement at the front, which ends with its first `;` outside of
/// parentheses and braces, counted together.
///
/// A line of the preprocessor that is no include is left out. The include, a closing sign that
/// closes nothing, and a missing `;` are Unexpected. The first of these counts.
#[tactic(auto, unfolding(crate::specs::Ends::statement_end))]
pub fn statement_end(rest: Rest<'_>) -> Result<Rest<'_>, Stop>
    ensures { Answers left result (statement_end (left rest.entry)) }
{
    let end = part_end(rest);
    match end.first() {
        Symbol::Sign(Sign::Semicolon) => Ok(end.next()),
        Symbol::Line => Err(stop_at(StopReason::LeftOut(Feature::Preprocessor), end.len())),
        _ => Err(end.unexpected()),
    }
}
