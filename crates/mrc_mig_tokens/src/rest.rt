//! What is left to read of tokens.

ghost use Rattle.std.specs.Prelude.{◌≡◌, length};
ghost use Rattle.mrc_mig_symbols.specs.Symbols.{Answers, stop_at};
ghost use Rattle.mrc_mig_tokens.specs.Reading.{no_tokens, first_of, text_of, tail_of, unexpected};
ghost use Rattle.mrc_mig_tokens.specs.Reading.{is_sign, after_sign, any_name_at, left};

use crate::symbol::Symbol;
use crate::tokens::Tokens;
use mrc_mig_lex::Sign;
use mrc_mig_symbols::{Stop, StopReason, stop_at};

/// What is left to read.
#[derive(Clone, Copy)]
pub struct Rest<'t> {
    tokens: &'t Tokens<'t>,
    /// The number of the first token that is left.
    at: usize,
}

impl<'t> Rest<'t> {
    /// All of the tokens.
    #[tactic(auto, unfolding(crate::specs::Reading::left))]
    pub fn new(tokens: &'t Tokens<'t>) -> Rest<'t>
        ensures { left result ≡ tokens.now.tokens }
    {
        Rest { tokens, at: 0 }
    }

    /// Whether nothing is left.
    #[tactic(auto, unfolding(crate::specs::Reading::left))]
    #[inline(always)]
    pub fn is_empty(self) -> bool
        ensures { result ≡ no_tokens (left self.entry) }
    {
        self.len() == 0
    }

    /// What the first token is.
    #[tactic(auto, using(crate::proofs::LeftLemmas::first_left), unfolding(crate::specs::Reading::left))]
    #[inline(always)]
    pub fn first(self) -> Symbol
        ensures { result ≡ first_of (left self.entry) }
    {
        self.tokens.symbol(self.at)
    }

    /// How many tokens are left.
    #[tactic(auto, unfolding(crate::specs::Reading::left))]
    #[inline(always)]
    pub fn len(self) -> usize
        ensures { result ≡ length (left self.entry) }
    {
        self.tokens.len().saturating_sub(self.at)
    }

    /// The first token's text.
    #[tactic(auto, using(crate::proofs::LeftLemmas::text_left), unfolding(crate::specs::Reading::left))]
    pub fn text(self) -> &'t str
        ensures { result.now ≡ text_of (left self.entry) }
    {
        self.tokens.text(self.at)
    }

    /// What is left after the first token.
    #[tactic(auto, using(crate::proofs::LeftLemmas::next_left, crate::proofs::LeftLemmas::end_left), unfolding(crate::specs::Reading::left))]
    #[inline(always)]
    pub fn next(self) -> Rest<'t>
        ensures { left result ≡ tail_of (left self.entry) }
    {
        if self.at < self.tokens.len() {
            Rest {
                at: self.at + 1,
                ..self
            }
        } else {
            self
        }
    }

    /// Reading stops at a first token that cannot stand there, or at a missing one.
    pub fn unexpected(self) -> Stop
        ensures { result ≡ unexpected (left self.entry) }
    {
        stop_at(StopReason::Unexpected, self.len())
    }
}

/// Whether this sign comes next.
pub fn is_next(rest: Rest<'_>, wanted: Sign) -> bool
    ensures { result ≡ is_sign wanted (first_of (left rest.entry)) }
{
    match rest.first() {
        Symbol::Sign(found) => found == wanted,
        _ => false,
    }
}

/// Takes the sign. Anything else is Unexpected.
#[tactic(auto, unfolding(crate::specs::Reading::after_sign))]
pub fn sign<'t>(rest: Rest<'t>, wanted: Sign) -> Result<Rest<'t>, Stop>
    ensures { Answers left result (after_sign wanted (left rest.entry)) }
{
    if is_next(rest, wanted) {
        Ok(rest.next())
    } else {
        Err(rest.unexpected())
    }
}

/// Takes a name, of any length. A reserved word, and anything else, is Unexpected.
#[tactic(auto, unfolding(crate::specs::Reading::any_name_at))]
pub fn any_name(rest: Rest<'_>) -> Result<(&str, Rest<'_>), Stop>
    ensures { Answers (λ x. (x.0.now, left x.1)) result (any_name_at (left rest.entry)) }
{
    match rest.first() {
        Symbol::Name => Ok((rest.text(), rest.next())),
        _ => Err(rest.unexpected()),
    }
}
