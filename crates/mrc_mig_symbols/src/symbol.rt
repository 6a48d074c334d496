//! What the grammar sees of a token, and what is left to read.

ghost use Rattle.std.specs.Prelude.{◌≡◌, length};
ghost use Rattle.mrc_mig_symbols.specs.Symbols.{Means, StopsAt, symbol_by, no_tokens, first_of};
ghost use Rattle.mrc_mig_symbols.specs.Symbols.{text_of, tail_of, after_sign, name_at, stop};
ghost use Rattle.mrc_mig_symbols.specs.Symbols.{unexpected, name_stop};
ghost use Rattle.mrc_mig_symbols.specs.Readers.{left};

use crate::directive::{Directive, directive_of};
use crate::fault::{Stop, StopReason};
use crate::tokens::Tokens;
use crate::word::{Word, word_of};
use mrc_base::limits;
use mrc_mig_lex::{Sign, TokenKind};

/// What the grammar sees of a token.
#[derive(Clone, Copy, Debug, PartialEq, Eq)]
pub enum Symbol {
    /// A reserved word.
    Word(Word),
    /// Any other name.
    Name,
    /// A number.
    Number(u32),
    /// A string.
    Text,
    /// A file's name in `<` and `>`.
    Header,
    /// A sign.
    Sign(Sign),
    /// A line of the preprocessor.
    Directive(Directive),
    /// No token: the end.
    End,
}

/// What the grammar sees of a token of this kind with this text.
#[inline(always)]
pub(crate) fn symbol_by(kind: TokenKind, text: &str) -> Symbol
    ensures { result ≡ symbol_by kind text.now }
{
    match kind {
        TokenKind::Name => match word_of(text) {
            Some(word) => Symbol::Word(word),
            None => Symbol::Name,
        },
        TokenKind::Number(number) => Symbol::Number(number),
        TokenKind::Text => Symbol::Text,
        TokenKind::Header => Symbol::Header,
        TokenKind::Sign(sign) => Symbol::Sign(sign),
        TokenKind::Directive => Symbol::Directive(directive_of(text)),
    }
}

/// What is left to read.
#[derive(Clone, Copy)]
pub struct Rest<'t> {
    tokens: &'t Tokens<'t>,
    /// The number of the first token that is left.
    at: usize,
}

impl<'t> Rest<'t> {
    /// All of the tokens.
    #[tactic(auto, unfolding(crate::specs::Readers::left))]
    pub fn new(tokens: &'t Tokens<'t>) -> Rest<'t>
        ensures { left result ≡ tokens.now }
    {
        Rest { tokens, at: 0 }
    }

    /// Whether nothing is left.
    #[tactic(auto, unfolding(crate::specs::Readers::left))]
    #[inline(always)]
    pub fn is_empty(self) -> bool
        ensures { result ≡ no_tokens (left self.entry) }
    {
        self.len() == 0
    }

    /// What the first token is.
    #[tactic(auto, unfolding(crate::specs::Readers::left))]
    #[inline(always)]
    pub fn first(self) -> Symbol
        ensures { result ≡ first_of (left self.entry) }
    {
        match self.tokens.mark(self.at) {
            Some(mark) => mark.symbol,
            None => Symbol::End,
        }
    }

    /// How many tokens are left.
    #[tactic(auto, unfolding(crate::specs::Readers::left))]
    #[inline(always)]
    pub fn len(self) -> usize
        ensures { result ≡ length (left self.entry) }
    {
        self.tokens.len().saturating_sub(self.at)
    }

    /// The first token's text.
    #[tactic(auto, using(crate::proofs::LeftLemmas::text_left), unfolding(crate::specs::Readers::left))]
    pub fn text(self) -> &'t str
        ensures { result.now ≡ text_of (left self.entry) }
    {
        match self.tokens.token(self.at) {
            Some(token) => token.text(),
            None => "",
        }
    }

    /// What is left after the first token.
    #[tactic(auto, using(crate::proofs::LeftLemmas::next_left, crate::proofs::LeftLemmas::end_left), unfolding(crate::specs::Readers::left))]
    #[inline(always)]
    pub fn next(self) -> Rest<'t>
        ensures { left result ≡ tail_of (left self.entry) }
    {
        if self.at < self.tokens.len() {
            Rest {
                at: self.at + 1,
                ..self
            }
        } else {
            self
        }
    }

    /// Reading stops at the first token.
    pub fn stop(self, why: StopReason) -> Stop
        ensures { result ≡ stop why (left self.entry) }
    {
        Stop {
            why,
            left: self.len(),
        }
    }

    /// Reading stops at a first token that cannot stand there, or at a missing one.
    pub fn unexpected(self) -> Stop
        ensures { result ≡ unexpected (left self.entry) }
    {
        self.stop(StopReason::Unexpected)
    }
}

/// Takes the sign. Anything else is Unexpected.
#[tactic(auto, unfolding(crate::specs::Symbols::after_sign))]
pub fn sign<'t>(rest: Rest<'t>, wanted: Sign) -> Result<Rest<'t>, Stop>
    ensures exact { Means left result (after_sign wanted (left rest.entry)) }
    ensures fault { StopsAt result (unexpected (left rest.entry)) }
{
    match rest.first() {
        Symbol::Sign(found) if found == wanted => Ok(rest.next()),
        _ => Err(rest.unexpected()),
    }
}

/// Takes a name that is not used but made, or stands for something outside of the text. One above
/// 64 bytes is TooMany; a reserved word, and anything else, is Unexpected.
#[tactic(auto, unfolding(crate::specs::Symbols::name_at, crate::specs::Symbols::name_stop))]
pub fn name(rest: Rest<'_>) -> Result<(&str, Rest<'_>), Stop>
    ensures exact { Means (λ x. (x.0.now, left x.1)) result (name_at (left rest.entry)) }
    ensures fault { StopsAt result (name_stop (left rest.entry)) }
{
    if rest.first() != Symbol::Name {
        return Err(rest.unexpected());
    }
    let name = rest.text();
    if name.len() > limits::NAME {
        return Err(rest.stop(StopReason::TooMany));
    }
    Ok((name, rest.next()))
}
