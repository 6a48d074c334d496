//! The tokens of a text, each with what the grammar sees of it.

ghost use Rattle.std.specs.Prelude.{◌≡◌, List, All, Ok, IfOk, length, slice_get};
ghost use Rattle.std.specs.Option.{option_map};
ghost use Rattle.mrc_base.specs.Reading.{Gives};
ghost use Rattle.mrc_mig_lex.specs.Tokens.{Lexeme, IsSliceOf, AreInOrder};
ghost use Rattle.mrc_mig_lex.specs.Parts.{HasTokens};
ghost use Rattle.mrc_mig_lex.specs.Lexing.{tokens_of};
ghost use Rattle.mrc_mig_symbols.specs.Marks.{mark_of, marks_of};

use crate::symbol::{Symbol, symbol_by};
use mrc_base::OrMemory;
use mrc_mig_lex::{LexFault, Token, next_token, piece_at};
use std::alloc::Global;
use std::marker::Model;

/// What is kept of a token.
#[derive(Clone, Copy, Debug, PartialEq, Eq)]
pub(crate) struct Mark {
    /// What the grammar sees of it.
    pub(crate) symbol: Symbol,
    /// The offset of its first byte in the text.
    pub(crate) at: usize,
}

/// The tokens of a text. What the grammar sees of each is found once; its own text is found again
/// where it is asked for, so that a token takes 16 bytes.
#[derive(Drop)]
pub struct Tokens<'t> {
    text: &'t str,
    marks: Vec<Mark>,
}

impl<'t> Model for Tokens<'t> {
    ghost use Rattle.std.specs.Prelude.{List};
    ghost use Rattle.mrc_mig_lex.specs.Tokens.{Lexeme};
    ghost use Rattle.mrc_mig_symbols.specs.Marks.{tokens_in, AreMarks};

    ghost Value = { List Lexeme };

    ghost view = { λ t. tokens_in t.text.now };

    ghost invariant = { λ t. AreMarks t.text.now t.marks.items };
}

impl<'t> Tokens<'t> {
    /// How many tokens there are.
    pub fn len(&self) -> usize
        ensures { result ≡ length self.now }
    {
        self.marks.len()
    }

    /// What is kept of the token of this number, where there is one.
    #[inline(always)]
    pub(crate) fn mark(&self, number: usize) -> Option<Mark>
        ensures { result ≡ option_map mark_of (slice_get self.now number) }
    {
        self.marks.as_slice().get(number).copied()
    }

    /// The token of this number, where there is one.
    pub(crate) fn token(&self, number: usize) -> Option<Token<'t>>
        ensures { result ≡ slice_get self.now number }
    {
        let mark = self.mark(number)?;
        match next_token(self.text, mark.at, true) {
            Ok(token) => token,
            Err(_) => None,
        }
    }
}

/// Reads a text piece by piece, each behind the one before.
#[tactic(auto, unfolding(crate::specs::Marks::marks_of))]
fn marks_of(alloc: Global, text: &str) -> Result<Vec<Mark>, OrMemory<LexFault>>
    ensures { Gives (λ marks. marks.items) result (marks_of text.now) }
{
    let bytes = text.as_bytes();
    let mut marks = Vec::new(alloc);
    let mut at = 0;
    let mut fresh = true;
    while let Some((first, rest)) = bytes[at..].split_first() {
        let piece = piece_at(at, fresh, *first, rest)?;
        let end = at + 1 + piece.more;
        if let Some(kind) = piece.kind {
            let symbol = symbol_by(kind, &text[at..end]);
            marks.push(Mark { symbol, at })?;
        }
        fresh = piece.fresh;
        at = end;
    }
    Ok(marks)
}

/// Reads a text.
fn tokens_of(alloc: Global, text: &str) -> Result<Tokens<'_>, OrMemory<LexFault>>
    ensures { Gives (λ tokens. tokens) result (tokens_of text.now) }
{
    let marks = marks_of(alloc, text)?;
    Ok(Tokens { text, marks })
}

/// The tokens of a MIG subsystem text from left to right, or its first fault in byte order.
///
/// A fault is `BadCharacter`, `OpenComment` or `NumberTooLarge` with the offset of the byte where
/// it begins; where memory runs out, that is answered in its place. It takes time in proportion to
/// the length of the text.
pub fn lex(alloc: Global, text: &str) -> Result<Tokens<'_>, OrMemory<LexFault>>
    // The text is made of these tokens, blanks and comments, and of no other tokens.
    ensures found { IfOk result (λ tokens. HasTokens text.now tokens) }
    // The tokens that a text is made of are answered, unless memory runs out.
    ensures only { (tokens : List Lexeme) → HasTokens text.now tokens →
        Gives (λ found. found) result (Ok tokens) }
    // Which fault it is: the first.
    ensures fault { Gives (λ tokens. tokens) result (tokens_of text.now) }
    ensures slices { IfOk result (λ tokens. All (IsSliceOf text.now) tokens) }
    ensures in_order { IfOk result (λ tokens. AreInOrder tokens) }
{
    tokens_of(alloc, text)
}
