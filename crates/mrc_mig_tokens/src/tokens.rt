//! The tokens of a text, and its marks of lines.

ghost use Rattle.std.specs.Prelude.{◌≡◌, ◌++◌, [], All, IfOk, OnOk, length, slice_get};
ghost use Rattle.std.specs.Option.{option_map_or};
ghost use Rattle.mrc_base.specs.Reading.{Gives};
ghost use Rattle.mrc_mig_tokens.specs.Tokens.{Token, marks_of_part, lines_of_part, lexed_by, lex};
ghost use Rattle.mrc_mig_tokens.specs.Tokens.{IsCut};
ghost use Rattle.mrc_mig_tokens.specs.declared.symbol.Symbol.TheVariants.{End};

use crate::piece::front_at;
use crate::symbol::{Part, Symbol, part_by};
use mrc_base::OrMemory;
use mrc_mig_lex::LexFault;
use std::alloc::{AllocError, Global};
use std::marker::Model;

/// What is kept of a token: what the grammar sees of it, and where it begins and ends in the text.
#[derive(Clone, Copy, Debug, PartialEq, Eq)]
pub(crate) struct Mark {
    pub(crate) symbol: Symbol,
    pub(crate) at: usize,
    pub(crate) end: usize,
}

/// A line that says where the text behind it came from, by where it begins and ends.
#[derive(Clone, Copy, Debug, PartialEq, Eq)]
pub struct LineMark {
    /// Where its `#` stands.
    pub at: usize,
    /// Where its line feed stands, or the end of the text.
    pub end: usize,
}

/// What is kept of a text.
#[derive(Drop)]
struct Found {
    marks: Vec<Mark>,
    lines: Vec<LineMark>,
}

impl Found {
    /// With a part of the text that stands there.
    fn push(&mut self, part: Part, at: usize, end: usize) -> Result<(), AllocError>
        ensures marks { OnOk result (self.new.marks.items
            ≡ self.old.marks.items ++ marks_of_part part at end) }
        ensures lines { OnOk result (self.new.lines.items
            ≡ self.old.lines.items ++ lines_of_part part at end) }
    {
        match part {
            Part::Token(symbol) => self.marks.push(Mark { symbol, at, end })?,
            Part::Mark => self.lines.push(LineMark { at, end })?,
            Part::Gap => {}
        }
        Ok(())
    }
}

/// The tokens of a text, and its marks of lines beside them. A token takes 24 bytes.
#[derive(Drop)]
pub struct Tokens<'t> {
    text: &'t str,
    found: Found,
}

impl<'t> Model for Tokens<'t> {
    ghost use Rattle.std.specs.Prelude.{All};
    ghost use Rattle.mrc_mig_tokens.specs.Tokens.{Lexed, lexed_by, IsCut};

    ghost Value = { Lexed };

    ghost view = { λ t. lexed_by t.text.now t.found.marks.items t.found.lines.items };

    ghost invariant = { λ t. All (IsCut t.text.now) t.found.marks.items };
}

impl<'t> Tokens<'t> {
    /// How many tokens there are.
    pub fn len(&self) -> usize
        ensures { result ≡ length self.now.tokens }
    {
        self.found.marks.len()
    }

    /// What the token of this number is, or the end where there is none.
    #[inline(always)]
    pub(crate) fn symbol(&self, number: usize) -> Symbol
        ensures { result
            ≡ option_map_or (λ (t : Token). t.symbol) (slice_get self.now.tokens number) End }
    {
        match self.found.marks.as_slice().get(number) {
            Some(mark) => mark.symbol,
            None => Symbol::End,
        }
    }

    /// The text of the token of this number; nothing where there is none.
    pub fn text(&self, number: usize) -> &'t str
        ensures { result.now
            ≡ option_map_or (λ (t : Token). t.bytes) (slice_get self.now.tokens number) [] }
    {
        match self.found.marks.as_slice().get(number) {
            Some(mark) => &self.text[mark.at..mark.end],
            None => "",
        }
    }

    /// Where the token of this number begins in the text; where there is none, 0.
    pub fn at(&self, number: usize) -> usize
        ensures { result
            ≡ option_map_or (λ (t : Token). t.at) (slice_get self.now.tokens number) 0 }
    {
        match self.found.marks.as_slice().get(number) {
            Some(mark) => mark.at,
            None => 0,
        }
    }

    /// The marks of lines, in the order of the text.
    pub fn lines(&self) -> &[LineMark]
        ensures { result.now ≡ self.now.lines }
    {
        self.found.lines.as_slice()
    }
}

/// Reads a text part by part, each behind the one before.
fn found_in(alloc: Global, text: &str) -> Result<Found, OrMemory<LexFault>>
    ensures lexed { Gives (λ found. lexed_by text.now found.marks.items found.lines.items) result
        (lex text.now) }
    ensures cut { IfOk result (λ found. All (IsCut text.now) found.marks.items) }
{
    let bytes = text.as_bytes();
    let mut found = Found {
        marks: Vec::new(alloc),
        lines: Vec::new(alloc),
    };
    let mut at = 0;
    let mut fresh = true;
    while let Some((first, rest)) = bytes[at..].split_first() {
        let front = front_at(at, fresh, *first, rest)?;
        let end = at + 1 + front.more;
        if let Some(kind) = front.kind {
            found.push(part_by(kind, &text[at..end]), at, end)?;
        }
        fresh = front.fresh;
        at = end;
    }
    Ok(found)
}

/// The tokens of a MIG text of the second edition from left to right, and its marks of lines; or
/// the place of the first comment that is not closed.
///
/// It takes time in proportion to the length of the text.
pub fn lex(alloc: Global, text: &str) -> Result<Tokens<'_>, OrMemory<LexFault>>
    ensures fault { Gives (λ tokens. tokens) result (lex text.now) }
{
    let found = found_in(alloc, text)?;
    Ok(Tokens { text, found })
}
