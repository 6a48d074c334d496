//! What the grammar sees of a token.

ghost use Rattle.std.specs.Prelude.{◌≡◌};
ghost use Rattle.mrc_mig_tokens.specs.Symbols.{name_symbol, part_of_line, part_by};

use crate::line::{Line, line_of};
use crate::piece::Kind;
use mrc_mig_lex::{Sign, TokenKind};
use mrc_mig_symbols::{Word, word_of};

/// What the grammar sees of a token.
#[derive(Clone, Copy, Debug, PartialEq, Eq)]
pub enum Symbol {
    /// A reserved word.
    Word(Word),
    /// Any other name.
    Name,
    /// A number.
    Number(u32),
    /// A string.
    Text,
    /// A file's name in `<` and `>`.
    Header,
    /// A sign.
    Sign(Sign),
    /// `{`
    OpenBrace,
    /// `}`
    CloseBrace,
    /// The line that includes the standard types.
    Include,
    /// Any other line of the preprocessor that is no gap.
    Line,
    /// What no phrase has.
    Stray,
    /// No token: the end.
    End,
}

/// What a part of a text is.
#[derive(Clone, Copy, Debug, PartialEq, Eq)]
pub enum Part {
    /// A token.
    Token(Symbol),
    /// A mark of lines.
    Mark,
    /// A gap.
    Gap,
}

/// What a name is: a reserved word, or any other name. Words of old forms are not reserved.
#[tactic(auto, unfolding(crate::specs::Symbols::name_symbol))]
fn name_symbol(text: &str) -> Symbol
    ensures { result ≡ name_symbol text.now }
{
    match word_of(text) {
        None | Some(Word::OldForm) => Symbol::Name,
        Some(word) => Symbol::Word(word),
    }
}

/// What a line of the preprocessor is.
fn part_of_line(line: Line) -> Part
    ensures { result ≡ part_of_line line }
{
    match line {
        Line::Include => Part::Token(Symbol::Include),
        Line::Mark => Part::Mark,
        Line::Passed => Part::Gap,
        Line::Other => Part::Token(Symbol::Line),
    }
}

/// What a part of this kind with this text is.
#[tactic(auto, unfolding(crate::specs::Symbols::part_by))]
pub(crate) fn part_by(kind: Kind, text: &str) -> Part
    ensures { result ≡ part_by kind text.now }
{
    match kind {
        Kind::Plain(TokenKind::Name) => Part::Token(name_symbol(text)),
        Kind::Plain(TokenKind::Number(number)) => Part::Token(Symbol::Number(number)),
        Kind::Plain(TokenKind::Text) => Part::Token(Symbol::Text),
        Kind::Plain(TokenKind::Header) => Part::Token(Symbol::Header),
        Kind::Plain(TokenKind::Sign(sign)) => Part::Token(Symbol::Sign(sign)),
        Kind::Plain(TokenKind::Directive) => part_of_line(line_of(text)),
        Kind::OpenBrace => Part::Token(Symbol::OpenBrace),
        Kind::CloseBrace => Part::Token(Symbol::CloseBrace),
        Kind::Stray => Part::Token(Symbol::Stray),
    }
}
