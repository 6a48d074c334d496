//! What the tokens are.
ghost use Rattle.std.specs.Prelude.{◌≡◌, ◌+◌, ◌<◌, ◌^◌, length};

use std::marker::Model;

/// A sign that stands for itself.
#[derive(Clone, Copy, Debug, PartialEq, Eq)]
pub enum Sign {
    /// `;`
    Semicolon,
    /// `:`
    Colon,
    /// `,`
    Comma,
    /// `=`
    Equals,
    /// `(`
    OpenParenthesis,
    /// `)`
    CloseParenthesis,
    /// `[`
    OpenBracket,
    /// `]`
    CloseBracket,
    /// `*`
    Star,
    /// `+`
    Plus,
    /// `-`
    Minus,
    /// `/`
    Slash,
    /// `^`
    Caret,
    /// `|`
    Bar,
}

/// What a token is.
#[derive(Clone, Copy, Debug, PartialEq, Eq)]
pub enum TokenKind {
    /// A letter or `_`, then letters, digits and `_`. Keywords are names too.
    Name,
    /// A decimal number, by its value: at most 2,147,483,647.
    Number(u32),
    /// A string on one line, with its two `"`.
    Text,
    /// From `<` to the next `>` of the line, with both.
    Header,
    /// One sign.
    Sign(Sign),
    /// A line that begins with `#`, from there to before the line feed.
    Directive,
}

/// A token of a text: what it is, and the slice of the text that it is.
#[derive(Debug, Drop)]
pub struct Token<'a> {
    kind: TokenKind,
    at: usize,
    text: &'a str,
}

impl<'a> Model for Token<'a> {
    ghost use Rattle.std.specs.Prelude.{◌+◌, ◌<◌, ◌^◌, length};
    ghost use Rattle.mrc_mig_lex.specs.Tokens.{Lexeme};

    ghost Value = { Lexeme };

    ghost view = { λ t. record { kind = t.kind; at = t.at; bytes = t.text.now } };

    ghost invariant = { λ t. t.at + length t.text.now < 2 ^ 64 };
}

impl<'a> Token<'a> {
    /// The token of this kind at this place of a text.
    pub(crate) fn new(kind: TokenKind, at: usize, text: &'a str) -> Token<'a>
        requires { at + length text.now < 2 ^ 64 }
        ensures { result ≡ record { kind = kind; at = at; bytes = text.now } }
    {
        Token { kind, at, text }
    }

    /// What the token is.
    pub fn kind(&self) -> TokenKind
        ensures { result ≡ self.now.kind }
    {
        self.kind
    }

    /// The offset of the token's first byte in the text.
    pub fn at(&self) -> usize
        ensures { result ≡ self.now.at }
    {
        self.at
    }

    /// The token's own text.
    pub fn text(&self) -> &'a str
        ensures { result.now ≡ self.now.bytes }
    {
        self.text
    }

    /// The offset of the first byte after the token.
    pub fn end(&self) -> usize
        ensures { result ≡ self.now.at + length self.now.bytes }
    {
        let length = self.text.len();
        length + self.at
    }
}
