//! What stands at the front of a text.

ghost use Rattle.std.specs.Prelude.{◌≡◌};
ghost use Rattle.std.specs.Char.{is_ascii_digit};
ghost use Rattle.std.specs.List.{prefix_len};
ghost use Rattle.mrc_mig_tokens.specs.Fronts.{continues_character, stray, kept, odd_kind, front_at};

use mrc_mig_lex::{LexFault, Piece, TokenKind, piece_at};

/// What a token is, or a line of the preprocessor.
#[derive(Clone, Copy, Debug, PartialEq, Eq)]
pub enum Kind {
    /// What it is in both editions.
    Plain(TokenKind),
    /// `{`
    OpenBrace,
    /// `}`
    CloseBrace,
    /// What no phrase has.
    Stray,
}

/// A token, a line of the preprocessor, a blank or a comment at the front of a text.
#[derive(Drop)]
pub(crate) struct Front {
    /// What it is; none for a blank or a comment.
    pub(crate) kind: Option<Kind>,
    /// How many bytes it has after its first.
    pub(crate) more: usize,
    /// Whether only blanks stand on the line so far.
    pub(crate) fresh: bool,
}

/// A token of this kind, which belongs to the second edition alone.
fn stray(kind: Kind, more: usize) -> Front
    ensures { result ≡ stray kind more }
{
    Front {
        kind: Some(kind),
        more,
        fresh: false,
    }
}

/// What stands there in both editions.
fn kept(piece: Piece) -> Front
    ensures { result ≡ kept piece }
{
    Front {
        kind: piece.kind.map(Kind::Plain),
        more: piece.more,
        fresh: piece.fresh,
    }
}

/// What a character is with which no token of the first edition begins.
fn odd_kind(first: u8) -> Kind
    ensures { result ≡ odd_kind first }
{
    match first {
        b'{' => Kind::OpenBrace,
        b'}' => Kind::CloseBrace,
        _ => Kind::Stray,
    }
}

/// How many bytes of a character stand at the front.
fn character_len(rest: &[u8]) -> usize
    ensures { result ≡ prefix_len continues_character rest.now }
{
    rest.iter()
        .take_while(|byte| **byte >= 128 && **byte < 192)
        .count()
}

/// How many digits stand at the front.
fn digits_len(rest: &[u8]) -> usize
    ensures { result ≡ prefix_len is_ascii_digit rest.now }
{
    rest.iter().take_while(|byte| byte.is_ascii_digit()).count()
}

/// What stands at the front of a text that begins with the byte `first`, at the place `at` of the
/// whole text. `fresh` says that only blanks stand before it on its line.
///
/// It is what stands there in the first edition. Where that has no token, it is a brace or a stray:
/// one character, or all digits of a number that is too large. The one fault that is left is a
/// comment that is not closed.
#[tactic(auto, unfolding(crate::specs::Fronts::front_at))]
pub(crate) fn front_at(at: usize, fresh: bool, first: u8, rest: &[u8]) -> Result<Front, LexFault>
    ensures { result ≡ front_at at fresh first rest.now }
{
    match piece_at(at, fresh, first, rest) {
        Ok(piece) => Ok(kept(piece)),
        Err(LexFault::BadCharacter(_)) => Ok(stray(odd_kind(first), character_len(rest))),
        Err(LexFault::NumberTooLarge(_)) => Ok(stray(Kind::Stray, digits_len(rest))),
        Err(LexFault::OpenComment(at)) => Err(LexFault::OpenComment(at)),
    }
}
