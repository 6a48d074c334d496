//! What stands at the front of a text.

ghost use Rattle.std.specs.Prelude.{◌≡◌, ◌<◌, ◌==◌, ◌||◌, ◌∷◌, length, position, min};
ghost use Rattle.std.specs.Char.{is_ascii_digit};
ghost use Rattle.std.specs.List.{prefix_len};
ghost use Rattle.mrc_mig_lex.specs.Characters.{line_feed, is_blank, begins_name, continues_name};
ghost use Rattle.mrc_mig_lex.specs.Characters.{sign_of};
ghost use Rattle.mrc_mig_lex.specs.Pieces.{token, gap, decimal, line_len, closed_len, comment_len};
ghost use Rattle.mrc_mig_lex.specs.Pieces.{number_at, closed_at, comment_at, sign_at, piece_at};

use crate::fault::LexFault;
use crate::token::{Sign, TokenKind};
use mrc_base::limits;

/// One more than the largest number of a text.
const TOO_LARGE: u64 = limits::NUMBER as u64 + 1;

/// A token, a blank or a comment at the front of a text.
#[derive(Drop)]
pub struct Piece {
    /// What the token is; none for a blank or a comment.
    pub kind: Option<TokenKind>,
    /// How many bytes it has after its first.
    pub more: usize,
    /// Whether only blanks stand on the line so far.
    pub fresh: bool,
}

impl Piece {
    #[inline(always)]
    fn token(kind: TokenKind, more: usize) -> Piece
        ensures { result ≡ token kind more }
    {
        Piece {
            kind: Some(kind),
            more,
            fresh: false,
        }
    }

    #[inline(always)]
    fn gap(more: usize, fresh: bool) -> Piece
        ensures { result ≡ gap more fresh }
    {
        Piece {
            kind: None,
            more,
            fresh,
        }
    }
}

#[inline(always)]
fn begins_name(byte: u8) -> bool
    ensures { result ≡ begins_name byte }
{
    byte.is_ascii_alphabetic() || byte == b'_'
}

#[inline(always)]
fn continues_name(byte: u8) -> bool
    ensures { result ≡ continues_name byte }
{
    begins_name(byte) || byte.is_ascii_digit()
}

#[inline(always)]
fn is_blank(byte: u8) -> bool
    ensures { result ≡ is_blank byte }
{
    matches!(byte, b' ' | b'\t' | b'\r' | b'\n')
}

#[inline(always)]
fn sign_of(byte: u8) -> Option<Sign>
    ensures { result ≡ sign_of byte }
{
    match byte {
        b';' => Some(Sign::Semicolon),
        b':' => Some(Sign::Colon),
        b',' => Some(Sign::Comma),
        b'=' => Some(Sign::Equals),
        b'(' => Some(Sign::OpenParenthesis),
        b')' => Some(Sign::CloseParenthesis),
        b'[' => Some(Sign::OpenBracket),
        b']' => Some(Sign::CloseBracket),
        b'*' => Some(Sign::Star),
        b'+' => Some(Sign::Plus),
        b'-' => Some(Sign::Minus),
        b'/' => Some(Sign::Slash),
        b'^' => Some(Sign::Caret),
        b'|' => Some(Sign::Bar),
        _ => None,
    }
}

/// How many bytes of a name stand at the front.
fn name_len(rest: &[u8]) -> usize
    ensures { result ≡ prefix_len continues_name rest.now }
{
    rest.iter()
        .take_while(|byte| continues_name(**byte))
        .count()
}

/// How many bytes stand before the end of the line.
fn line_len(rest: &[u8]) -> usize
    ensures { result ≡ line_len rest.now }
{
    rest.iter().take_while(|byte| **byte != b'\n').count()
}

/// Where the next `close` or the end of the line stands.
fn close_or_line_end(close: u8, rest: &[u8]) -> Option<usize>
    ensures { result ≡ position (λ c. (c == close) || (c == line_feed)) rest.now }
{
    rest.iter()
        .position(|byte| *byte == close || *byte == b'\n')
}

/// How many bytes stand up to and with the next `close`, where the line has one.
fn closed_len(close: u8, rest: &[u8]) -> Option<usize>
    ensures { result ≡ closed_len close rest.now }
{
    let end = close_or_line_end(close, rest)?;
    if rest[end] == close {
        Some(end + 1)
    } else {
        None
    }
}

/// How many bytes stand up to and with the next `*/`, where there is one.
fn comment_len(rest: &[u8]) -> Option<usize>
    ensures { result ≡ comment_len rest.now }
{
    for start in 0..rest.len() {
        if rest[start..].starts_with(b"*/") {
            return Some(start + 2);
        }
    }
    None
}

/// How many digits stand at the front.
fn digits_len(rest: &[u8]) -> usize
    ensures { result ≡ prefix_len is_ascii_digit rest.now }
{
    rest.iter().take_while(|byte| byte.is_ascii_digit()).count()
}

/// The value of decimal digits, or `TOO_LARGE` for one that is no number of a text.
fn capped_value(first: u8, digits: &[u8]) -> u64
    ensures { result ≡ min (decimal (first ∷ digits.now)) TOO_LARGE }
{
    let mut value = u64::from(first.saturating_sub(b'0'));
    for digit in digits {
        value = (10 * value + u64::from(digit.saturating_sub(b'0'))).min(TOO_LARGE);
    }
    value
}

#[inline(always)]
fn number_at(at: usize, first: u8, rest: &[u8]) -> Result<Piece, LexFault>
    ensures { result ≡ number_at at first rest.now }
{
    let more = digits_len(rest);
    let value = capped_value(first, &rest[..more]);
    if value == TOO_LARGE {
        return Err(LexFault::NumberTooLarge(at));
    }
    Ok(Piece::token(TokenKind::Number(value as u32), more))
}

fn closed_at(at: usize, kind: TokenKind, close: u8, rest: &[u8]) -> Result<Piece, LexFault>
    ensures { result ≡ closed_at at kind close rest.now }
{
    match closed_len(close, rest) {
        Some(more) => Ok(Piece::token(kind, more)),
        None => Err(LexFault::BadCharacter(at)),
    }
}

fn comment_at(at: usize, rest: &[u8]) -> Result<Piece, LexFault>
    requires { 0 < length rest.now }
    ensures { result ≡ comment_at at rest.now }
{
    match comment_len(&rest[1..]) {
        Some(more) => Ok(Piece::gap(more + 1, false)),
        None => Err(LexFault::OpenComment(at)),
    }
}

#[inline(always)]
fn sign_at(at: usize, first: u8) -> Result<Piece, LexFault>
    ensures { result ≡ sign_at at first }
{
    match sign_of(first) {
        Some(sign) => Ok(Piece::token(TokenKind::Sign(sign), 0)),
        None => Err(LexFault::BadCharacter(at)),
    }
}

/// What stands at the front of a text that begins with the byte `first`, at the place `at` of the
/// whole text. `fresh` says that only blanks stand before it on its line.
///
/// It is the longest token that begins there, a blank (space, tab, carriage return, line feed) or a
/// comment. Tokens are those of the grammar of the Server Writer's Guide for MIG; which signs there
/// are, and that strings have no escapes, is this profile's own choice. Keywords are names here. A
/// `#` with only blanks before it on its line makes the rest of the line one token, which is not
/// read further.
#[inline(always)]
#[tactic(auto, unfolding(crate::specs::Pieces::piece_at))]
pub fn piece_at(at: usize, fresh: bool, first: u8, rest: &[u8]) -> Result<Piece, LexFault>
    ensures { result ≡ piece_at at fresh first rest.now }
{
    if is_blank(first) {
        Ok(Piece::gap(0, fresh || first == b'\n'))
    } else if begins_name(first) {
        Ok(Piece::token(TokenKind::Name, name_len(rest)))
    } else if first.is_ascii_digit() {
        number_at(at, first, rest)
    } else if first == b'"' {
        closed_at(at, TokenKind::Text, b'"', rest)
    } else if first == b'<' {
        closed_at(at, TokenKind::Header, b'>', rest)
    } else if first == b'#' && fresh {
        Ok(Piece::token(TokenKind::Directive, line_len(rest)))
    } else if first == b'/' && rest.starts_with(b"*") {
        comment_at(at, rest)
    } else {
        sign_at(at, first)
    }
}
