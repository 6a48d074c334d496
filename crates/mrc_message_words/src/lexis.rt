//! The parts of a message in words: braces, brackets, texts in quotes, and words.

ghost use Rattle.std.specs.Prelude.{◌<◌, ◌≤◌, length, IfSome};

use crate::place::Place;

/// What is left of a text.
#[derive(Clone, Copy, Debug)]
pub(crate) struct Cursor<'t> {
    /// How many bytes the whole text has.
    pub total: usize,
    /// The bytes that are left.
    pub rest: &'t [u8],
}

/// What a part is.
#[derive(Clone, Copy, Debug, PartialEq, Eq)]
pub(crate) enum Mark {
    /// Nothing: the end of the text.
    End,
    /// `{`
    Open,
    /// `}`
    Close,
    /// `[`
    Left,
    /// `]`
    Right,
    /// A text in quotes, which are among its bytes.
    Text,
    /// A quote that does not close.
    Broken,
    /// A word.
    Word,
}

/// A part of a message in words.
#[derive(Clone, Copy, Debug)]
pub(crate) struct Token<'t> {
    /// What it is.
    pub mark: Mark,
    /// Its bytes.
    pub bytes: &'t [u8],
    /// Where it stands.
    pub place: Place,
    /// It stands right behind what comes before it.
    pub is_glued: bool,
    /// What comes behind it.
    pub after: Cursor<'t>,
}

impl Token<'_> {
    /// Whether it is this word.
    pub(crate) fn is(self, word: &[u8]) -> bool {
        self.mark == Mark::Word && self.bytes == word
    }
}

impl<'t> Cursor<'t> {
    /// The whole text.
    pub(crate) fn new(text: &'t [u8]) -> Cursor<'t> {
        Cursor {
            total: text.len(),
            rest: text,
        }
    }

    /// The place of the next bytes, so many.
    pub(crate) fn place(self, len: usize) -> Place {
        Place {
            first: self.total.saturating_sub(self.rest.len()),
            len,
        }
    }

    /// The next part.
    pub(crate) fn token(self) -> Token<'t> {
        let blanks = blanks_len(self.rest);
        let (_, rest) = self.rest.split_at(blanks);
        let (mark, len) = mark_of(rest);
        let (bytes, after) = rest.split_at(len);
        let here = Cursor {
            total: self.total,
            rest,
        };
        Token {
            mark,
            bytes,
            place: here.place(len),
            is_glued: blanks == 0,
            after: Cursor {
                total: self.total,
                rest: after,
            },
        }
    }
}

/// How many blanks the bytes begin with.
fn blanks_len(bytes: &[u8]) -> usize
    ensures { result ≤ length bytes.now }
{
    for (i, byte) in bytes.iter().enumerate() {
        if *byte != b' ' && *byte != b'\t' {
            return i;
        }
    }
    bytes.len()
}

/// How many bytes of a word the bytes begin with.
fn word_len(bytes: &[u8]) -> usize
    ensures { result ≤ length bytes.now }
{
    for (i, byte) in bytes.iter().enumerate() {
        if matches!(*byte, b' ' | b'\t' | b'{' | b'}' | b'[' | b']' | b'"') {
            return i;
        }
    }
    bytes.len()
}

/// The place of the quote that closes a text. A backslash stands before a quote or a backslash of
/// the text.
fn closing_quote(bytes: &[u8]) -> Option<usize>
    ensures { IfSome result (λ place. place < length bytes.now) }
{
    let mut is_escaped = false;
    for (i, byte) in bytes.iter().enumerate() {
        if *byte == b'"' && !is_escaped {
            return Some(i);
        }
        is_escaped = *byte == b'\\' && !is_escaped;
    }
    None
}

/// What the bytes begin with, and how long it is.
fn mark_of(bytes: &[u8]) -> (Mark, usize)
    ensures { result.1 ≤ length bytes.now }
{
    match bytes {
        [] => (Mark::End, 0),
        [b'{', ..] => (Mark::Open, 1),
        [b'}', ..] => (Mark::Close, 1),
        [b'[', ..] => (Mark::Left, 1),
        [b']', ..] => (Mark::Right, 1),
        [b'"', inner @ ..] => match closing_quote(inner) {
            Some(place) => (Mark::Text, place + 2),
            None => (Mark::Broken, bytes.len()),
        },
        _ => (Mark::Word, word_len(bytes)),
    }
}

/// The value of a hexadecimal digit, of either case.
fn digit_value(digit: u8) -> Option<u8>
    ensures { IfSome result (λ value. value < 16) }
{
    match digit {
        b'0'..=b'9' => Some(digit - b'0'),
        b'a'..=b'f' => Some(digit - b'a' + 10),
        b'A'..=b'F' => Some(digit - b'A' + 10),
        _ => None,
    }
}

/// The number that digits of this base are, of at most 64 bits.
fn number_in(base: u64, digits: &[u8]) -> Option<u64> {
    let mut number = 0u64;
    for digit in digits {
        let value = u64::from(digit_value(*digit)?);
        if value >= base {
            return None;
        }
        number = number.checked_mul(base)?.checked_add(value)?;
    }
    if digits.is_empty() {
        None
    } else {
        Some(number)
    }
}

/// The number that a word is, in decimal or behind `0x`.
pub(crate) fn number_of(word: &[u8]) -> Option<u64> {
    match word {
        [b'0', b'x', digits @ ..] => number_in(16, digits),
        _ => number_in(10, word),
    }
}

/// The byte that two hexadecimal digits are.
pub(crate) fn byte_of(high: u8, low: u8) -> Option<u8> {
    let high = digit_value(high)?;
    let low = digit_value(low)?;
    Some(high * 16 + low)
}
