//! Which edition of MIG files a text is of.

ghost use Rattle.std.specs.Prelude.{◌≡◌, ◌-◌, ◌≤◌, Some, length, take, drop};
ghost use Rattle.std.specs.Option.{option_copied};
ghost use Rattle.mrc_mig_symbols.specs.Directives.{after_bytes};
ghost use Rattle.mrc_mig_tokens.specs.Editions.{is_over, after_blanks, after_word, behind_number};
ghost use Rattle.mrc_mig_tokens.specs.Editions.{line_edition};
ghost use Rattle.mrc_mig_tokens.specs.Editions.{behind_machcheck, stronger, edition_of};

use crate::line::after_bytes;
use mrc_mig_lex::{TokenKind, piece_at};
use mrc_mig_symbols::{is_empty_line, without_blanks};

/// An edition of MIG files.
#[derive(Clone, Copy, Debug, PartialEq, Eq)]
pub enum Edition {
    /// The first, which has no line of its own.
    First,
    /// The second.
    Second,
    /// The second, where each right may be sent in each way that gives what is received.
    Received,
}

impl Edition {
    /// The later of two editions.
    fn or(self, other: Edition) -> Edition
        ensures { result ≡ stronger self other }
    {
        match (self, other) {
            (Edition::Received, _) | (_, Edition::Received) => Edition::Received,
            (Edition::Second, _) | (_, Edition::Second) => Edition::Second,
            (Edition::First, Edition::First) => Edition::First,
        }
    }
}

const HASH: &[u8; 1] = b"#";

const PRAGMA: &[u8; 6] = b"pragma";

const MACHCHECK: &[u8; 9] = b"machcheck";

const TWO: &[u8; 1] = b"2";

const RECEIVED: &[u8; 8] = b"received";

/// Whether blanks and whole comments are all that there is.
#[tactic(auto, using(crate::proofs::EditionLemmas::over_is), unfolding(crate::specs::Editions::is_over))]
fn is_over(line: &[u8]) -> bool
    ensures { result ≡ is_over line.now }
{
    is_empty_line(line)
}

/// What follows blanks, of which there is one at least.
fn after_blanks(line: &[u8]) -> Option<&[u8]>
    ensures { option_copied result ≡ after_blanks line.now }
{
    match line {
        [b' ' | b'\t', after @ ..] => Some(without_blanks(after)),
        _ => None,
    }
}

/// What follows a word and blanks, of which there is one at least.
fn after_word<'l>(line: &'l [u8], word: &[u8]) -> Option<&'l [u8]>
    ensures { option_copied result ≡ after_word word.now line.now }
{
    match after_bytes(line, word) {
        Some(after) => after_blanks(after),
        None => None,
    }
}

/// The edition of a line with this behind its number.
fn behind_number(line: &[u8]) -> Edition
    ensures { result ≡ behind_number line.now }
{
    if is_over(line) {
        return Edition::Second;
    }
    let Some(line) = after_blanks(line) else {
        return Edition::First;
    };
    match after_bytes(line, RECEIVED) {
        Some(after) if is_over(after) => Edition::Received,
        _ => Edition::First,
    }
}

/// The edition of a line with this behind `machcheck`.
fn behind_machcheck(line: &[u8]) -> Edition
    ensures { result ≡ behind_machcheck line.now }
{
    match after_bytes(line, TWO) {
        Some(after) => behind_number(after),
        None => Edition::First,
    }
}

/// The edition that a line of the preprocessor names: the first where it names none.
#[tactic(auto, unfolding(crate::specs::Editions::line_edition))]
fn line_edition(line: &[u8]) -> Edition
    ensures { result ≡ line_edition line.now }
{
    let Some(line) = after_bytes(line, HASH) else {
        return Edition::First;
    };
    let Some(line) = after_word(without_blanks(line), PRAGMA) else {
        return Edition::First;
    };
    match after_word(line, MACHCHECK) {
        Some(line) => behind_machcheck(line),
        None => Edition::First,
    }
}

/// The bytes from one place to another.
fn part_of(bytes: &[u8], at: usize, end: usize) -> &[u8]
    requires order { at ≤ end }
    requires within { end ≤ length bytes.now }
    ensures { result.now ≡ take (end - at) (drop at bytes.now) }
{
    &bytes[at..end]
}

/// Which edition a text is of.
///
/// It is of the second if `#pragma machcheck 2` stands before its first token that is no line of
/// the preprocessor, and as received if `#pragma machcheck 2 received` stands there.
pub fn edition_of(text: &str) -> Edition
    ensures { result ≡ edition_of text.now }
{
    let bytes = text.as_bytes();
    let mut edition = Edition::First;
    let mut at = 0;
    let mut fresh = true;
    while let Some((first, rest)) = bytes[at..].split_first() {
        let Ok(piece) = piece_at(at, fresh, *first, rest) else {
            return edition;
        };
        let end = at + 1 + piece.more;
        match piece.kind {
            None => {}
            Some(TokenKind::Directive) => edition = edition.or(line_edition(part_of(
                bytes, at, end,
            ))),
            Some(_) => return edition,
        }
        fresh = piece.fresh;
        at = end;
    }
    edition
}
