//! Where in the sources a place of a text is.

ghost use Rattle.std.specs.Prelude.{◌≡◌, ◌≤◌, None, length, slice_range, nat_lt, if◌then◌else◌};
ghost use Rattle.std.specs.Option.{option_copied};
ghost use Rattle.std.specs.List.{last_or};
ghost use Rattle.mrc_base.specs.Limits.{limit_of_number};
ghost use Rattle.mrc_mig_symbols.specs.Directives.{after_bytes};
ghost use Rattle.mrc_mig_forms.specs.Marks.{before, before_quote, behind_digits, last_name};
ghost use Rattle.mrc_mig_forms.specs.Marks.{line_feeds, line_behind, name_in, number_of, numbered};
ghost use Rattle.mrc_mig_forms.specs.Marks.{quoted, source_of, text_of};

use mrc_base::limits;
use mrc_mig_symbols::without_blanks;
use mrc_mig_tokens::LineMark;

/// The largest number of a line.
const MOST: u64 = limits::NUMBER as u64;

const HASH: &[u8; 1] = b"#";

const LINE: &[u8; 4] = b"line";

/// A place in the sources that a text came from.
#[derive(Clone, Copy, Debug)]
pub struct Source<'t> {
    /// The name of the file, or nothing for the text itself.
    pub file: Option<&'t [u8]>,
    /// The number of the line, from 1.
    pub line: u64,
}

/// What follows these bytes, where they stand at the front.
#[tactic(auto, unfolding(mrc_mig_symbols::specs::Directives::after_bytes))]
fn after_bytes<'l>(line: &'l [u8], bytes: &[u8]) -> Option<&'l [u8]>
    ensures { option_copied result ≡ after_bytes bytes.now line.now }
{
    line.strip_prefix(bytes)
}

/// A mark from its number on.
fn numbered(line: &[u8]) -> &[u8]
    ensures { result.now ≡ numbered line.now }
{
    let Some(line) = after_bytes(line, HASH) else {
        return &[];
    };
    let line = without_blanks(line);
    match after_bytes(line, LINE) {
        Some(after) => without_blanks(after),
        None => line,
    }
}

/// The number at the front, at most 2,147,483,647.
fn number_of(line: &[u8]) -> u64
    ensures value { result ≡ number_of line.now }
    ensures within { result ≤ limit_of_number }
{
    let mut number = 0u64;
    for digit in line {
        if !digit.is_ascii_digit() {
            return number;
        }
        number = (number * 10 + u64::from(*digit - b'0')).min(MOST);
    }
    number
}

/// What follows the digits at the front.
fn behind_digits(line: &[u8]) -> &[u8]
    ensures { result.now ≡ behind_digits line.now }
{
    let mut rest = line;
    while let [b'0'..=b'9', after @ ..] = rest {
        rest = after;
    }
    rest
}

/// The bytes before the first quote, where there is one.
fn before_quote(line: &[u8]) -> Option<&[u8]>
    ensures { option_copied result ≡ before_quote line.now }
{
    for i in 0..line.len() {
        if line[i] == b'"' {
            return Some(&line[..i]);
        }
    }
    None
}

/// The bytes between a quote at the front and the next one.
fn quoted(line: &[u8]) -> Option<&[u8]>
    ensures { option_copied result ≡ quoted line.now }
{
    match line {
        [b'"', after @ ..] => before_quote(after),
        _ => None,
    }
}

/// The name of the file in a mark, where it has one.
fn name_in(line: &[u8]) -> Option<&[u8]>
    ensures { option_copied result ≡ name_in line.now }
{
    quoted(without_blanks(behind_digits(numbered(line))))
}

/// How many lines end here.
fn line_feeds(bytes: &[u8]) -> usize
    ensures count { result ≡ line_feeds bytes.now }
    ensures within { result ≤ length bytes.now }
{
    let mut count = 0;
    for byte in bytes {
        if *byte == b'\n' {
            count += 1;
        }
    }
    count
}

/// The bytes from one place to another.
fn between(text: &str, from: usize, to: usize) -> &[u8]
    ensures bytes { result.now ≡ slice_range text.now from to }
    ensures within { length result.now ≤ length text.now }
{
    let bytes = text.as_bytes();
    let to = to.min(bytes.len());
    &bytes[from.min(to)..to]
}

/// The last of the marks that stand before a place.
fn last_before(marks: &[LineMark], place: usize) -> Option<LineMark>
    ensures { result ≡ last_or None (before place marks.now) }
{
    let mut last = None;
    for mark in marks {
        if mark.at < place {
            last = Some(*mark);
        }
    }
    last
}

/// The name of the file in a mark, where it has one and stands before a place.
fn name_before<'t>(text: &'t str, mark: &LineMark, place: usize) -> Option<&'t [u8]>
    ensures { option_copied result ≡
        (if nat_lt mark.now.at place then name_in (text_of text.now mark.now) else None) }
{
    if mark.at < place {
        name_in(between(text, mark.at, mark.end))
    } else {
        None
    }
}

/// The last name among the marks that stand before a place.
fn last_name<'t>(text: &'t str, marks: &[LineMark], place: usize) -> Option<&'t [u8]>
    ensures { option_copied result ≡ last_name text.now (before place marks.now) }
{
    let mut file = None;
    for mark in marks {
        if let Some(name) = name_before(text, mark, place) {
            file = Some(name);
        }
    }
    file
}

/// The line of a place behind a mark, or behind none.
fn line_behind(text: &str, place: usize, last: Option<LineMark>) -> u64
    ensures { result ≡ line_behind text.now place last }
{
    match last {
        Some(mark) => {
            let number = number_of(numbered(between(text, mark.at, mark.end)));
            let feeds = line_feeds(between(text, mark.end, place)) as u64;
            (number + feeds).saturating_sub(1)
        }
        None => line_feeds(between(text, 0, place)) as u64 + 1,
    }
}

/// Where in the sources a place of a text is, by the marks of lines before it: the file of the last
/// one that has a name, and the number of the last one for the line behind it. The place and the
/// marks are offsets in bytes.
pub fn source_of<'t>(text: &'t str, marks: &[LineMark], place: usize) -> Source<'t>
    ensures file { option_copied result.file ≡ (source_of text.now marks.now place).file }
    ensures line { result.line ≡ (source_of text.now marks.now place).line }
{
    Source {
        file: last_name(text, marks, place),
        line: line_behind(text, place, last_before(marks, place)),
    }
}
