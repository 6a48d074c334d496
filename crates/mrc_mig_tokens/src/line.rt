//! Lines of the preprocessor.

ghost use Rattle.std.specs.Prelude.{◌≡◌};
ghost use Rattle.std.specs.Option.{option_copied};
ghost use Rattle.mrc_mig_symbols.specs.Directives.{after_bytes};
ghost use Rattle.mrc_mig_tokens.specs.Lines.{ends_word, is_passed, other_line, line_of};

use mrc_mig_symbols::{Directive, directive_of, without_blanks};

/// What a line that begins with `#` is.
#[derive(Clone, Copy, Debug, PartialEq, Eq)]
pub enum Line {
    /// `#include <mach/std_types.defs>`
    Include,
    /// `# 3 ..` or `#line ..`, which says where the text behind it came from: a gap.
    Mark,
    /// `#pragma ..` or `#ident ..`: a gap.
    Passed,
    /// Any other line.
    Other,
}

const HASH: &[u8; 1] = b"#";

const PRAGMA: &[u8; 6] = b"pragma";

const IDENT: &[u8; 5] = b"ident";

/// What follows these bytes, where they stand at the front.
#[tactic(auto, unfolding(mrc_mig_symbols::specs::Directives::after_bytes))]
pub(crate) fn after_bytes<'l>(line: &'l [u8], bytes: &[u8]) -> Option<&'l [u8]>
    ensures { option_copied result ≡ after_bytes bytes.now line.now }
{
    line.strip_prefix(bytes)
}

/// Whether a word ends before this: a blank or nothing.
fn ends_word(after: Option<&[u8]>) -> bool
    ensures { result ≡ ends_word (option_copied after.entry) }
{
    match after {
        None => false,
        Some([]) => true,
        Some([first, ..]) => *first == b' ' || *first == b'\t' || *first == b'\r',
    }
}

/// Whether a line is passed over, by what follows its `#` and blanks.
fn is_passed(line: &[u8]) -> bool
    ensures { result ≡ is_passed line.now }
{
    ends_word(after_bytes(line, PRAGMA)) || ends_word(after_bytes(line, IDENT))
}

/// What a line is that is no include and no mark.
fn other_line(line: &[u8]) -> Line
    ensures { result ≡ other_line line.now }
{
    match after_bytes(line, HASH) {
        Some(line) if is_passed(without_blanks(line)) => Line::Passed,
        _ => Line::Other,
    }
}

/// What a line is.
#[tactic(auto, unfolding(crate::specs::Lines::line_of))]
pub(crate) fn line_of(text: &str) -> Line
    ensures { result ≡ line_of text.now }
{
    match directive_of(text) {
        Directive::Include => Line::Include,
        Directive::Marker => Line::Mark,
        Directive::Other => other_line(text.as_bytes()),
    }
}
