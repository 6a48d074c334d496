//! What is said of a fault of the grammar.

use crate::bytes::line_number;
use crate::mig_tokens::{
    Naming, Seen, has_include, has_subsystem, is_colon, is_name, is_slash, named,
};
use crate::mig_trials::{BASIC_NAME, expected, may_be, may_be_number};
use crate::mig_types::{declared_at, given_at, is_table_name, known_names};
use mrc_base::limits;
use mrc_mig_lex::Sign;
use mrc_mig_symbols::{Feature, ParseFault, Symbol, Word};
use mrc_place::{did_you_mean, listed, nearest, one_note};
use std::alloc::{AllocError, Global};

/// What is said of a routine without a request port, or with two.
const REQUEST_PORT: &str = "a routine has one request port, of a port type: the argument marked \
    requestport, or else the first, unmarked or in";

/// What is said of a comment that is not closed.
pub(crate) const OPEN_COMMENT: &str = "this comment is not closed";

/// What is said of a name that is too long.
pub(crate) const LONG_NAME: &str = "a name has at most 64 bytes";

/// What is said of a file without the word `subsystem`.
pub(crate) const NO_SUBSYSTEM: &str = "the file has no subsystem";

/// What helps with a line of the preprocessor.
pub(crate) const PREPROCESS: &str =
    "run machcheck mig first: it works out macros, conditions and includes";

/// Adds a sentence if the test holds.
fn push_if(
    alloc: Global,
    notes: &mut Vec<String>,
    test: bool,
    sentence: &str,
) -> Result<(), AllocError> {
    if test {
        notes.push(String::from_str(alloc, sentence)?)?;
    }
    Ok(())
}

/// The names of these tokens.
fn texts<'t>(alloc: Global, seen: &[Seen<'t>]) -> Result<Vec<&'t str>, AllocError> {
    let mut names = Vec::new(alloc);
    for token in seen {
        names.push(token.text)?;
    }
    Ok(names)
}

/// The name of the first type that is declared among these tokens, if there is one.
fn first_type<'t>(alloc: Global, before: &[Seen<'t>]) -> Result<Vec<&'t str>, AllocError> {
    let types = named(alloc, Naming::OfType, before)?;
    let mut names = texts(alloc, types.as_slice())?;
    names.truncate(1);
    Ok(names)
}

/// Adds that one of these words is expected, if there is one.
fn push_alternatives(
    alloc: Global,
    words: &[&str],
    notes: &mut Vec<String>,
) -> Result<(), AllocError> {
    if !words.is_empty() {
        notes.push(mrc_place::expected(alloc, words)?)?;
    }
    Ok(())
}

/// Adds what may be at a place.
fn push_expected(
    alloc: Global,
    text: &str,
    at: usize,
    before: &[Seen<'_>],
    notes: &mut Vec<String>,
) -> Result<(), AllocError> {
    let types = first_type(alloc, before)?;
    let words = expected(alloc, text, at, types.as_slice())?;
    push_alternatives(alloc, words.as_slice(), notes)
}

fn is_line(symbol: Symbol) -> bool {
    matches!(symbol, Symbol::Directive(_))
}

/// Whether this is a number or a parenthesis, and such a token may be there.
fn is_unfit(alloc: Global, text: &str, at: usize, symbol: Symbol) -> Result<bool, AllocError> {
    match symbol {
        Symbol::Number(_) => may_be_number(alloc, text, at),
        Symbol::Sign(Sign::OpenParenthesis) => may_be(alloc, text, at, "("),
        _ => Ok(false),
    }
}

fn is_zero(symbol: Symbol) -> bool {
    match symbol {
        Symbol::Number(number) => number == 0,
        _ => false,
    }
}

/// Whether this is 0 and what is divided by, behind these tokens.
fn is_zero_divisor(before: &[Seen<'_>], symbol: Symbol) -> bool {
    match before.last() {
        Some(last) => is_slash(last.symbol) && is_zero(symbol),
        None => false,
    }
}

/// What is said of a value that does not fit, behind these tokens.
fn unfit_note(before: &[Seen<'_>], symbol: Symbol) -> &'static str {
    if is_zero_divisor(before, symbol) {
        return "a divisor is not 0";
    }
    "its value does not fit: see MIG.md, Grammar, for sizes and the parts of an expression"
}

/// Whether none of these tokens is the word `subsystem`.
fn lacks_subsystem(before: &[Seen<'_>], from: &[Seen<'_>]) -> bool {
    if has_subsystem(before) {
        return false;
    }
    !has_subsystem(from)
}

/// What is said of a token that can't be there.
fn unexpected_notes(
    alloc: Global,
    text: &str,
    at: usize,
    before: &[Seen<'_>],
    from: &[Seen<'_>],
    symbol: Symbol,
) -> Result<Vec<String>, AllocError> {
    let mut notes = Vec::new(alloc);
    push_expected(alloc, text, at, before, &mut notes)?;
    let is_missing = lacks_subsystem(before, from);
    push_if(alloc, &mut notes, is_missing, NO_SUBSYSTEM)?;
    push_if(alloc, &mut notes, is_line(symbol), PREPROCESS)?;
    let is_unfit = is_unfit(alloc, text, at, symbol)?;
    push_if(alloc, &mut notes, is_unfit, unfit_note(before, symbol))?;
    Ok(notes)
}

/// The word of a form that is left out.
fn feature_word(feature: Feature) -> &'static str {
    match feature {
        Feature::OutOfLine => "OutOfLine",
        Feature::Polymorphic => "Polymorphic",
        Feature::Pair => "Pair",
        Feature::Real => "Real",
        Feature::OldForm => "OldForm",
        Feature::Option => "Option",
        Feature::ReplyPort => "ReplyPort",
        Feature::Nested => "Nested",
        Feature::Preprocessor => "Preprocessor",
    }
}

/// What is said of a form that is left out.
fn left_out_note(alloc: Global, feature: Feature) -> Result<String, AllocError> {
    if feature == Feature::Preprocessor {
        return String::from_str(alloc, PREPROCESS);
    }
    let word = feature_word(feature);
    format!(in alloc; "this form of MIG is not read: see MIG.md, What is left out, {word}")
}

/// The types that are known, or that there is none.
fn known_note(alloc: Global, known: &[&str]) -> Result<String, AllocError> {
    if known.is_empty() {
        return String::from_str(alloc, "no type is declared above");
    }
    let names = listed(alloc, known)?;
    format!(in alloc; "known types: {}", names.as_str())
}

/// The nearest of the known names, or else which are known.
fn near_note(alloc: Global, name: &str, known: &[&str]) -> Result<String, AllocError> {
    match nearest(alloc, name, known)? {
        Some(near) => did_you_mean(alloc, near),
        None => known_note(alloc, known),
    }
}

/// What is said of a type that is not known, by where it is declared below, whether it is left in
/// the table, and the types that are known.
fn note_by(
    alloc: Global,
    text: &str,
    below: Option<usize>,
    in_table: bool,
    name: &str,
    known: &[&str],
) -> Result<String, AllocError> {
    match below {
        Some(below) => {
            let line = line_number(text.as_bytes(), below);
            format!(in alloc; "declared below, on line {line}")
        }
        None => {
            if in_table {
                return String::from_str(alloc, "#include <mach/std_types.defs> declares it");
            }
            near_note(alloc, name, known)
        }
    }
}

/// Whether this is a type of the include line, which no line before includes.
fn is_left_in_table(name: &str, before: &[Seen<'_>]) -> bool {
    is_table_name(name) && !has_include(before)
}

/// The types that are known where this one is not.
fn known_at<'t>(
    alloc: Global,
    text: &str,
    at: usize,
    name: &str,
    before: &[Seen<'t>],
) -> Result<Vec<&'t str>, AllocError> {
    let may_be_basic = may_be(alloc, text, at, BASIC_NAME)?;
    known_names(alloc, may_be_basic, name, before)
}

/// What is said of a type that is not known.
pub(crate) fn unknown_note(
    alloc: Global,
    text: &str,
    at: usize,
    name: &str,
    before: &[Seen<'_>],
    from: &[Seen<'_>],
) -> Result<String, AllocError> {
    let below = declared_at(alloc, name, from)?;
    let in_table = is_left_in_table(name, before);
    let known = known_at(alloc, text, at, name, before)?;
    note_by(alloc, text, below, in_table, name, known.as_slice())
}

/// `SENTENCE, on line N`, if there is such a place.
pub(crate) fn on_line(
    alloc: Global,
    sentence: &str,
    text: &str,
    at: Option<usize>,
) -> Result<Vec<String>, AllocError> {
    let mut notes = Vec::new(alloc);
    if let Some(at) = at {
        let line = line_number(text.as_bytes(), at);
        notes.push(format!(in alloc; "{sentence}, on line {line}")?)?;
    }
    Ok(notes)
}

/// What is said of a second one of a name.
fn twice_notes(
    alloc: Global,
    text: &str,
    symbol: Symbol,
    name: &str,
    before: &[Seen<'_>],
) -> Result<Vec<String>, AllocError> {
    let at = given_at(alloc, symbol, name, before)?;
    on_line(alloc, "declared above", text, at)
}

fn takes_id(symbol: Symbol) -> bool {
    matches!(
        symbol,
        Symbol::Word(Word::Routine | Word::SimpleRoutine | Word::Skip)
    )
}

fn is_direction(symbol: Symbol) -> bool {
    matches!(symbol, Symbol::Word(Word::Direction(_)))
}

/// Whether a colon comes second.
fn has_colon(seen: &[Seen<'_>]) -> bool {
    match seen {
        [_, second, ..] => is_colon(second.symbol),
        _ => false,
    }
}

/// What is said of what is too long or too many.
fn too_many_note(symbol: Symbol, word: &str, from: &[Seen<'_>]) -> &'static str {
    if is_name(symbol) && word.len() > limits::NAME {
        return LONG_NAME;
    }
    if takes_id(symbol) {
        return "a subsystem has at most 100 ids";
    }
    if is_direction(symbol) || is_name(symbol) && has_colon(from) {
        return "a routine has at most 32 arguments";
    }
    "a count is from 1 to 8192, and counts of nested arrays multiply"
}

/// What is said of a fault of the grammar, other than a type that is not known.
pub(crate) fn grammar_notes(
    alloc: Global,
    text: &str,
    before: &[Seen<'_>],
    from: &[Seen<'_>],
    symbol: Symbol,
    word: &str,
    fault: ParseFault,
) -> Result<Vec<String>, AllocError> {
    match fault {
        ParseFault::Unexpected(at) => unexpected_notes(alloc, text, at, before, from, symbol),
        ParseFault::LeftOut(_, feature) => {
            let note = left_out_note(alloc, feature)?;
            one_note(alloc, note.as_str())
        }
        ParseFault::UnknownType(_) => Ok(Vec::new(alloc)),
        ParseFault::TwiceNamed(_) => twice_notes(alloc, text, symbol, word, before),
        ParseFault::NoRequestPort(_) => one_note(alloc, REQUEST_PORT),
        ParseFault::TooMany(_) => one_note(alloc, too_many_note(symbol, word, from)),
    }
}
