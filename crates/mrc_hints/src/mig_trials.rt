//! Which tokens may be at a place of a file.

use mrc_base::OrMemory;
use mrc_mig_lex::LexFault;
use mrc_mig_parse::parse;
use mrc_mig_symbols::{ParseFault, Tokens, lex};
use std::alloc::{AllocError, Global};
use std::str;

/// A text of more bytes is not tried.
const LIMIT_OF_TRIES: usize = 1_048_576;

/// The words that MIG reserves, each with how it is shown.
const RESERVED_WORDS: [(&str, &str); 43] = [
    ("subsystem", "subsystem"),
    ("kernelserver", "kernelserver"),
    ("kerneluser", "kerneluser"),
    ("type", "type"),
    ("routine", "routine"),
    ("simpleroutine", "simpleroutine"),
    ("skip", "skip"),
    ("import", "import"),
    ("uimport", "uimport"),
    ("simport", "simport"),
    ("serverprefix", "serverprefix"),
    ("userprefix", "userprefix"),
    ("rcsid", "rcsid"),
    ("in", "in"),
    ("out", "out"),
    ("inout", "inout"),
    ("requestport", "requestport"),
    ("replyport", "replyport"),
    ("ctype", "ctype"),
    ("cusertype", "cusertype"),
    ("cservertype", "cservertype"),
    ("intran", "intran"),
    ("outtran", "outtran"),
    ("destructor", "destructor"),
    ("array", "array"),
    ("struct", "struct"),
    ("of", "of"),
    ("c_string", "c_string"),
    ("procedure", "procedure"),
    ("simpleprocedure", "simpleprocedure"),
    ("function", "function"),
    ("operation", "operation"),
    ("waittime", "waittime"),
    ("msgoption", "msgoption"),
    ("msgseqno", "msgseqno"),
    ("ureplyport", "ureplyport"),
    ("sreplyport", "sreplyport"),
    ("islong", "islong"),
    ("isnotlong", "isnotlong"),
    ("servercopy", "servercopy"),
    ("countinout", "countinout"),
    ("dealloc", "dealloc"),
    ("polymorphic", "polymorphic"),
];

/// Strings and signs, each with how it is shown.
const OTHERS: [(&str, &str); 16] = [
    ("\"x\"", "a string"),
    ("<x>", "<..>"),
    ("=", "\"=\""),
    (":", "\":\""),
    (",", "\",\""),
    ("(", "\"(\""),
    (")", "\")\""),
    ("[", "\"[\""),
    ("]", "\"]\""),
    ("*", "\"*\""),
    ("+", "\"+\""),
    ("-", "\"-\""),
    ("/", "\"/\""),
    ("^", "\"^\""),
    ("|", "\"|\""),
    (";", "\";\""),
];

/// A name that is used for nothing.
pub(crate) const NEW_NAME: &str = "any_other_name";

/// Numbers, which are also sizes and counts.
const NUMBERS: [&str; 10] = ["32", "1", "2", "3", "4", "5", "6", "7", "8", "0"];

/// A name of a basic type.
pub(crate) const BASIC_NAME: &str = "MACH_MSG_TYPE_BOOLEAN";

/// Where a fault of the tokens is.
pub(crate) fn lex_place(fault: LexFault) -> usize {
    match fault {
        LexFault::BadCharacter(at) | LexFault::OpenComment(at) | LexFault::NumberTooLarge(at) => at,
    }
}

/// Where a fault of the grammar is.
pub(crate) fn parse_place(fault: ParseFault) -> usize {
    match fault {
        ParseFault::Unexpected(at)
        | ParseFault::LeftOut(at, _)
        | ParseFault::UnknownType(at)
        | ParseFault::TwiceNamed(at)
        | ParseFault::NoRequestPort(at)
        | ParseFault::TooMany(at) => at,
    }
}

/// Where the first fault of tokens is, if they have one.
fn place_in(alloc: Global, tokens: &Tokens<'_>) -> Result<Option<usize>, AllocError> {
    match parse(alloc, tokens) {
        Ok(_) => Ok(None),
        Err(OrMemory::Fault(fault)) => Ok(Some(parse_place(fault))),
        Err(OrMemory::Memory) => Err(AllocError),
    }
}

/// Where the first fault of a text is, if it has one.
fn first_fault(alloc: Global, text: &str) -> Result<Option<usize>, AllocError> {
    match lex(alloc, text) {
        Ok(tokens) => place_in(alloc, &tokens),
        Err(OrMemory::Fault(fault)) => Ok(Some(lex_place(fault))),
        Err(OrMemory::Memory) => Err(AllocError),
    }
}

/// Whether there is no fault, or it is behind the byte that follows this place.
fn is_behind(at: usize, place: Option<usize>) -> bool {
    match place {
        None => true,
        Some(place) => place.saturating_sub(at) > 1,
    }
}

/// The text up to a place, and a token on the next line.
fn written(alloc: Global, text: &str, at: usize, token: &str) -> Result<Vec<u8>, AllocError> {
    let mut bytes = Vec::new(alloc);
    let text = text.as_bytes();
    bytes.extend_from_slice(&text[..at.min(text.len())])?;
    bytes.push(b'\n')?;
    bytes.extend_from_slice(token.as_bytes())?;
    Ok(bytes)
}

/// Whether these bytes are a text without a fault up to the byte that follows a place.
fn is_faultless(alloc: Global, at: usize, bytes: &[u8]) -> Result<bool, AllocError> {
    match str::from_utf8(bytes) {
        Ok(text) => Ok(is_behind(at, first_fault(alloc, text)?)),
        Err(_) => Ok(false),
    }
}

/// Whether the token may be at a place.
pub(crate) fn may_be(
    alloc: Global,
    text: &str,
    at: usize,
    token: &str,
) -> Result<bool, AllocError> {
    let bytes = written(alloc, text, at, token)?;
    is_faultless(alloc, at, bytes.as_slice())
}

/// Those of the candidates that may be at a place, as they are shown, behind others.
fn push_shown<'s>(
    alloc: Global,
    text: &str,
    at: usize,
    candidates: &[(&'s str, &'s str)],
    shown: &mut Vec<&'s str>,
) -> Result<(), AllocError> {
    for (token, word) in candidates {
        if may_be(alloc, text, at, token)? {
            shown.push(*word)?;
        }
    }
    Ok(())
}

/// Whether one of these may be at a place.
fn any_may_be(alloc: Global, text: &str, at: usize, tokens: &[&str]) -> Result<bool, AllocError> {
    for token in tokens {
        if may_be(alloc, text, at, token)? {
            return Ok(true);
        }
    }
    Ok(false)
}

/// What a name may be at a place.
fn name_shown(
    alloc: Global,
    text: &str,
    at: usize,
    types: &[&str],
) -> Result<Option<&'static str>, AllocError> {
    if may_be(alloc, text, at, NEW_NAME)? {
        return Ok(Some("a name"));
    }
    if any_may_be(alloc, text, at, &["int", BASIC_NAME])? || any_may_be(alloc, text, at, types)? {
        return Ok(Some("the name of a type"));
    }
    Ok(None)
}

/// Whether a number may be at a place.
pub(crate) fn may_be_number(alloc: Global, text: &str, at: usize) -> Result<bool, AllocError> {
    any_may_be(alloc, text, at, &NUMBERS)
}

/// All that may be at a place, as it is shown.
pub(crate) fn expected(
    alloc: Global,
    text: &str,
    at: usize,
    types: &[&str],
) -> Result<Vec<&'static str>, AllocError> {
    let mut shown = Vec::new(alloc);
    if at > LIMIT_OF_TRIES {
        return Ok(shown);
    }
    push_shown(alloc, text, at, &RESERVED_WORDS, &mut shown)?;
    if let Some(word) = name_shown(alloc, text, at, types)? {
        shown.push(word)?;
    }
    if may_be_number(alloc, text, at)? {
        shown.push("a number")?;
    }
    push_shown(alloc, text, at, &OTHERS, &mut shown)?;
    Ok(shown)
}
