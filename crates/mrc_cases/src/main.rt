//! Reads cases from standard input, one a line, and prints a line for each: what the readers of MIG
//! texts, of messages, of certificates and of wirings say of it.
//!
//! A case is a word, `:` and a text. In the text `\n` is a line feed, `\r` a carriage return, `\0`
//! the character 0, and `\` before any other character is that character. `\{N:text}` is N times
//! the text, and an `@` in it is the number of the time, from 0.
//!
//! - `marks`: a character for each token of a MIG text
//! - `tokens`: each token of a MIG text, with its bytes from and to
//! - `symbols`: each symbol of a MIG text
//! - `basic`: the basic type of a name
//! - `value`: the value of an expression, and where the first token stands that is behind it
//! - `edition`: the edition of a MIG text
//! - `tokens2`, `places2`, `value2`, `types2`: of a MIG text as one of the second edition, each
//! token
//!   with its place and its text, and behind them the marks of lines; the file and the line of each
//! token; the value of an expression and how many tokens are behind it; each type that is declared
//!   with its numbers, bits, count and alignment, and what an argument of it is by what is sent, by
//!   what is received, and with each number that gives what is received
//! - `forms`: the table of forms of a MIG file
//! - `forms2`: the table of forms of a MIG text as one of the second edition; among them the rows
//!   that are left out, with their words and what they may carry, and behind them the types that are
//!   not read
//! - `names`: the forms of a MIG file by the names of their routines, with those of their arguments
//! - `defs`: a list of MIG files, in hexadecimal digits with `,` between them: their names
//! - `disposition`: what a number of MIG's port types needs of a sender and gives a receiver
//! - `message`: in hexadecimal digits, what a message is written as that was read
//! - `judge`: a class, a message, ports for its slots, a wiring and MIG texts, with `|` between
//!   these five and `&` between MIG texts: the form that the message meets, and whether its slots
//!   admit the ports
//! - `certificate`: in hexadecimal digits, what a certificate is written as that was read
//! - `wiring`, `policy`: each line by its number and what it says; `wiring_bytes`, `policy_bytes`:
//!   the same, of hexadecimal digits
//! - `name`: the name that a word spells, and its copy
//! - `resolved`: a question, MIG texts with `&` between them, a wiring, and of what it is asked,
//!   with `|` between them: the answer
//! - `prefixes`, a blank and one of these words: the fault of each prefix of the part that has `~`
//!   before it and behind it, or `ok`, each with the numbers of bytes for which it comes
//!
//! Any other line is printed as it is.
#![tactic(auto)]

mod answers;
mod certificates;
mod claims;
mod escapes;
mod forms;
mod judging;
mod messages;
mod numbers;
mod policies;
mod prefixes;
mod repeats;
mod resolved;
mod rows;
mod samples;
mod systems;
mod tokens;
mod wide;
mod wirings;

use anyhow::Result;
use messages::bytes_of;
use std::alloc::{AllocError, Global};
use std::io;

/// What is said of a text by the word of its case, or its fault as an error; `other` if there is no
/// such word.
fn answer(alloc: Global, kind: &str, text: &str, other: &str) -> Result<String> {
    match kind {
        "marks" => tokens::marks(alloc, text),
        "tokens" => tokens::tokens(alloc, text),
        "symbols" => tokens::symbols(alloc, text),
        "basic" => tokens::basic(alloc, text),
        "value" => tokens::value(alloc, text),
        "edition" => wide::edition(alloc, text),
        "tokens2" => wide::tokens(alloc, text),
        "places2" => wide::places(alloc, text),
        "value2" => wide::value(alloc, text),
        "types2" => wide::types(alloc, text),
        "forms" => forms::forms(alloc, text.as_bytes()),
        "forms2" => rows::forms(alloc, text),
        "names" => forms::names(alloc, text.as_bytes()),
        "defs" => forms::defs(alloc, text),
        "disposition" => numbers::disposition(alloc, text),
        "judge" => judging::judged(alloc, text),
        "message" => messages::written(alloc, text),
        "certificate" => certificates::written(alloc, text),
        "wiring" => wirings::wiring(alloc, text.as_bytes()),
        "wiring_bytes" => wirings::wiring(alloc, bytes_of(alloc, text)?.as_slice()),
        "policy" => policies::policy(alloc, text.as_bytes()),
        "policy_bytes" => policies::policy(alloc, bytes_of(alloc, text)?.as_slice()),
        "name" => policies::name(alloc, text),
        "resolved" => resolved::resolved(alloc, text),
        _ => Ok(String::from_str(alloc, other)?),
    }
}

/// The same, with the fault as it is printed.
fn told(alloc: Global, kind: &str, text: &str, other: &str) -> Result<String, AllocError> {
    match answer(alloc, kind, text, other) {
        Ok(text) => Ok(text),
        Err(fault) => fault.to_string(alloc),
    }
}

/// What is said of a line.
fn said(alloc: Global, line: &str) -> Result<String, AllocError> {
    let Some((kind, text)) = line.split_once(':') else {
        return String::from_str(alloc, line);
    };
    let text = repeats::expanded(alloc, text)?;
    let text = escapes::unescaped(alloc, text.as_str())?;
    match kind.strip_prefix("prefixes ") {
        Some(kind) => prefixes::prefixes(alloc, kind, text.as_str()),
        None => told(alloc, kind, text.as_str(), line),
    }
}

fn main(rt: HostRuntime) -> Result<()> {
    let alloc = rt.alloc();
    let text = io::read_to_string(alloc, rt.stdin())?;
    for line in text.as_str().lines() {
        println!(rt; "{}", said(alloc, line)?)?;
    }
    Ok(())
}
