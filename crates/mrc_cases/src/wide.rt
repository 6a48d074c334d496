//! Tokens and types of MIG texts of the second edition.

use anyhow::{Result, bail};
use mrc_base::OrMemory;
use mrc_mig_forms::source_of;
use mrc_mig_lex::{LexFault, Sign};
use mrc_mig_symbols::{Stop, Word};
use mrc_mig_tokens::{Edition, Rest, Symbol, Tokens, any_name, edition_of, lex, sign, sum_value};
use mrc_mig_types::{By, Count, Meaning, Rights, Shape, Tag, Types, shape_of, spec};
use std::alloc::{AllocError, Global};
use std::fmt::Write;

/// The tokens of a text.
pub(crate) fn lexed(alloc: Global, text: &str) -> Result<Tokens<'_>> {
    match lex(alloc, text) {
        Ok(tokens) => Ok(tokens),
        Err(OrMemory::Fault(LexFault::OpenComment(at))) => bail!("OpenComment {at}"),
        Err(_) => bail!("Memory"),
    }
}

/// Which edition a text is of.
pub(crate) fn edition(alloc: Global, text: &str) -> Result<String> {
    let word = match edition_of(text) {
        Edition::First => "1",
        Edition::Second => "2",
        Edition::Received => "2 received",
    };
    Ok(String::from_str(alloc, word)?)
}

fn symbol_word(symbol: Symbol) -> &'static str {
    match symbol {
        Symbol::Word(_) => "word",
        Symbol::Name => "name",
        Symbol::Number(_) => "number",
        Symbol::Text => "text",
        Symbol::Header => "header",
        Symbol::Sign(_) => "sign",
        Symbol::OpenBrace => "{",
        Symbol::CloseBrace => "}",
        Symbol::Include => "include",
        Symbol::Line => "line",
        Symbol::Stray => "stray",
        Symbol::End => "end",
    }
}

/// Each token with its place and its text.
fn put_tokens(out: &mut String, tokens: &Tokens<'_>) -> Result<(), AllocError> {
    let mut rest = Rest::new(tokens);
    let count = rest.len();
    for number in 0..count {
        let at = tokens.at(number);
        write!(out, "{} {at} {}; ", symbol_word(rest.first()), rest.text())?;
        rest = rest.next();
    }
    Ok(())
}

/// The tokens of a text, and behind them its marks of lines.
pub(crate) fn tokens(alloc: Global, text: &str) -> Result<String> {
    let tokens = lexed(alloc, text)?;
    let mut out = String::new(alloc);
    put_tokens(&mut out, &tokens)?;
    for mark in tokens.lines() {
        write!(out, "mark {} {}; ", mark.at, mark.end)?;
    }
    Ok(out)
}

/// The file and the line of each token.
pub(crate) fn places(alloc: Global, text: &str) -> Result<String> {
    let tokens = lexed(alloc, text)?;
    let mut out = String::new(alloc);
    let count = tokens.len();
    for number in 0..count {
        let source = source_of(text, tokens.lines(), tokens.at(number));
        let name = source.file.unwrap_or(&[]);
        match std::str::from_utf8(name) {
            Ok(file) if !file.is_empty() => write!(out, "{file}:{} ", source.line)?,
            _ => write!(out, "{} ", source.line)?,
        }
    }
    Ok(out)
}

/// The value of an expression, and how many tokens are behind it.
pub(crate) fn value(alloc: Global, text: &str) -> Result<String> {
    let tokens = lexed(alloc, text)?;
    match sum_value(alloc, Rest::new(&tokens)) {
        Ok((Some(value), rest)) => Ok(format!(in alloc; "{value} before {}", rest.len())?),
        Ok((None, rest)) => Ok(format!(in alloc; "none before {}", rest.len())?),
        Err(OrMemory::Fault(stop)) => Ok(format!(in alloc; "stops before {}", stop.left)?),
        Err(OrMemory::Memory) => bail!("Memory"),
    }
}

fn put_tag(out: &mut String, tag: Tag) -> Result<(), AllocError> {
    match tag {
        Tag::Picked => write!(out, "?"),
        Tag::Fixed(number) => write!(out, "{number}"),
    }
}

fn put_count(out: &mut String, count: Count) -> Result<(), AllocError> {
    match count {
        Count::Exactly(number) => write!(out, "{number}"),
        Count::AtMost(number) => write!(out, "{number}*"),
        Count::Either => write!(out, "either"),
        Count::Away => write!(out, "away"),
    }
}

fn put_rights(out: &mut String, rights: Rights) -> Result<(), AllocError> {
    match rights {
        Rights::Nothing => write!(out, "none"),
        Rights::Only(number) => write!(out, "{number}"),
        Rights::Send => write!(out, "17+19+20"),
        Rights::SendOnce => write!(out, "18+21"),
        Rights::Any => write!(out, "0-21"),
    }
}

fn put_shape(out: &mut String, shape: Shape) -> Result<(), AllocError> {
    let (bits, count, is_bound) = match shape {
        Shape::AnyData => return write!(out, "any"),
        Shape::Data {
            number,
            bits,
            count,
            is_bound,
        } => {
            write!(out, "{number}")?;
            (bits, count, is_bound)
        }
        Shape::Slot {
            rights,
            count,
            is_bound,
        } => {
            put_rights(out, rights)?;
            (32, count, is_bound)
        }
    };
    let star = if is_bound { "*" } else { "" };
    write!(out, "/{bits}/{count}{star}")
}

/// A type: its numbers, bits, count and alignment, and its shapes by what is sent, by what is
/// received, and with each number that gives what is received.
fn put_meaning(out: &mut String, meaning: Option<Meaning>) -> Result<(), AllocError> {
    let Some(meaning) = meaning else {
        return write!(out, "unknown");
    };
    put_tag(out, meaning.sent)?;
    write!(out, "|")?;
    put_tag(out, meaning.received)?;
    write!(out, "/{}/", meaning.bits)?;
    put_count(out, meaning.count)?;
    write!(out, "/{} ", meaning.alignment)?;
    put_shape(out, shape_of(meaning, By::Sent))?;
    write!(out, " ")?;
    put_shape(out, shape_of(meaning, By::Received))?;
    write!(out, " ")?;
    put_shape(out, shape_of(meaning, By::Picked))
}

/// What is left behind the end of the first statement.
fn behind_statement(rest: Rest<'_>) -> Rest<'_> {
    let mut rest = rest;
    let mut depth = 0u64;
    let count = rest.len();
    for _ in 0..count {
        let symbol = rest.first();
        rest = rest.next();
        match symbol {
            Symbol::Sign(Sign::OpenParenthesis) | Symbol::OpenBrace => {
                depth = depth.saturating_add(1);
            }
            Symbol::Sign(Sign::CloseParenthesis) | Symbol::CloseBrace => {
                depth = depth.saturating_sub(1);
            }
            Symbol::Sign(Sign::Semicolon) if depth == 0 => return rest,
            _ => {}
        }
    }
    rest
}

/// The name and the meaning of a declaration from behind its word.
fn declaration<'t>(
    alloc: Global,
    types: &Types<'t>,
    rest: Rest<'t>,
) -> Result<(&'t str, Option<Meaning>, Rest<'t>), OrMemory<Stop>> {
    let (name, rest) = any_name(rest)?;
    let rest = sign(rest, Sign::Equals)?;
    let (meaning, rest) = spec(alloc, types, rest)?;
    Ok((name, meaning, rest))
}

/// Reads a declaration, and says what it declares.
fn put_type<'t>(
    alloc: Global,
    out: &mut String,
    types: &mut Types<'t>,
    rest: Rest<'t>,
) -> Result<(), AllocError> {
    match declaration(alloc, types, rest) {
        Ok((name, meaning, _)) => {
            write!(out, "{name} ")?;
            put_meaning(out, meaning)?;
            types.declare(name, meaning)?;
        }
        Err(OrMemory::Fault(stop)) => {
            write!(out, "{} stops before {}", rest.text(), stop.left)?;
            types.declare(rest.text(), None)?;
        }
        Err(OrMemory::Memory) => write!(out, "Memory")?,
    }
    write!(out, "; ")
}

/// The types that a text declares.
pub(crate) fn types(alloc: Global, text: &str) -> Result<String> {
    let tokens = lexed(alloc, text)?;
    let mut out = String::new(alloc);
    let mut types = Types::new(alloc);
    let mut rest = Rest::new(&tokens);
    let count = rest.len();
    for _ in 0..count {
        match rest.first() {
            Symbol::End => return Ok(out),
            Symbol::Include => {
                types.include();
                rest = rest.next();
            }
            Symbol::Word(Word::Type) => {
                put_type(alloc, &mut out, &mut types, rest.next())?;
                rest = behind_statement(rest);
            }
            _ => rest = behind_statement(rest),
        }
    }
    Ok(out)
}
