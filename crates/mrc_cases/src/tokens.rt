//! Tokens, symbols and expressions of MIG texts.

use anyhow::{Result, bail};
use mrc_base::OrMemory;
use mrc_mig_lex::{LexFault, Sign, Token, TokenKind, next_token};
use mrc_mig_symbols::{Rest, Tokens, basic_of, expression, fault_of, lex, place_of};
use std::alloc::{AllocError, Global};
use std::fmt::Write;

fn sign_mark(sign: Sign) -> char {
    match sign {
        Sign::Semicolon => ';',
        Sign::Colon => ':',
        Sign::Comma => ',',
        Sign::Equals => '=',
        Sign::OpenParenthesis => '(',
        Sign::CloseParenthesis => ')',
        Sign::OpenBracket => '[',
        Sign::CloseBracket => ']',
        Sign::Star => '*',
        Sign::Plus => '+',
        Sign::Minus => '-',
        Sign::Slash => '/',
        Sign::Caret => '^',
        Sign::Bar => '|',
    }
}

/// A character for a token: itself for a sign, `n` for a name, `0` for a number.
fn mark(kind: TokenKind) -> char {
    match kind {
        TokenKind::Name => 'n',
        TokenKind::Number(_) => '0',
        TokenKind::Text => '"',
        TokenKind::Header => '<',
        TokenKind::Directive => '#',
        TokenKind::Sign(sign) => sign_mark(sign),
    }
}

/// The tokens of a text, with their kinds and their own texts.
fn tokens_of(alloc: Global, text: &str) -> Result<Vec<Token<'_>>, OrMemory<LexFault>> {
    let mut tokens = Vec::new(alloc);
    let mut at = 0;
    let mut fresh = true;
    for _ in 0..text.len() {
        let Some(token) = next_token(text, at, fresh)? else {
            return Ok(tokens);
        };
        at = token.end();
        fresh = false;
        tokens.push(token)?;
    }
    Ok(tokens)
}

/// A character for each token.
pub fn marks(alloc: Global, text: &str) -> Result<String> {
    let tokens = tokens_of(alloc, text)?;
    let mut marks = String::new(alloc);
    for token in &tokens {
        marks.push(mark(token.kind()))?;
    }
    Ok(marks)
}

/// A token as its mark, the bytes that it goes from and to, and its value if it is a number.
fn put_token(line: &mut String, token: &Token<'_>) -> Result<(), AllocError> {
    let mark = mark(token.kind());
    let (at, end) = (token.at(), token.end());
    match token.kind() {
        TokenKind::Number(value) => write!(line, " {mark} {at}-{end} {value};"),
        _ => write!(line, " {mark} {at}-{end};"),
    }
}

/// Each token.
pub fn tokens(alloc: Global, text: &str) -> Result<String> {
    let tokens = tokens_of(alloc, text)?;
    let mut line = String::new(alloc);
    for token in &tokens {
        put_token(&mut line, token)?;
    }
    Ok(line)
}

/// The symbols of tokens.
fn symbols_text(alloc: Global, tokens: &Tokens<'_>) -> Result<String, AllocError> {
    let mut line = String::new(alloc);
    let mut rest = Rest::new(tokens);
    for _ in 0..tokens.len() {
        write!(line, " {:?};", rest.first())?;
        rest = rest.next();
    }
    Ok(line)
}

/// Each symbol.
pub fn symbols(alloc: Global, text: &str) -> Result<String> {
    let tokens = lex(alloc, text)?;
    Ok(symbols_text(alloc, &tokens)?)
}

/// The basic type of a name, if it is one.
pub fn basic(alloc: Global, name: &str) -> Result<String> {
    Ok(format!(in alloc; "{:?}", basic_of(name))?)
}

/// The value of the expression that tokens begin with, and where it ends.
fn value_of(alloc: Global, tokens: &Tokens<'_>) -> Result<String> {
    match expression(alloc, Rest::new(tokens)) {
        Ok((value, rest)) => {
            let end = place_of(tokens, rest.len());
            Ok(format!(in alloc; "{value} to {end}")?)
        }
        Err(OrMemory::Fault(stop)) => Err(fault_of(tokens, stop).into()),
        Err(OrMemory::Memory) => bail!("Memory"),
    }
}

/// The value of an expression, and where it ends.
pub fn value(alloc: Global, text: &str) -> Result<String> {
    let tokens = lex(alloc, text)?;
    value_of(alloc, &tokens)
}
