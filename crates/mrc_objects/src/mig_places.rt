//! Where in the sources the statements of a MIG file of edition 2 are, and their tokens.

use mrc_base::OrMemory;
use mrc_hints::marked_name;
use mrc_mig_forms::{Source, source_of};
use mrc_mig_tokens::{Tokens, lex};
use std::alloc::{AllocError, Global};
use std::str;

/// A place of a MIG file that is told.
#[derive(Drop)]
pub struct MigPlace<'a> {
    /// The file from which its statement came.
    pub file: String,
    /// The line there of the statement's first word, from 1.
    pub line: u64,
    /// The token at which it is told; nothing at the end of the text.
    pub text: &'a str,
}

/// A MIG file of edition 2.
#[derive(Drop)]
pub struct MigSource<'a> {
    name: &'a str,
    text: &'a str,
    /// How many lines of the text stand in front of the file's own.
    front: u64,
    tokens: Option<Tokens<'a>>,
}

/// The name of the file of a place: that of a mark before it, or that of the text.
fn source_name(alloc: Global, source: Source<'_>, name: &str) -> Result<String, AllocError> {
    match marked_name(alloc, source)? {
        Some(marked) => Ok(marked),
        None => String::from_str(alloc, name),
    }
}

/// The tokens of a text, if it is made of tokens.
fn tokens_in(alloc: Global, text: &str) -> Result<Option<Tokens<'_>>, AllocError> {
    match lex(alloc, text) {
        Ok(tokens) => Ok(Some(tokens)),
        Err(OrMemory::Fault(_)) => Ok(None),
        Err(OrMemory::Memory) => Err(AllocError),
    }
}

impl<'a> MigSource<'a> {
    /// The file of this name with these bytes, so many of which stand in front of its own.
    pub fn new(
        alloc: Global,
        name: &'a str,
        bytes: &'a [u8],
        front: usize,
    ) -> Result<MigSource<'a>, AllocError> {
        let text = str::from_utf8(bytes).unwrap_or("");
        let added = bytes.get(..front).unwrap_or(&[]);
        Ok(MigSource {
            name,
            text,
            front: added.iter().filter(|byte| **byte == b'\n').count() as u64,
            tokens: tokens_in(alloc, text)?,
        })
    }

    /// The line of a place in the file from which it came. Before the first mark of lines that is
    /// the text's own, without what stands in front.
    fn line_of(&self, tokens: &Tokens<'_>, source: Source<'_>, begin: usize) -> u64 {
        let is_marked = tokens.lines().iter().any(|mark| mark.at < begin);
        if is_marked {
            source.line
        } else {
            source.line.saturating_sub(self.front)
        }
    }

    /// The place of a statement at which so many tokens are left, and the token at which it is
    /// told, where so many are.
    pub fn place(&self, alloc: Global, at: usize, stop: usize) -> Result<MigPlace<'a>, AllocError> {
        let Some(tokens) = &self.tokens else {
            return Ok(MigPlace {
                file: String::from_str(alloc, self.name)?,
                line: 0,
                text: "",
            });
        };
        let begin = tokens.at(tokens.len().saturating_sub(at));
        let source = source_of(self.text, tokens.lines(), begin);
        Ok(MigPlace {
            file: source_name(alloc, source, self.name)?,
            line: self.line_of(tokens, source, begin),
            text: tokens.text(tokens.len().saturating_sub(stop)),
        })
    }
}
