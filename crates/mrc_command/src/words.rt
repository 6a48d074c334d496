//! The words of the command line, from the system.

ghost use Rattle.std.specs.Prelude.{◌≡◌, map, IfOk, string_bytes};
ghost use Rattle.std.specs.IoError.{error_kind};
ghost use Rattle.mrc_command.specs.CommandLine.{words_fault, words_line, spelled};

use std::alloc::{AllocError, Global};
use std::env::Env;
use std::io::ErrorKind;
use std::{env, io};

/// Why the words of the command line can't be had.
#[derive(Clone, Copy, Debug, PartialEq, Eq)]
pub enum WordsFault {
    /// One of them is not UTF-8.
    NotUtf8,
    /// There is no memory for them.
    Memory,
}

fn words_fault(error: &io::Error) -> WordsFault
    ensures { result ≡ words_fault (error_kind error.now) }
{
    match error.kind() {
        ErrorKind::InvalidData => WordsFault::NotUtf8,
        _ => WordsFault::Memory,
    }
}

/// The line of the fault for standard error.
pub fn words_line(fault: WordsFault) -> &'static [u8]
    ensures { result.now ≡ words_line fault }
{
    match fault {
        WordsFault::NotUtf8 => b"machcheck: arguments: NotUtf8\n",
        WordsFault::Memory => b"machcheck: Memory\n",
    }
}

/// A word of the system's as it is read: `--strict=rights` is an option of its own.
fn spelled(word: &str) -> &str
    ensures { result.now ≡ spelled word.now }
{
    if word == "--strict=rights" {
        "--strict-rights"
    } else {
        word
    }
}

/// Words of the system's as they are read.
fn all_spelled(alloc: Global, words: &[String]) -> Result<Vec<String>, AllocError>
    ensures { IfOk result (λ made.
        map string_bytes made.items ≡ map (λ word. spelled (string_bytes word)) words.now) }
{
    let mut made = Vec::new(alloc);
    for word in words {
        made.push(String::from_str(alloc, spelled(word.as_str()))?)?;
    }
    Ok(made)
}

/// All words, the program's own name first. `--strict=rights` is read as `--strict-rights`.
pub fn words_of<E: Env + AllocGlobal>(env: &E) -> Result<Vec<String>, WordsFault> {
    let words = match env::args(env) {
        Ok(words) => words,
        Err(error) => return Err(words_fault(&error)),
    };
    let words: Vec<String> = words.collect(env.alloc()).map_err(|_| WordsFault::Memory)?;
    all_spelled(env.alloc(), words.as_slice()).map_err(|_| WordsFault::Memory)
}
