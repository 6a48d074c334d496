//! Names of tasks and ports.

ghost use Rattle.std.specs.Prelude.{◌≡◌, ◌↔◌, ℕ, List, IsTrue, IfOk};
ghost use Rattle.std.specs.List.{list_all};
ghost use Rattle.mrc_wiring_text.specs.Names.{is_letter, is_name_byte, is_name, name_of};

use mrc_base::Copies;
use mrc_base::limits::NAME;
use std::alloc::{AllocError, Global};
use std::marker::Model;
use std::str;

/// A name of a task or a port: a letter or `_`, then letters, digits and `_`, no more bytes
/// than a name may have.
#[derive(Debug, Drop)]
pub struct Name {
    text: String,
}

impl Model for Name {
    ghost use Rattle.std.specs.Prelude.{ℕ, List, IsTrue, string_bytes};
    ghost use Rattle.mrc_wiring_text.specs.Names.{is_name};

    ghost Value = { List ℕ };

    ghost view = { λ a. string_bytes a.text };

    ghost invariant = { λ a. IsTrue (is_name (string_bytes a.text)) };
}

fn is_letter(byte: u8) -> bool
    ensures { result ≡ is_letter byte }
{
    byte.is_ascii_alphabetic() || byte == b'_'
}

fn is_name_byte(byte: u8) -> bool
    ensures { result ≡ is_name_byte byte }
{
    byte.is_ascii_alphanumeric() || byte == b'_'
}

fn are_name_bytes(bytes: &[u8]) -> bool
    ensures { result ≡ list_all is_name_byte bytes.now }
{
    bytes.iter().all(|byte| is_name_byte(*byte))
}

#[tactic(auto, unfolding(crate::specs::Names::is_name))]
fn is_name(word: &[u8]) -> bool
    ensures { result ≡ is_name word.now }
{
    match word.split_first() {
        Some((first, others)) => {
            is_letter(*first) && others.len() < NAME && are_name_bytes(others)
        }
        None => false,
    }
}

impl Name {
    /// The name that a word spells, or `None` where it is no name.
    pub fn new(alloc: Global, word: &[u8]) -> Result<Option<Name>, AllocError>
        ensures { IfOk result (λ name. name ≡ name_of word.now) }
    {
        if !is_name(word) {
            return Ok(None);
        }
        let text = str::from_utf8(word).unwrap();
        Ok(Some(Name {
            text: String::from_str(alloc, text)?,
        }))
    }

    /// The name as a text.
    pub fn as_str(&self) -> &str
        ensures kept { IsTrue (is_name self.now) }
        ensures exact { result.now ≡ self.now }
    {
        self.text.as_str()
    }

    /// An equal name.
    pub fn copy(&self, alloc: Global) -> Result<Name, AllocError>
        ensures { IfOk result (λ copy. copy ≡ self.now) }
    {
        Ok(Name {
            text: String::from_str(alloc, self.as_str())?,
        })
    }

    /// Whether the names are equal.
    pub fn same(&self, other: &Name) -> bool
        ensures { IsTrue result ↔ (self.now ≡ other.now) }
    {
        self.text == other.text
    }
}

impl Copies for Name {
    fn copy(&self, alloc: Global) -> Result<Name, AllocError> {
        Name::copy(self, alloc)
    }

    fn same(&self, other: &Name) -> bool {
        Name::same(self, other)
    }
}
