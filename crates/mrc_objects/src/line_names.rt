//! The names of the lines of a policy, and the reasons of those that waive.

use mrc_wide_policy::{PolicyStands, Quoted};
use std::alloc::{AllocError, Global};
use std::collections::BTreeMap;

/// The names of the lines of a policy, and the reasons of those that waive.
#[derive(Drop)]
pub struct LineNames<'a> {
    names: BTreeMap<u32, &'a str>,
    reasons: BTreeMap<u32, &'a str>,
}

/// The text of a string.
fn text_of(quoted: &Quoted) -> &str {
    quoted.as_str().unwrap_or("")
}

impl<'a> LineNames<'a> {
    /// Those of the lines that a policy stands for.
    pub fn of(alloc: Global, stands: &'a PolicyStands) -> Result<LineNames<'a>, AllocError> {
        let mut names = BTreeMap::new(alloc);
        for line in stands.lines.as_slice() {
            if let Some(name) = &line.name {
                let _ = names.insert(line.number, text_of(name))?;
            }
        }
        let mut reasons = BTreeMap::new(alloc);
        for line in stands.waived.as_slice() {
            let _ = reasons.insert(line.number, text_of(&line.because))?;
        }
        Ok(LineNames { names, reasons })
    }

    /// The name of the line of this number, if it has one.
    pub fn name(&self, number: u32) -> Option<&'a str> {
        self.names.get(&number).copied()
    }

    /// The reason of the line of this number, if it waives.
    pub fn reason(&self, number: u32) -> &'a str {
        self.reasons.get(&number).copied().unwrap_or("")
    }
}
