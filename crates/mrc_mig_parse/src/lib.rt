//! A MIG subsystem from its tokens.
#![tactic(auto)]

mod arguments;
mod file;
mod laws;
mod options;
mod subsystem;
mod table;
mod types;

pub use file::parse;
pub use laws::files_by_grammar;
pub use mrc_mig_symbols::{Direction, Feature, ParseFault};
pub use subsystem::{Argument, Entry, Subsystem};
