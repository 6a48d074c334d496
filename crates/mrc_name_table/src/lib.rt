//! Distinct texts in the order in which they were added, each with its number.
#![tactic(auto)]

mod table;

pub use table::NameTable;
