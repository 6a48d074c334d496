//! The arguments of routines in MIG files of edition 2: how each is written.
#![tactic(auto)]

mod argument;
mod laws;
mod option;
mod reading;
mod words;

pub use argument::{Argument, Role};
pub use laws::{arguments_by_grammar, options_by_grammar};
pub use option::options;
pub use reading::one_argument;
