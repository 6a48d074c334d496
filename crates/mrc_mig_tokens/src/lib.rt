//! The tokens of MIG files of edition 2: what the grammar sees of them, the marks of lines beside
//! them, and the values of whole-number expressions.
#![tactic(auto)]

mod edition;
mod laws;
mod line;
mod piece;
mod rest;
mod sums;
mod symbol;
mod tokens;

pub use edition::{Edition, edition_of};
pub use laws::sums_by_grammar;
pub use line::Line;
pub use rest::{Rest, any_name, is_next, sign};
pub use sums::sum_value;
pub use symbol::Symbol;
pub use tokens::{LineMark, Tokens, lex};
