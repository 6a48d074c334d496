//! What the grammar of MIG sees of tokens: words, signs, lines of the preprocessor, and
//! whole-number expressions.
#![tactic(auto)]

mod directive;
mod expressions;
mod fault;
mod laws;
mod outer;
mod symbol;
mod tokens;
mod word;

pub use directive::{Directive, directive_of, is_empty_line, without_blanks};
pub use expressions::expression;
pub use fault::{Feature, ParseFault, Stop, StopReason, fault_at, fault_of, place_of, stop_at};
pub use laws::expressions_by_grammar;
pub use symbol::{Rest, Symbol, name, sign};
pub use tokens::{Tokens, lex};
pub use word::{Basic, Direction, Word, basic_of, word_of};
