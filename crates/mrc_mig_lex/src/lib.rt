//! The tokens of a MIG subsystem text: what a parser reads in place of characters.
#![tactic(auto)]

mod fault;
mod lexer;
mod piece;
mod token;

pub use fault::LexFault;
pub use lexer::next_token;
pub use piece::{Piece, piece_at};
pub use token::{Sign, Token, TokenKind};
