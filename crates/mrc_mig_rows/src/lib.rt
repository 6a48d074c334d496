//! The rows of MIG files of edition 2: each routine that is read, and each that is left out, with
//! the word for which it is and what it may carry.
#![tactic(auto)]

mod carried;
mod declarations;
mod ends;
mod file;
mod headings;
mod kinds;
mod laws;
mod names;
mod parts;
mod place;
mod rows;
mod words;

pub use carried::Carried;
pub use declarations::UnreadType;
pub use ends::statement_end;
pub use file::{File, read_rows};
pub use headings::Heading;
pub use kinds::{RowKind, StatementKind, statement_kind};
pub use laws::{statements_by_grammar, unread_carries};
pub use place::place_of;
pub use rows::{Content, Row};
pub use words::{RowWord, Told};
