//! What holds of the rows of MIG files of edition 2, and of whole files: they are read by a grammar
//! which does not say how one reads. Each law is the contract of a function that does nothing.
#![tactic(auto)]

mod laws;

pub use laws::{
    files_by_grammar, other_rows_are_left_out, routines_are_statements, rows_by_grammar,
    texts_by_grammar,
};
