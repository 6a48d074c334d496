//! The types of MIG files of edition 2: what a type means, how it is written, and what an argument
//! of it is in a message.
#![tactic(auto)]

mod basics;
mod laws;
mod layers;
mod layout;
mod meaning;
mod shapes;
mod structs;
mod table;
mod types;

pub use basics::flags;
pub use laws::specs_by_grammar;
pub use meaning::{Count, Meaning, Tag};
pub use shapes::{By, Rights, Shape, rights_of, shape_of};
pub use table::Types;
pub use types::spec;
