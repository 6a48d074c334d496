//! The forms of MIG files of edition 2 by their ids, the rows that are left out, and where in the
//! sources these stand.
#![tactic(auto)]

mod form;
mod forms;
mod laws;
mod left;
mod marks;
mod shape;
mod table;

pub use forms::{Forms, forms_of, read_forms};
pub use laws::{forms_are_found_by_ids, numbers_are_kept, rows_are_told_once, slots_are_ports};
pub use left::{Carrier, LeftOut, Unread};
pub use marks::{Source, source_of};
