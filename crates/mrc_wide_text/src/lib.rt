//! Wirings of version 4, read from bytes: lines that name lists, as they are written.
#![tactic(auto)]

mod items;
pub mod laws;
mod lines;
mod lists;
mod parts;
mod reading;
mod wirings;
mod words;

pub use lines::rights_of;
pub use lists::{Part, list_and_rest, names_of, separated, tasks_and_rest, tasks_of};
pub use parts::{FixedClass, HeldClass, RightWord};
pub use reading::read_wide_wiring;
pub use wirings::{Said, read_said};
pub use words::{free_name, is_alone};
