//! The program from its words and files to its status: whether a wired system of tasks can ever
//! pass a forbidden port right to a task.
#![tactic(auto)]

mod behind;
mod hints;
mod notes;
mod places;
mod progress;
mod running;

pub use mrc_answer::laws;
pub use running::{Watched, run, start};
