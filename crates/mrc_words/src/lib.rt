//! The words in which rights, classes, tasks and facts are printed by the names of a wiring, and
//! the way back from them; the numbers that words spell.
#![tactic(auto)]

pub mod laws;
mod numbers;
mod printing;
mod reading;

pub use numbers::{delta_of_word, number_of_word};
pub use printing::{class_word, fact_text, right_word, task_word};
pub use reading::{fact_named, right_named};
