//! What a wiring of version 4 stands for: the lines of version 3 that its wide lines are written
//! in place of, or the first line that stands for none.
#![tactic(auto)]

mod expected;
mod faults;
mod known;
pub mod laws;
mod lists;
mod policies;
mod products;
mod several;
mod standing;
mod wide;

pub use expected::expected_classes;
pub use faults::StandFault;
pub use known::Known;
pub use lists::{Found, classes_of, tasks_of};
pub use policies::classes_forbidden;
pub use several::Several;
pub use standing::{LINES_STOOD_FOR, StandsFor, group_stands, known_of, set_stands, stand_for};
pub use wide::{Kinds, Place, RightVerb, SlotName, Tasks, Whom, WideClass, WideLine, WideSays};
