//! The table that a wiring means: tasks, classes and what they accept, what slots admit, and first
//! rights, by numbers and by names; and what a policy forbids in it.
#![tactic(auto)]

mod admitting;
mod births;
mod claim;
mod faults;
mod finding;
mod first_names;
mod holdings;
mod interfaces;
mod labels;
mod marks;
mod names;
mod resolving;
mod slots;
mod sorts;
mod table;
mod trusting;
mod typed;
mod wired;

pub use claim::{Claim, ForbiddenLine, forbidden};
pub use faults::{ClaimFault, ResolveFault};
pub use finding::item_of;
pub use interfaces::Interfaces;
pub use names::{ClassKind, ClassLabel, kind_word};
pub use resolving::NotResolved;
pub use table::TrustedLine;
pub use trusting::verb_number;
pub use typed::{TypedArgument, TypedForm};
pub use wired::Wired;
