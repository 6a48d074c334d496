//! What helps with a fault of the text of a wiring or a policy: where the word is that is wrong,
//! and which words may be in its place.
#![tactic(auto)]

mod expected;
mod heads;
mod hints;
pub mod laws;
mod notes;
mod parts;
mod walks;
mod ways;

pub use heads::Role;
pub use hints::{policy_line_hint, wiring_line_hint};
