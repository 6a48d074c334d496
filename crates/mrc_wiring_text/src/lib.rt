//! The texts that name a system: the wiring, which says what tasks there are and what they hold at
//! first, and the policy, which says what they must never hold. Read line by line, as bytes.
#![tactic(auto)]

mod faults;
mod items;
mod kinds;
pub mod laws;
mod lexis;
mod names;
mod policy;
mod reading;
mod trust;
mod wiring;

pub use faults::TextFault;
pub use items::{Item, Items, table_item};
pub use kinds::{Kind, capped, is_number, kind_of};
pub use lexis::{around_dot, between_blanks, first_line, is_word, lines_of, nth_line, spaced};
pub use names::Name;
pub use policy::{ClassName, Forbid, PolicyLine, read_policy, right_of};
pub use reading::{Edition, Line, Statement, body, utf8_text};
pub use trust::{TrustVerb, TrustedRight, verb_of};
pub use wiring::{HeldRight, WiringLine, WiringSays, read_wiring, wiring_edition};
