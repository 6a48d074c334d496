//! The parts of a system that can do nothing: interfaces, ports, slots and lines.
#![tactic(auto)]

mod asking;
mod dead;
mod interfaces;
mod laws;
mod parts;
mod quiet_lines;
mod slots;
mod subjects;

pub use dead::dead_parts;
pub use laws::{dead_is_dead, quiet_is_quiet};
pub use parts::{DeadLine, DeadParts, DeadSlot, IdleLine, QuietLine};
