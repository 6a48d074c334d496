//! The death of ports: which die with what a call destroys, and what follows from it.
#![tactic(auto)]

mod doomed;
mod going;
mod heads;
mod notices;
mod plan;
mod planning;
mod removal;
mod search;
mod taking;

pub use doomed::{Doomed, Held};
pub use plan::Dying;
pub use planning::dying;
pub use search::{Deaths, find_deaths};
pub use taking::Destroyed;
