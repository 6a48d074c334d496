//! The least closed set of facts.
#![tactic(auto)]

mod barred;
mod chains;
pub mod laws;
mod rounds;
mod workers;

pub use barred::rounds_without;
pub use chains::{Chain, Places, Rounds, Step, explain, rounds_of};
pub use rounds::make_alone;
pub use workers::{MakeFault, make};
