//! What the checker's yes means for the machine: no run from the first state of an accepted wiring
//! leads to a breach of its policy; and the machine that runs what was accepted.
#![tactic(auto)]

mod guarded;
pub mod laws;

pub use guarded::Guarded;
