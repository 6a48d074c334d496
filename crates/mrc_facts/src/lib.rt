//! Sets of facts, each as the ascending list of its facts.
#![tactic(auto)]

pub mod laws;
mod listed;

pub use listed::ListedFacts;
pub use mrc_base::Fact;
