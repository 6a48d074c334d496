//! What a task has under its names, with an index from each port to its names.
#![tactic(auto)]

pub mod entry;
mod giving;
mod names;
mod pairs;
mod perishing;
mod replacing;
mod sets;

pub use names::Names;
