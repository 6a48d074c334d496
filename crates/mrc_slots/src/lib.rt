//! A wiring, with what its classes take as rows of bits.
#![tactic(auto)]

mod alike;
mod masks;
mod repliers;
mod slots;

pub use slots::Slots;
