//! Policies of version 3: lines that name lists, and strings that name lines and give reasons.
#![tactic(auto)]

mod asked;
mod facts;
pub mod laws;
mod lines;
mod policies;
mod quotes;
mod reading;
mod rows;
mod says;
mod standing;

pub use asked::{Asked, Stance, asked_by};
pub use facts::{FactLine, NamedFact, PolicyStands, WaivedLine};
pub use policies::{PolicyRefusal, read_stands};
pub use quotes::{Quoted, STRING};
pub use reading::read_wide_policy;
pub use says::{PolicySays, Product, WidePolicyLine};
pub use standing::{FACTS, stand_policy};
