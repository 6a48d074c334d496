//! Sets of facts, as rows of bits.
#![tactic(auto)]

mod facts;
mod iter;
mod joining;
pub mod limits;
mod places;
mod planes;
mod row_facts;

pub use facts::Facts;
pub use iter::Iter;
pub use joining::Row;
pub use mrc_base::Fact;
