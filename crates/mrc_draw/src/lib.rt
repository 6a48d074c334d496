//! Facts as lists and as drawings: those of a set that are asked for, a line for each, and all of
//! them as a text of graphviz's language DOT.
#![tactic(auto)]

mod choosing;
mod dot;
mod drawing;
mod filter;
mod nodes;
mod sets;

pub use choosing::drawn_facts;
pub use dot::graph_text;
pub use filter::{Filter, FilterFault, facts_text, filter_of};
pub use sets::set_of;
