//! Maps from numbers, whose value is the definitions' map: spaces, tables of ports and tasks are
//! such maps. And sets of ports.
#![tactic(auto)]

mod lookup;
mod map;
mod ports;
mod roomy;
mod tree;

pub use lookup::Lookup;
pub use map::Map;
pub use ports::Ports;
pub use roomy::Roomy;
pub use tree::Tree;
