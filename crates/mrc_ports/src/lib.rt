//! The ports of the machine, the spaces of its tasks, and both together.
#![tactic(auto)]

mod burying;
mod parcel;
mod port;
mod slots;
mod store;
mod table;

pub use parcel::{Items, Parcel, Queue, QueuedArgument, Ready, moving};
pub use port::Port;
pub use store::{NotAdded, Store};
pub use table::{NoSuchPort, NotQueued, PortTable, Shortage};
