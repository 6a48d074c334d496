//! What the arguments of a routine mean in MIG files of edition 2: which is the request port, what
//! the bodies of the request and the reply have, and for which word a routine is left out.
#![tactic(auto)]

mod bodies;
mod carried;
mod kinds;
mod laws;
mod names;
mod objections;
mod rights;
mod roles;

pub use bodies::{Entry, Messages, messages_of};
pub use carried::carries;
pub use kinds::{Request, RoutineKind, request_of};
pub use laws::{port_by_words, unobjected_are_known};
pub use objections::{LeftOutWord, Objection, first_objection};
pub use roles::{request_port, settled};
