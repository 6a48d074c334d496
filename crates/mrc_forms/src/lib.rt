//! The forms of a subsystem's messages, by their ids.
#![tactic(auto)]

mod form;
mod interface;
mod shape;
mod types;

pub use form::{Argument, Form, FormKind, MessageKind, Slot};
pub use interface::{Interface, REPLY, Row};
pub use mrc_model::RequestKind;
pub use shape::{Items, Shape};
pub use types::ItemTypes;
