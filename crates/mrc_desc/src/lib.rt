//! Messages, the bytes that they are written as, and reading them again.
#![tactic(auto)]

mod argument;
mod fault;
mod laws;
mod lists;
mod message;
mod reading;
mod writing;

pub use argument::{Argument, Desc};
pub use fault::ReadFault;
pub use laws::{other_ports_fit, reading_is_by_spelling, spells_one_message, written_is_read};
pub use lists::{Bytes, Names};
pub use message::{Arguments, Header, Message, Unlawful};
pub use reading::read_message;
pub use writing::{write_message, written_size};
