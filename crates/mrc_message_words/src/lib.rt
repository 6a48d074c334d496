//! Messages in words: what is said over the forms of interfaces, and the message that it is.
#![tactic(auto)]

mod arguments;
mod fault;
mod heading;
mod hearing;
mod laws;
mod lexis;
mod naming;
mod numbers;
mod place;
mod port;
mod printing;
mod reading;
mod speaking;
mod spoken;
mod terms;
mod value;
mod words;

pub use arguments::{argument_of, value_of};
pub use fault::SpokenFault;
pub use hearing::spoken_of;
pub use laws::{is_said_in_one_way, says_one_message, spoken_is_read};
pub use place::{Place, WordsFault, WordsFaultKind};
pub use port::NamedPort;
pub use speaking::message_of;
pub use spoken::Spoken;
pub use value::{Numbers, Value};
pub use words::{decode, encode};
