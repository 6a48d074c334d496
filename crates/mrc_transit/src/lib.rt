//! Sending and receiving: what a message takes from the sender's space, and what it gives to the
//! receiver's. A plan is made first, and carried out without memory.
#![tactic(auto)]

mod arguments;
mod giving;
mod laws;
mod queueing;
mod receiving;
mod room;
mod scratch;
mod send_plan;
mod sending;
mod taking;
mod written;

pub use giving::give_item;
pub use laws::taken_is_carried;
pub use receiving::{ReceiveFault, next_size, receive};
pub use scratch::Scratch;
pub use send_plan::{SendPlan, copy_in};
pub use sending::{SendFault, SlotPlace, admit, may_item};
pub use written::{Written, WrittenRoom};
