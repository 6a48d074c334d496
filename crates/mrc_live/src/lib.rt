//! The server of task threads: one locked machine with a journal, and a seat for each thread.
#![tactic(auto)]

mod desk;
mod event;
mod finishing;
mod live;
mod office;
mod seat;

pub use desk::{Desk, NotReceived, NotSeated, NotTaken};
pub use event::{Event, Journal, Made};
pub use finishing::FinishFault;
pub use live::{Live, NotOpened, Unfinished, Unlocked};
pub use seat::Seat;
