//! Scripts of calls, run one after the other or by tasks as threads, and what the program prints of
//! their events; bytes in from readers and out to writers.
#![tactic(auto)]

mod calling;
mod calls;
mod halting;
mod outgoing;
mod parameters;
mod playing;
mod printing;
mod replaying;
mod running;
mod script;
mod serving;
mod streaming;
mod table;

pub use calling::call_text;
pub use mrc_files::{InputFault, WriteFault, read_all, read_fault, write_text};
pub use outgoing::Unprinted;
pub use parameters::{Parameter, Value, bytes_of_digits, digit_value, joined};
pub use playing::LiveFault;
pub use printing::{code_word, end_line, event_line, reply_text, waits_text};
pub use replaying::{replay, replays_are_told};
pub use running::{Stopped, run_live};
pub use script::{Script, TaskCall, read_script};
pub use serving::{NotServed, Ran, ServeFault, Served, serve};
pub use streaming::{EventPrinter, Occurrence, replay_by};
pub use table::CallName;
