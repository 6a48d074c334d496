//! Whether a text of calls breaks a line of a policy; and for each line that is broken a script
//! that does, if the chain that derives what the line forbids can be played on the machine.
#![tactic(auto)]

mod actions;
mod aims;
mod attacking;
mod calls;
mod carriers;
mod judging;
pub mod laws;
mod messages;
mod names;
mod play;
mod printing;
mod run;
mod searching;
mod shorter;
mod step;

pub use aims::Aim;
pub use attacking::{Attack, attacks};
pub use judging::is_leak;
pub use printing::{Listing, attacks_text, cut_text};
pub use searching::Progress;
