//! The filter: which messages a class of ports accepts, and which ports a slot of a message may
//! carry.
#![tactic(auto)]

mod admit;
mod form;
mod judging;
mod laws;
mod meeting;

pub use admit::admit_port;
pub use form::AcceptedForm;
pub use judging::judge;
pub use laws::{admitting_is_sending, judging_is_meeting};
