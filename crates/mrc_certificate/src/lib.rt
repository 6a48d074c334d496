//! Certificates: what a draft claims of a wired system, as bytes.
#![tactic(auto)]

mod draft;
mod fault;
pub mod laws;
mod reading;
mod writing;

pub use draft::Draft;
pub use fault::DraftFault;
pub use reading::read_draft;
pub use writing::write_draft;
