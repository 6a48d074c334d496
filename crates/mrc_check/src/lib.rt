//! Whether a certificate is accepted.
#![tactic(auto)]

mod confined;
mod demands;
mod faults;
mod texts;
mod trusted;
mod verdict;

pub use confined::{Confined, Refused, check};
pub use demands::Demand;
pub use faults::{CaseFault, PolicyFault, WiringFault};
pub use mrc_classes::RuleName;
pub use texts::{PolicyText, Stated, System, TextsFault, check_texts};
pub use trusted::first_exposed;
pub use verdict::Why;
