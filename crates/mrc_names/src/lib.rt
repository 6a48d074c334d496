//! What a task has under its names: taking a right from a name, giving one, and what names show.
#![tactic(auto)]

mod changing;
mod dropping;
pub mod entry;
mod exchanging;
mod foretelling;
mod giving;
mod leaving;
mod listing;
mod moving;
mod perishing;
mod space;
mod types;

pub use dropping::Dropped;
pub use giving::Giving;
pub use leaving::Rests;
pub use listing::{Listing, NamedType, NamesRoom};
pub use space::Space;
pub use types::PortType;
