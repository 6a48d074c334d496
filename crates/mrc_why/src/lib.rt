//! Why a policy is broken: the lines that are, a short chain for each, and where each step comes
//! from in the files of a system.
#![tactic(auto)]

mod answered;
mod checked;
mod derivation;
mod detours;
mod given_lines;
mod judging;
mod origins;
mod printing;
mod proposing;
mod ranks;
mod slots;
mod sources;
mod trees;

pub use answered::{are_met, is_expected, is_met, is_waived, is_waived_line, line_in, told};
pub use derivation::Derivations;
pub use detours::chain_without;
pub use judging::{Broken, Exposed, Verdict, forbidden_fact, verify};
pub use mrc_closure::{Places, Step};
pub use origins::{SlotNames, Source};
pub use printing::{
    Layout, broken_line, chain_text, exposed_line, places_text, plain_lines, source_text,
    verify_text,
};
pub use sources::Sources;
