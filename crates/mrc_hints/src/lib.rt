//! What helps to mend a text that has a fault: the place of the fault, what may be there, and what
//! may be meant.
#![tactic(auto)]

mod bytes;
mod known_names;
mod mig_hints;
mod mig_notes;
mod mig_places;
mod mig_second;
mod mig_sources;
mod mig_tokens;
mod mig_trials;
mod mig_types;
mod name_hints;
mod name_notes;
mod named;
mod script_digits;
mod script_hints;
mod script_notes;
mod script_usage;
mod script_words;
mod wide_hints;

pub use mig_hints::mig_hint;
pub use mig_places::argument_line;
pub use mig_second::second_mig_hint;
pub use mig_sources::marked_name;
pub use name_hints::{names_hint, policy_name_hint, wiring_name_hint};
pub use script_hints::script_hint;
pub use wide_hints::{
    policy_stand_hint, stand_hint, wide_line_hint, wide_name_hint, wide_policy_line_hint,
};
