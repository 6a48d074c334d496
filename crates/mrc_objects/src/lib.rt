//! Objects of JSON and logs of SARIF of what is answered, and lists of a system in both forms.
#![tactic(auto)]

mod common;
mod enforced;
mod expanded;
mod json;
mod json_attacks;
mod json_chains;
mod json_events;
mod json_facts;
mod json_faults;
mod json_graphs;
mod json_mends;
mod json_mig;
mod json_verdicts;
mod line_names;
mod lines;
mod mig_places;
mod promises;
mod sarif;
mod sarif_markers;
mod sarif_objects;
mod sarif_places;
mod sarif_results;
mod slots;

pub use common::{Common, common_of, unwaived};
pub use expanded::expanded_text;
pub use json::Making;
pub use json_attacks::attacks_json;
pub use json_chains::{chain_json, none_json, undrawn_json};
pub use json_events::EventObjects;
pub use json_facts::facts_json;
pub use json_faults::{FaultParts, fault_json, parts_text};
pub use json_graphs::graph_json;
pub use json_mends::mends_json;
pub use json_mig::{MigObject, mig_object, mig_texts_json, read_count, stop_word, type_name};
pub use json_verdicts::{broken_json, counts_json, is_asked, reason_json, waived_json, yes_json};
pub use line_names::LineNames;
pub use lines::TextLines;
pub use mig_places::{MigPlace, MigSource};
pub use promises::{promises_json, promises_text};
pub use sarif::{broken_sarif, fault_sarif, yes_sarif};
pub use sarif_places::Placed;
pub use slots::{slots_json, slots_text};
