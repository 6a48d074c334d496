//! What is printed of answers: texts for people, and objects and logs for programs.
#![tactic(auto)]

mod answer_json;
mod answer_sarif;
mod answer_text;
mod asked;
mod dead_notices;
mod faults;
mod mig_texts;
mod notices;
mod printing;
mod reading;
mod reasons;
mod text;
mod unwritten;

pub use asked::{Asked, format_of};
pub use faults::file_of;
pub use mig_texts::{WrittenTexts, written_texts};
pub use printing::{errors, output, print_pending};
pub use unwritten::{print_unwritten, unwritten_of};
