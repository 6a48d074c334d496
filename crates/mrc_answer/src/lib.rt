//! What machcheck answers to a question about files, as a value: the answer, what is told besides,
//! and why there is none.
#![tactic(auto)]

mod answers;
mod asking;
mod attack;
mod check;
mod demands;
mod explain;
mod facts;
mod faults;
mod files;
mod gathering;
mod given;
mod graph;
mod judging;
pub mod laws;
mod leaky_lines;
mod live;
mod make;
mod mend;
mod message;
mod mig;
mod mig_texts;
mod notices;
mod plain_lines;
mod replay;
mod replies;
mod script;
mod systems;
mod verify;
mod writing;

pub use answers::{
    Answer, Attacked, Drawing, Expanded, Explained, JudgedPolicy, Listed, MigEnd, MigText,
    MigTexts, Reply, Underived, Undrawn, Waiting, WiredScript, status_of,
};
pub use asking::{Answered, WasRead, answer};
pub use attack::attacked;
pub use check::checked;
pub use explain::explained;
pub use facts::listed;
pub use faults::{Fault, MessageFault, NoMigText, Unwritten, WordFault};
pub use files::{Files, Texts, texts_of};
pub use graph::graphed;
pub use leaky_lines::LeakyLine;
pub use live::live_served;
pub use make::made;
pub use mend::mended;
pub use message::turned;
pub use mig::{Ready, mig_files};
pub use notices::{DemandNotices, Notices, Notification};
pub use plain_lines::PlainLine;
pub use replay::replayed;
pub use systems::{expanded, promises, slots};
pub use verify::verified;
