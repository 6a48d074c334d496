//! Why a question has no answer, as a value.

use mrc_base::OrMemory;
use mrc_check::CaseFault;
use mrc_desc::ReadFault;
use mrc_files::{Unread, WriteFault};
use mrc_interface::DefsFault;
use mrc_message_words::WordsFault;
use mrc_report::ServeFault;

/// Which word of an option can't be what it is asked to be, and why.
#[derive(Clone, Copy, Debug, PartialEq, Eq)]
pub enum WordFault {
    /// `--line`: no line has the number.
    BadLine,
    /// `--line`: the line is not broken.
    NotBroken,
    /// `--most`: so many can't be asked for.
    BadMost,
    /// `--workers`: so many threads can't be asked for.
    Workers,
    /// `--fact`: the text names no fact of the wiring.
    BadFact,
    /// `--task`: no task has the name.
    BadTask,
    /// `--class`: no class is printed so.
    BadClass,
    /// `--right`: no right is printed so.
    BadRight,
}

/// A file that did not take all its bytes, and why: how many it took and has, or that memory ran
/// out.
#[derive(Drop)]
pub struct Unwritten {
    /// The file.
    pub file: String,
    /// Why.
    pub refusal: OrMemory<WriteFault>,
}

/// A MIG file that is none as a text of edition 2, and why. The place of a fault is one of the file
/// as it was read.
#[derive(Drop)]
pub struct NoMigText<'a> {
    /// The file.
    pub file: &'a str,
    /// Why.
    pub fault: DefsFault,
}

/// Why a message can't be turned into its bytes or into words.
#[derive(Clone, Copy, Debug, PartialEq, Eq)]
pub enum MessageFault {
    /// The words say no message of the MIG files.
    Words(WordsFault),
    /// The text is no HEX.
    BadHex,
    /// The bytes are no message.
    Bytes(ReadFault),
    /// No MIG file has a message of this id and these arguments.
    NoWords,
}

/// Why a question has no answer. Out of memory is none of these.
#[derive(Drop)]
pub enum Fault<'a> {
    /// A file can't be read.
    Unread(Unread<'a>),
    /// A text has no meaning: the first of those that are read.
    Meaning(CaseFault),
    /// The word of an option can't be what it is asked to be.
    Word(WordFault),
    /// The file of a certificate did not take all its bytes.
    Unwritten(Unwritten),
    /// What is to be a MIG file of edition 2 is none: the first of those that are none.
    NoMigText(NoMigText<'a>),
    /// A MIG file has the name of an earlier one.
    SameName(&'a str),
    /// A message can't be turned.
    Message(MessageFault),
    /// A script whose tasks run as threads was not run to its end.
    Unserved(ServeFault),
}
