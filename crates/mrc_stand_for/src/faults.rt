//! Why a line stands for no lines.

use thiserror::Error;

/// Why a wiring of version 4 does not stand for lines: the first fault, with its line.
#[derive(Clone, Copy, Debug, PartialEq, Eq, Error)]
pub enum StandFault {
    /// The line is none of the grammar: it names `other` where no task holds, or a kind above 15.
    #[error("BadLine {0}")]
    BadLine(u32),
    /// A list names what no line above declares.
    #[error("UnknownName {0}")]
    UnknownName(u32),
    /// A list stands for nothing.
    #[error("Empty {0}")]
    Empty(u32),
    /// The line adds to what a line above has closed.
    #[error("Late {0}")]
    Late(u32),
    /// A group has the name of a task or a group, a task that of a group, or a set that of a set.
    #[error("TwiceNamed {0}")]
    TwiceNamed(u32),
    /// The lines so far stand for more lines than there may be.
    #[error("TooMany {0}")]
    TooMany(u32),
}
