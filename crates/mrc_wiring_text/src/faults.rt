//! Why a text has no meaning.

use thiserror::Error;

/// Why a wiring or a policy could not be read: the first fault of the text.
#[derive(Clone, Copy, Debug, PartialEq, Eq, Error)]
pub enum TextFault {
    /// The bytes are no UTF-8 text.
    #[error("NotUtf8")]
    NotUtf8,
    /// The line of this number, counted from 1, is not one of the grammar.
    #[error("BadLine {0}")]
    BadLine(u32),
    /// The first line with words names another version than 1 and 2.
    #[error("Version")]
    Version,
}
