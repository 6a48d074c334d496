//! Why bytes are no certificate.

use thiserror::Error;

/// Why a certificate could not be read: the first fault of its bytes. A place is that of a fact's
/// first byte, counted from 0.
#[derive(Clone, Copy, Debug, PartialEq, Eq, Error)]
pub enum DraftFault {
    /// The first four bytes are not `MRCC`, or there are fewer.
    #[error("Magic")]
    Magic,
    /// The version is neither 1 nor 2, or is 2 and there are no more classes of births than tasks.
    #[error("Version")]
    Version,
    /// The bytes end within the header or within a fact that it counts.
    #[error("Truncated")]
    Truncated,
    /// The fact at this place has a kind, a right, a task or a class out of its range, or is a
    /// backup whose last byte is not 0.
    #[error("BadFact {0}")]
    BadFact(usize),
    /// The fact at this place does not come after the one before it.
    #[error("NotAscending {0}")]
    NotAscending(usize),
    /// There are bytes behind the last fact.
    #[error("Trailing")]
    Trailing,
}
