//! Faults of a message in words, with their places.

use thiserror::Error;

/// A part of a text: the number of its first byte, from 0, and how many bytes it has.
#[derive(Clone, Copy, Debug, PartialEq, Eq)]
pub struct Place {
    /// The number of its first byte, from 0.
    pub first: usize,
    /// How many bytes it has.
    pub len: usize,
}

/// What is wrong in a message in words.
#[derive(Clone, Copy, Debug, PartialEq, Eq, Error)]
pub enum WordsFaultKind {
    /// It is no message in words: a word is missing or one too many, a bracket, a quote or a brace
    /// does not close, or a word is no `NAME=VALUE`.
    #[error("NotWords")]
    NotWords,
    /// There is no such interface, no such routine of it, or the routine has no reply.
    #[error("UnknownMessage")]
    UnknownMessage,
    /// The message has no argument of this name.
    #[error("UnknownArgument")]
    UnknownArgument,
    /// The argument was said before.
    #[error("SaidTwice")]
    SaidTwice,
    /// The value does not fit: it is no number or too large, not of its kind, of a disposition that
    /// cannot be there, without one where there are several, or of too many or too few items.
    #[error("NotAValue")]
    NotAValue,
    /// The argument of this number in the form, from 0, is not said.
    #[error("Missing {0}")]
    Missing(usize),
    /// The message has more than 8,192 bytes.
    #[error("TooLong")]
    TooLong,
}

/// The first fault of a message in words, from the left. `Missing` comes behind all others, with
/// the place of the closing brace; `TooLong` comes last, with the place of the whole message.
#[derive(Clone, Copy, Debug, PartialEq, Eq)]
pub struct WordsFault {
    /// What is wrong.
    pub kind: WordsFaultKind,
    /// The place of the word at fault.
    pub place: Place,
}
