//! Why lines have no meaning.

use thiserror::Error;

/// Why the lines of a wiring have no meaning: the first fault, by lines, and on one line by the
/// order here. Line 0 stands for the list of interfaces.
#[derive(Clone, Copy, Debug, PartialEq, Eq, Error)]
pub enum ResolveFault {
    /// The line names a task, a port or a kind of births that no earlier line has, an interface
    /// that is not there, or a type that no port argument of the interface has.
    #[error("UnknownName {0}")]
    UnknownName(u32),
    /// The line gives a name that an earlier line gave to another of its kind, or says once more
    /// what a task's births of a kind accept; or two interfaces have one name.
    #[error("TwiceNamed {0}")]
    TwiceNamed(u32),
    /// The line would make one task or one port more than a wiring may have; or there are more
    /// interfaces than it may have.
    #[error("TooMany {0}")]
    TooMany(u32),
    /// A line would give the task of this number more names than a task may have.
    #[error("TooManyNames {0}")]
    TooManyNames(u32),
    /// Two items of what the line accepts have a form with the same id.
    #[error("IdClash {0}")]
    IdClash(u32),
}

/// Why the lines of a policy have no meaning over a wiring: the first fault, by lines.
#[derive(Clone, Copy, Debug, PartialEq, Eq, Error)]
pub enum ClaimFault {
    /// The line names a task, a port or a kind of births that the wiring lacks.
    #[error("UnknownName {0}")]
    UnknownName(u32),
}
