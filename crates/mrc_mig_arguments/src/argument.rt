//! An argument of a routine, as it is written.

use mrc_mig_types::Meaning;

/// The word in front of an argument.
#[derive(Clone, Copy, Debug, PartialEq, Eq)]
pub enum Role {
    /// None: the request port, or an argument of the request.
    Unmarked,
    /// `in`.
    In,
    /// `out`.
    Out,
    /// `inout`.
    InOut,
    /// `requestport`.
    RequestPort,
    /// `replyport`.
    ReplyPort,
    /// `ureplyport`.
    UserReplyPort,
    /// `sreplyport`.
    ServerReplyPort,
    /// `waittime`.
    WaitTime,
    /// `msgoption`.
    MessageOption,
    /// `msgseqno`.
    SequenceNumber,
}

/// An argument as it is written. A place is how many tokens are left there, as in a `Stop`.
#[derive(Clone, Copy, Debug)]
pub struct Argument<'t> {
    /// The word in front of it.
    pub role: Role,
    /// Its name.
    pub name: &'t str,
    /// The name of its type.
    pub type_name: &'t str,
    /// What its type means; nothing if that names a type which is not known.
    pub meaning: Option<Meaning>,
    /// Whether it asks for its count in the request: `countinout` is among its flags.
    pub counts: bool,
    /// The place of its first token.
    pub at: usize,
    /// The place of its name.
    pub name_at: usize,
    /// The place of the name of its type.
    pub type_at: usize,
}
