//! The words of lines: those that are written as they are, and kinds of words.

ghost use Rattle.std.specs.Prelude.{◌≡◌, min, IfOk};
ghost use Rattle.std.specs.Option.{is_some};
ghost use Rattle.mrc_wiring_text.specs.Lexis.{decimal};
ghost use Rattle.mrc_wiring_text.specs.Names.{is_name};
ghost use Rattle.mrc_wiring_text.specs.Kinds.{kind_of};
ghost use Rattle.mrc_line_hints.specs.Ways.{keyword_text, is_slot, fits};

use mrc_base::limits::KINDS;
use mrc_wiring_text::{Name, around_dot, is_number, is_word};
use std::alloc::{AllocError, Global};

/// A word that is written as it is.
#[derive(Clone, Copy, Debug, PartialEq, Eq)]
pub(crate) enum Keyword {
    /// `wiring`.
    Wiring,
    /// `policy`.
    Policy,
    /// `task`.
    Task,
    /// `port`.
    Port,
    /// `births`.
    Births,
    /// `hold`.
    Hold,
    /// `admit`.
    Admit,
    /// `trust`.
    Trust,
    /// `replies`.
    Replies,
    /// `forbid`.
    Forbid,
    /// `receiver`.
    Receiver,
    /// `accepts`.
    Accepts,
    /// `none`.
    NoOther,
    /// `request`.
    Request,
    /// `reply`.
    Reply,
    /// `destroyed`.
    Destroyed,
    /// `,`.
    Comma,
    /// `send`.
    Send,
    /// `receive`.
    Receive,
    /// `once`.
    Once,
    /// `takes`.
    Takes,
    /// `gives`.
    Gives,
    /// `sends`.
    Sends,
    /// `fit`.
    Fit,
}

impl Keyword {
    /// The word.
    pub(crate) fn text(self) -> &'static str
        ensures { result.now ≡ keyword_text self }
    {
        match self {
            Keyword::Wiring => "wiring",
            Keyword::Policy => "policy",
            Keyword::Task => "task",
            Keyword::Port => "port",
            Keyword::Births => "births",
            Keyword::Hold => "hold",
            Keyword::Admit => "admit",
            Keyword::Trust => "trust",
            Keyword::Replies => "replies",
            Keyword::Forbid => "forbid",
            Keyword::Receiver => "receiver",
            Keyword::Accepts => "accepts",
            Keyword::NoOther => "none",
            Keyword::Request => "request",
            Keyword::Reply => "reply",
            Keyword::Destroyed => "destroyed",
            Keyword::Comma => ",",
            Keyword::Send => "send",
            Keyword::Receive => "receive",
            Keyword::Once => "once",
            Keyword::Takes => "takes",
            Keyword::Gives => "gives",
            Keyword::Sends => "sends",
            Keyword::Fit => "fit",
        }
    }
}

/// What may be next in a line: a word that is written as it is, or a kind of words.
#[derive(Clone, Copy, Debug, PartialEq, Eq)]
pub(crate) enum Part {
    /// This word.
    Fixed(Keyword),
    /// The name of a task.
    TaskName,
    /// The name of a port.
    PortName,
    /// The name of a subsystem.
    SubsystemName,
    /// The names of a subsystem and of a type in it, with a dot between them.
    SlotType,
    /// The number of a kind of births.
    KindNumber,
    /// The number of a version.
    Version,
}

/// The number that decimal digits encode, or 16 if it is less.
pub(crate) fn capped(digits: &[u8]) -> u8
    ensures { result ≡ min (decimal digits.now) 16 }
{
    let mut value = 0u8;
    for digit in digits {
        let next = u32::from(value) * 10 + u32::from(digit.saturating_sub(b'0'));
        value = next.min(16) as u8;
    }
    value
}

/// Whether a word is the number of a kind of births.
#[tactic(auto, unfolding(mrc_wiring_text::specs::Kinds::kind_of))]
fn is_kind(word: &[u8]) -> bool
    ensures { result ≡ is_some (kind_of word.now) }
{
    is_number(word) && capped(word) < KINDS
}

/// Whether a word is a name.
fn is_name(alloc: Global, word: &[u8]) -> Result<bool, AllocError>
    ensures { IfOk result (λ is. is ≡ is_name word.now) }
{
    Ok(Name::new(alloc, word)?.is_some())
}

/// Whether a word is a name, a dot and a name.
fn is_slot(alloc: Global, word: &[u8]) -> Result<bool, AllocError>
    ensures { IfOk result (λ is. is ≡ is_slot word.now) }
{
    let (subsystem, name) = around_dot(word);
    let before = is_name(alloc, subsystem)?;
    let behind = is_name(alloc, name)?;
    Ok(before && behind)
}

impl Part {
    /// Whether a word is one of the part.
    pub(crate) fn fits(self, alloc: Global, word: &[u8]) -> Result<bool, AllocError>
        ensures { IfOk result (λ is. is ≡ fits self word.now) }
    {
        match self {
            Part::Fixed(keyword) => Ok(is_word(word, keyword.text())),
            Part::TaskName | Part::PortName | Part::SubsystemName => is_name(alloc, word),
            Part::SlotType => is_slot(alloc, word),
            Part::KindNumber => Ok(is_kind(word)),
            Part::Version => Ok(is_number(word)),
        }
    }
}
