//! The calls that a line of a script may have.

ghost use Rattle.std.specs.Prelude.{◌≡◌, ◌≤◌};
ghost use Rattle.mrc_report.specs.Table.{call_text, parameters, least, is_wait, calls, call_among};
ghost use Rattle.mrc_report.specs.Table.{call_named};

use crate::parameters::Parameter;
use mrc_wiring_text::is_word;

/// A call of a script, by the word that is written for it.
#[derive(Clone, Copy, Debug, PartialEq, Eq)]
pub enum CallName {
    /// `send`.
    Send,
    /// `allocate`.
    Allocate,
    /// `get_refs`.
    GetRefs,
    /// `insert_right`.
    InsertRight,
    /// `extract_right`.
    ExtractRight,
    /// `set_qlimit`.
    SetQlimit,
    /// `type`.
    PortType,
    /// `names`.
    Names,
    /// `rename`.
    Rename,
    /// `deallocate`.
    Deallocate,
    /// `destroy`.
    Destroy,
    /// `mod_refs`.
    ModRefs,
    /// `move_member`.
    MoveMember,
    /// `request_notification`.
    RequestNotification,
    /// `task_create`.
    TaskCreate,
    /// `task_terminate`.
    TaskTerminate,
    /// `receive`.
    Receive,
    /// `wait`.
    Wait,
}

/// The calls of scripts that tasks run as threads.
const CALLS: [CallName; 18] = [
    CallName::Send,
    CallName::Allocate,
    CallName::GetRefs,
    CallName::InsertRight,
    CallName::ExtractRight,
    CallName::SetQlimit,
    CallName::PortType,
    CallName::Names,
    CallName::Rename,
    CallName::Deallocate,
    CallName::Destroy,
    CallName::ModRefs,
    CallName::MoveMember,
    CallName::RequestNotification,
    CallName::TaskCreate,
    CallName::TaskTerminate,
    CallName::Receive,
    CallName::Wait,
];

impl CallName {
    /// The word of the call.
    pub fn text(self) -> &'static str
        ensures { result.now ≡ call_text self }
    {
        match self {
            CallName::Send => "send",
            CallName::Allocate => "allocate",
            CallName::GetRefs => "get_refs",
            CallName::InsertRight => "insert_right",
            CallName::ExtractRight => "extract_right",
            CallName::SetQlimit => "set_qlimit",
            CallName::PortType => "type",
            CallName::Names => "names",
            CallName::Rename => "rename",
            CallName::Deallocate => "deallocate",
            CallName::Destroy => "destroy",
            CallName::ModRefs => "mod_refs",
            CallName::MoveMember => "move_member",
            CallName::RequestNotification => "request_notification",
            CallName::TaskCreate => "task_create",
            CallName::TaskTerminate => "task_terminate",
            CallName::Receive => "receive",
            CallName::Wait => "wait",
        }
    }

    /// The kinds of its parameters, except HEX.
    pub fn parameters(self) -> &'static [Parameter]
        ensures { result.now ≡ parameters self }
    {
        use crate::parameters::Parameter::{Delta, Disposition, HeldRight, Number};
        match self {
            CallName::Send => &[],
            CallName::Names | CallName::TaskCreate | CallName::TaskTerminate => &[Number],
            CallName::PortType
            | CallName::Deallocate
            | CallName::Destroy
            | CallName::Receive
            | CallName::Wait => &[Number, Number],
            CallName::SetQlimit | CallName::Rename | CallName::MoveMember => {
                &[Number, Number, Number]
            }
            CallName::Allocate => &[Number, HeldRight, Number],
            CallName::GetRefs => &[Number, Number, HeldRight],
            CallName::ExtractRight => &[Number, Number, Disposition],
            CallName::InsertRight => &[Number, Number, Number, Disposition],
            CallName::ModRefs => &[Number, Number, HeldRight, Delta],
            CallName::RequestNotification => {
                &[Number, Number, Number, Number, Number, Disposition]
            }
        }
    }

    /// How many of them there have to be.
    pub fn least(self) -> usize
        ensures { result ≡ least self }
    {
        match self {
            CallName::Allocate => 2,
            _ => self.parameters().len(),
        }
    }

    /// Whether the call waits for a message.
    pub(crate) fn is_wait(self) -> bool
        ensures { result ≡ is_wait self }
    {
        matches!(self, CallName::Wait)
    }

    /// The calls of a script that tasks run as threads (`live`), or of a replay.
    pub fn all(live: bool) -> &'static [CallName]
        ensures { result.now ≡ calls live }
    {
        if live { &CALLS } else { &CALLS[..17] }
    }

    /// The call of a word.
    pub fn named(live: bool, word: &[u8]) -> Option<CallName>
        ensures { result ≡ call_named live word.now }
    {
        call_among(CallName::all(live), word)
    }
}

/// The first of these calls that has this word.
fn call_among(all: &[CallName], word: &[u8]) -> Option<CallName>
    ensures { result ≡ call_among all.now word.now }
{
    let mut rest = all;
    while let [name, others @ ..] = rest {
        if is_word(word, name.text()) {
            return Some(*name);
        }
        rest = others;
    }
    None
}
