//! Why calls are refused.

ghost use Rattle.std.specs.Prelude.{◌≡◌};
ghost use Rattle.mrc_machine.specs.Calls.{reply_of, refusal_reply, refusal_of, IsRefused};

use crate::reply::Reply;
use mrc_base::OrMemory;
use mrc_model::{Code, Denied};

/// Why a call is refused.
#[derive(Clone, Copy, Debug, Drop, PartialEq, Eq)]
pub(crate) enum Refusal {
    /// By Mach's rules.
    Refused(Code),
    /// By the filter, or by a line about a trusted task.
    Denied(Denied),
    /// The message has so many bytes, more than the limit.
    TooLarge(u32),
}

impl Refusal {
    /// The reply that tells it.
    pub(crate) fn reply(self) -> Reply
        ensures exact { reply_of result ≡ refusal_reply self }
        ensures refused { IsRefused result }
    {
        match self {
            Refusal::Refused(code) => Reply::Refused(code),
            Refusal::Denied(denied) => Reply::Denied(denied),
            Refusal::TooLarge(size) => Reply::TooLarge(size),
        }
    }
}

/// The refusal with a code, where memory did not run out.
pub(crate) fn refusal_of(fault: OrMemory<Code>) -> OrMemory<Refusal>
    ensures { result ≡ refusal_of fault }
{
    match fault {
        OrMemory::Fault(code) => OrMemory::Fault(Refusal::Refused(code)),
        OrMemory::Memory => OrMemory::Memory,
    }
}
