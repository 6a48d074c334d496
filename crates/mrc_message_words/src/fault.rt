//! Why what is said is no message.

ghost use Rattle.std.specs.Prelude.{◌≡◌};
ghost use Rattle.mrc_base.specs.declared.memory.OrMemory.TheVariants.{Fault};

use mrc_base::OrMemory;
use thiserror::Error;

/// The first reason why what is said is no message.
#[derive(Clone, Copy, Debug, PartialEq, Eq, Error)]
pub enum SpokenFault {
    /// There is no interface of the name, it has no routine of the name, or that has no reply.
    #[error("UnknownMessage")]
    UnknownMessage,
    /// A port is named with the disposition of a receive right, or a reply has a reply port.
    #[error("BadPort")]
    BadPort,
    /// The value of this place, from 0, does not fit its argument, is missing, or is one too many.
    #[error("BadValue {0}")]
    BadValue(usize),
    /// The message has more than 8,192 bytes.
    #[error("TooLong")]
    TooLong,
}

impl From<SpokenFault> for OrMemory<SpokenFault> {
    ghost from_gives = { λ fault refusal. refusal ≡ Fault fault };

    fn from(fault: SpokenFault) -> OrMemory<SpokenFault> {
        OrMemory::Fault(fault)
    }
}
