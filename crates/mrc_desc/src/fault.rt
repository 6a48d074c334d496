//! Why bytes could not be read as a message.

ghost use Rattle.std.specs.Prelude.{◌≡◌};
ghost use Rattle.mrc_base.specs.declared.memory.OrMemory.TheVariants.{Fault};

use mrc_base::OrMemory;
use thiserror::Error;

/// The first fault of bytes that are no message. A fault of a descriptor names the descriptor's
/// first byte, counted from 0 at the message's first byte.
#[derive(Clone, Copy, Debug, PartialEq, Eq, Error)]
pub enum ReadFault {
    /// There are fewer than 24 bytes.
    #[error("TooShort")]
    TooShort,
    /// There are more than 8,192 bytes.
    #[error("TooLong")]
    TooLong,
    /// The remote disposition is not 17 to 21, or the local one is neither 0 nor 17 to 21, or it is
    /// 0 and the local port is not.
    #[error("BadHeaderDisp")]
    BadHeaderDisp,
    /// The deallocate or the unused bit is set, the size is 0 or no multiple of 8, the name is
    /// above 21, or it is a disposition and the size is not 32.
    #[error("BadDesc {0}")]
    BadDesc(usize),
    /// The inline bit is not set.
    #[error("OutOfLine {0}")]
    OutOfLine(usize),
    /// The descriptor, or its data with their padding, passes the end.
    #[error("Truncated {0}")]
    Truncated(usize),
    /// The complex bit is set where no descriptor's name is a disposition, or not set where one is.
    #[error("ComplexDiffers")]
    ComplexDiffers,
}

impl From<ReadFault> for OrMemory<ReadFault> {
    ghost from_gives = { λ fault refusal. refusal ≡ Fault fault };

    fn from(fault: ReadFault) -> OrMemory<ReadFault> {
        OrMemory::Fault(fault)
    }
}
