//! Why a text has no tokens.

ghost use Rattle.std.specs.Prelude.{◌≡◌};
ghost use Rattle.mrc_base.specs.declared.memory.OrMemory.TheVariants.{Fault};

use mrc_base::OrMemory;
use thiserror::Error;

/// Why a text has no tokens: the first fault in byte order, with its offset in the text.
#[derive(Clone, Copy, Debug, PartialEq, Eq, Error)]
pub enum LexFault {
    /// No token begins with this character, or a string or `<..>` that begins here is not closed on
    /// its line.
    #[error("BadCharacter {0}")]
    BadCharacter(usize),
    /// The comment that begins here is not closed.
    #[error("OpenComment {0}")]
    OpenComment(usize),
    /// The number that begins here is above 2,147,483,647.
    #[error("NumberTooLarge {0}")]
    NumberTooLarge(usize),
}

impl From<LexFault> for OrMemory<LexFault> {
    ghost from_gives = { λ fault refusal. refusal ≡ Fault fault };

    fn from(fault: LexFault) -> OrMemory<LexFault> {
        OrMemory::Fault(fault)
    }
}
