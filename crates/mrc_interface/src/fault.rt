//! Why a subsystem, or a file, has no table of forms.

ghost use Rattle.std.specs.Prelude.{◌≡◌};
ghost use Rattle.mrc_base.specs.declared.memory.OrMemory.TheVariants.{Fault};

use mrc_base::OrMemory;
use mrc_mig_lex::LexFault;
use mrc_mig_parse::ParseFault;
use thiserror::Error;

/// Why a subsystem has no table of forms.
#[derive(Clone, Copy, Debug, PartialEq, Eq, Error)]
pub enum InterfaceFault {
    /// The id of a routine, a simpleroutine or a skip, or that of a reply, would be above
    /// 2,147,483,647.
    #[error("IdRange")]
    IdRange,
}

impl From<InterfaceFault> for OrMemory<InterfaceFault> {
    ghost from_gives = { λ fault refusal. refusal ≡ Fault fault };

    fn from(fault: InterfaceFault) -> OrMemory<InterfaceFault> {
        OrMemory::Fault(fault)
    }
}

/// Why the bytes of a MIG file have no table of forms: the fault of the first step that refuses
/// them.
#[derive(Clone, Copy, Debug, PartialEq, Eq, Error)]
pub enum DefsFault {
    /// The bytes are no UTF-8 text.
    #[error("NotUtf8")]
    NotUtf8,
    /// The text has no tokens.
    #[error("{0}")]
    Lex(LexFault),
    /// The tokens are no subsystem.
    #[error("{0}")]
    Parse(ParseFault),
    /// The subsystem has no table.
    #[error("{0}")]
    Interface(InterfaceFault),
}

/// A fault of the tokens, so many bytes earlier.
fn earlier_lex(fault: LexFault, count: usize) -> LexFault {
    match fault {
        LexFault::BadCharacter(at) => LexFault::BadCharacter(at.saturating_sub(count)),
        LexFault::OpenComment(at) => LexFault::OpenComment(at.saturating_sub(count)),
        LexFault::NumberTooLarge(at) => LexFault::NumberTooLarge(at.saturating_sub(count)),
    }
}

/// A fault of the grammar, so many bytes earlier.
fn earlier_parse(fault: ParseFault, count: usize) -> ParseFault {
    match fault {
        ParseFault::Unexpected(at) => ParseFault::Unexpected(at.saturating_sub(count)),
        ParseFault::LeftOut(at, feature) => ParseFault::LeftOut(at.saturating_sub(count), feature),
        ParseFault::UnknownType(at) => ParseFault::UnknownType(at.saturating_sub(count)),
        ParseFault::TwiceNamed(at) => ParseFault::TwiceNamed(at.saturating_sub(count)),
        ParseFault::NoRequestPort(at) => ParseFault::NoRequestPort(at.saturating_sub(count)),
        ParseFault::TooMany(at) => ParseFault::TooMany(at.saturating_sub(count)),
    }
}

impl DefsFault {
    /// The same fault with its place so many bytes earlier: that in a text which is read with so
    /// many bytes in front.
    pub fn earlier(self, count: usize) -> DefsFault {
        match self {
            DefsFault::NotUtf8 | DefsFault::Interface(_) => self,
            DefsFault::Lex(fault) => DefsFault::Lex(earlier_lex(fault, count)),
            DefsFault::Parse(fault) => DefsFault::Parse(earlier_parse(fault, count)),
        }
    }
}

/// The first file of a list that has no table of forms.
#[derive(Clone, Copy, Debug, PartialEq, Eq)]
pub struct FileFault {
    /// Its number in the list, from 0.
    pub file: usize,
    /// Its fault.
    pub fault: DefsFault,
}
