//! Why texts have no meaning together, by the role of the text.

use mrc_certificate::DraftFault;
use mrc_interface::FileFault;
use mrc_stand_for::StandFault;
use mrc_wiring::{ClaimFault, ResolveFault};
use mrc_wiring_text::{Name, TextFault};
use std::error::Error;
use std::fmt;
use thiserror::Error;

/// Why a wiring's bytes mean no wiring.
#[derive(Debug, Drop)]
pub enum WiringFault {
    /// The text is not one of the grammar.
    Text(TextFault),
    /// Its lines have no meaning together.
    Lines(ResolveFault),
    /// The task of this name would get more names than a task may have.
    TooManyNames(Name),
    /// A line of version 4 does not stand for lines.
    Stands(StandFault),
}

impl fmt::Display for WiringFault {
    fn fmt<W: fmt::Write>(&self, f: &mut fmt::Formatter<W>) -> fmt::Result {
        match self {
            WiringFault::Text(fault) => write!(f, "{fault}"),
            WiringFault::Lines(fault) => write!(f, "{fault}"),
            WiringFault::TooManyNames(name) => write!(f, "TooManyNames {}", name.as_str()),
            WiringFault::Stands(fault) => write!(f, "{fault}"),
        }
    }
}

impl Error for WiringFault {}

/// Why a policy's bytes mean no policy over the wiring.
#[derive(Clone, Copy, Debug, PartialEq, Eq, Error)]
pub enum PolicyFault {
    /// The text is not one of the grammar.
    #[error("{0}")]
    Text(TextFault),
    /// A line names what the wiring lacks.
    #[error("{0}")]
    Lines(ClaimFault),
    /// A line of version 3 names what the wiring lacks, or stands for nothing.
    #[error("{0}")]
    Stands(StandFault),
}

/// The first text that has no meaning, by its role, and why.
#[derive(Debug, Drop)]
pub enum CaseFault {
    /// A MIG file.
    Defs(FileFault),
    /// The wiring, over the files' interfaces.
    Wiring(WiringFault),
    /// The policy, over the wiring.
    Policy(PolicyFault),
    /// The certificate, which encodes no draft.
    Certificate(DraftFault),
    /// The script, over the wiring.
    Script(TextFault),
}

impl fmt::Display for CaseFault {
    fn fmt<W: fmt::Write>(&self, f: &mut fmt::Formatter<W>) -> fmt::Result {
        match self {
            CaseFault::Defs(fault) => write!(f, "{}", fault.fault),
            CaseFault::Wiring(fault) => write!(f, "{fault}"),
            CaseFault::Policy(fault) => write!(f, "{fault}"),
            CaseFault::Certificate(fault) => write!(f, "{fault}"),
            CaseFault::Script(fault) => write!(f, "{fault}"),
        }
    }
}

impl Error for CaseFault {}
