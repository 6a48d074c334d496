//! Why tokens are no subsystem.
ghost use Rattle.std.specs.Prelude.{◌≡◌};
ghost use Rattle.mrc_mig_symbols.specs.Symbols.{stop_at};
ghost use Rattle.mrc_mig_symbols.specs.Places.{place_of, last_end, fault_at, fault_of};
ghost use Rattle.mrc_base.specs.declared.memory.OrMemory.TheVariants.{Fault};

use crate::tokens::Tokens;
use mrc_base::OrMemory;
use std::fmt;
use thiserror::Error;

/// What MIG has and this reader leaves out by name.
#[derive(Clone, Copy, Debug, PartialEq, Eq)]
pub enum Feature {
    /// Out-of-line data: `^`, `array[]`, `dealloc`.
    OutOfLine,
    /// Types that the sender picks at run time.
    Polymorphic,
    /// Types with one name for each side, as `A | B`.
    Pair,
    /// MACH_MSG_TYPE_REAL.
    Real,
    /// `procedure`, `simpleprocedure`, `function` and `operation`.
    OldForm,
    /// `waittime`, `msgoption`, `msgseqno`, `ureplyport`, `sreplyport` and the flags of arguments.
    Option,
    /// A `replyport` argument of a simpleroutine, of another type than a send-once right that is
    /// made or moved, or after another one.
    ReplyPort,
    /// An array or a string of variable length inside an array or a struct.
    Nested,
    /// A line of the preprocessor, except for line markers and the one include.
    Preprocessor,
}

impl fmt::Display for Feature {
    fn fmt<W: fmt::Write>(&self, f: &mut fmt::Formatter<W>) -> fmt::Result {
        f.write_str(match self {
            Feature::OutOfLine => "OutOfLine",
            Feature::Polymorphic => "Polymorphic",
            Feature::Pair => "Pair",
            Feature::Real => "Real",
            Feature::OldForm => "OldForm",
            Feature::Option => "Option",
            Feature::ReplyPort => "ReplyPort",
            Feature::Nested => "Nested",
            Feature::Preprocessor => "Preprocessor",
        })
    }
}

/// Why tokens are no subsystem: the first fault, by its place in the text and then by the order
/// here. Each place is an offset in bytes.
#[derive(Clone, Copy, Debug, PartialEq, Eq, Error)]
pub enum ParseFault {
    /// A token that cannot stand there, or the end of the last token where one is missing; a part
    /// of an expression that is below 0 or above 2,147,483,647, or a divisor 0; a size that no type
    /// has, and a string type without a size.
    #[error("Unexpected {0}")]
    Unexpected(usize),
    /// A form of MIG that is left out.
    #[error("LeftOut {0} {1}")]
    LeftOut(usize, Feature),
    /// A type that was not declared before.
    #[error("UnknownType {0}")]
    UnknownType(usize),
    /// A second type, routine or argument of one name.
    #[error("TwiceNamed {0}")]
    TwiceNamed(usize),
    /// The `)` of a routine whose arguments have no request port, or two.
    #[error("NoRequestPort {0}")]
    NoRequestPort(usize),
    /// A name above 64 bytes, a count outside 1 to 8,192, the 33rd argument or the 101st id.
    #[error("TooMany {0}")]
    TooMany(usize),
}

/// Why reading stops: a fault without its place.
#[derive(Clone, Copy, Debug, PartialEq, Eq)]
pub enum StopReason {
    /// A token that cannot stand there, or a missing one.
    Unexpected,
    /// A form of MIG that is left out.
    LeftOut(Feature),
    /// A type that was not declared before.
    UnknownType,
    /// A second type, routine or argument of one name.
    TwiceNamed,
    /// No request port, or two.
    NoRequestPort,
    /// A long name, a count out of its range, the 33rd argument or the 101st id.
    TooMany,
}

/// Why reading stops, and where: at the first of so many tokens that are left.
#[derive(Clone, Copy, Debug, PartialEq, Eq)]
pub struct Stop {
    /// Why.
    pub why: StopReason,
    /// How many tokens are left.
    pub left: usize,
}

/// Reading stops where so many tokens are left.
pub fn stop_at(why: StopReason, count: usize) -> Stop
    ensures { result ≡ stop_at why count }
{
    Stop { why, left: count }
}

impl From<Stop> for OrMemory<Stop> {
    ghost from_gives = { λ stop refusal. refusal ≡ Fault stop };

    fn from(stop: Stop) -> OrMemory<Stop> {
        OrMemory::Fault(stop)
    }
}

/// Where the last token ends.
fn last_end(tokens: &Tokens<'_>) -> usize
    ensures { result ≡ last_end tokens.now }
{
    match tokens.token(tokens.len().saturating_sub(1)) {
        Some(token) => token.end(),
        None => 0,
    }
}

/// Where the first of so many tokens that are left begins, or the end of the last one where none
/// is left.
pub fn place_of(tokens: &Tokens<'_>, count: usize) -> usize
    ensures { result ≡ place_of tokens.now count }
{
    match tokens.mark(tokens.len().saturating_sub(count)) {
        Some(mark) => mark.at,
        None => last_end(tokens),
    }
}

/// The fault at this place of a text for which reading stops.
pub fn fault_at(why: StopReason, at: usize) -> ParseFault
    ensures { result ≡ fault_at why at }
{
    match why {
        StopReason::Unexpected => ParseFault::Unexpected(at),
        StopReason::LeftOut(feature) => ParseFault::LeftOut(at, feature),
        StopReason::UnknownType => ParseFault::UnknownType(at),
        StopReason::TwiceNamed => ParseFault::TwiceNamed(at),
        StopReason::NoRequestPort => ParseFault::NoRequestPort(at),
        StopReason::TooMany => ParseFault::TooMany(at),
    }
}

/// The fault of these tokens for which reading stops.
pub fn fault_of(tokens: &Tokens<'_>, stop: Stop) -> ParseFault
    ensures { result ≡ fault_of tokens.now stop }
{
    fault_at(stop.why, place_of(tokens, stop.left))
}
