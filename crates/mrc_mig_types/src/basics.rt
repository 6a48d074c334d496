//! Basic types, as they are written.

ghost use Rattle.std.specs.Prelude.{◌≡◌};
ghost use Rattle.std.specs.Str.{bytes_eq, str_to_ascii_lowercase};
ghost use Rattle.mrc_base.specs.Reading.{Gives};
ghost use Rattle.mrc_mig_symbols.specs.Symbols.{Answers};
ghost use Rattle.mrc_mig_symbols.specs.Tables.{plain, entry_of};
ghost use Rattle.mrc_mig_tokens.specs.Reading.{text_of, left};
ghost use Rattle.mrc_mig_types.specs.Basics.{basic_by, is_flag_name, pair_of, given_size};
ghost use Rattle.mrc_mig_types.specs.Basics.{basic_of, basic_item};
ghost use Rattle.mrc_mig_types.specs.Reading.{basic_at, received_at, pair_at, plain_at, is_flag};
ghost use Rattle.mrc_mig_types.specs.Reading.{flag_at};
ghost use Rattle.mrc_mig_types.specs.Reading.{begins_flag, flags_at, brackets_at, sized_at};

use crate::meaning::{Meaning, Tag, item};
use mrc_base::OrMemory;
use mrc_mig_lex::Sign;
use mrc_mig_symbols::{Stop, Word};
use mrc_mig_tokens::{Rest, Symbol, is_next, sign, sum_value};
use std::alloc::Global;

/// What a basic type is.
#[derive(Clone, Copy, Debug, PartialEq, Eq)]
pub(crate) struct Basic {
    /// The type number that is sent.
    pub(crate) sent: Tag,
    /// The type number that is received.
    pub(crate) received: Tag,
    /// The bits of an item, or 0 where they have to be given.
    pub(crate) bits: u32,
}

/// What a name of a basic type stands for.
#[derive(Clone, Copy, Debug, PartialEq, Eq)]
pub(crate) enum Row {
    /// This type number, and so many bits.
    Plain(u32, u32),
    /// A right that is sent by this number and received by that one.
    Right(u32, u32),
    /// A right that is received by this number, and sent by one that the sender picks.
    Received(u32),
    /// A type number that the sender picks.
    Picked,
}

/// The names of basic types.
const ROWS: [(&str, Row); 23] = [
    ("MACH_MSG_TYPE_UNSTRUCTURED", Row::Plain(0, 0)),
    ("MACH_MSG_TYPE_BIT", Row::Plain(0, 1)),
    ("MACH_MSG_TYPE_BOOLEAN", Row::Plain(0, 32)),
    ("MACH_MSG_TYPE_INTEGER_16", Row::Plain(1, 16)),
    ("MACH_MSG_TYPE_INTEGER_32", Row::Plain(2, 32)),
    ("MACH_MSG_TYPE_CHAR", Row::Plain(8, 8)),
    ("MACH_MSG_TYPE_BYTE", Row::Plain(9, 8)),
    ("MACH_MSG_TYPE_INTEGER_8", Row::Plain(9, 8)),
    ("MACH_MSG_TYPE_REAL", Row::Plain(10, 0)),
    ("MACH_MSG_TYPE_INTEGER_64", Row::Plain(11, 64)),
    ("MACH_MSG_TYPE_STRING", Row::Plain(12, 0)),
    ("MACH_MSG_TYPE_STRING_C", Row::Plain(12, 0)),
    ("MACH_MSG_TYPE_PORT_NAME", Row::Plain(15, 32)),
    ("MACH_MSG_TYPE_MOVE_RECEIVE", Row::Right(16, 16)),
    ("MACH_MSG_TYPE_MOVE_SEND", Row::Right(17, 17)),
    ("MACH_MSG_TYPE_MOVE_SEND_ONCE", Row::Right(18, 18)),
    ("MACH_MSG_TYPE_COPY_SEND", Row::Right(19, 17)),
    ("MACH_MSG_TYPE_MAKE_SEND", Row::Right(20, 17)),
    ("MACH_MSG_TYPE_MAKE_SEND_ONCE", Row::Right(21, 18)),
    ("MACH_MSG_TYPE_PORT_RECEIVE", Row::Received(16)),
    ("MACH_MSG_TYPE_PORT_SEND", Row::Received(17)),
    ("MACH_MSG_TYPE_PORT_SEND_ONCE", Row::Received(18)),
    ("MACH_MSG_TYPE_POLYMORPHIC", Row::Picked),
];

/// What a row is.
pub(crate) fn basic_by(row: Row) -> Basic
    ensures { result ≡ basic_by row }
{
    let (sent, received, bits) = match row {
        Row::Plain(number, bits) => (Tag::Fixed(number), Tag::Fixed(number), bits),
        Row::Right(sent, received) => (Tag::Fixed(sent), Tag::Fixed(received), 32),
        Row::Received(received) => (Tag::Picked, Tag::Fixed(received), 32),
        Row::Picked => (Tag::Picked, Tag::Picked, 0),
    };
    Basic {
        sent,
        received,
        bits,
    }
}

/// What a table has under a name.
pub(crate) fn row_in(table: &[(&str, Row)], text: &str) -> Option<Row>
    ensures { result ≡ entry_of (plain table.now) text.now }
{
    for (name, row) in table {
        if text == *name {
            return Some(*row);
        }
    }
    None
}

/// The basic type that a text names, in its case alone.
#[tactic(auto, unfolding(crate::specs::Basics::basic_of))]
pub(crate) fn basic_of(text: &str) -> Option<Basic>
    ensures { result ≡ basic_of text.now }
{
    match row_in(&ROWS, text) {
        Some(row) => Some(basic_by(row)),
        None => None,
    }
}

/// One item of a basic type.
pub(crate) fn basic_item(basic: Basic) -> Meaning
    ensures { result ≡ basic_item basic }
{
    item(basic.sent, basic.received, basic.bits)
}

/// What the first token names as a basic type, where it does: a name of one, the word
/// `polymorphic`, or a number.
#[tactic(auto, unfolding(crate::specs::Reading::basic_at))]
pub(crate) fn basic_type(rest: Rest<'_>) -> Option<Basic>
    ensures { result ≡ basic_at (left rest.entry) }
{
    match rest.first() {
        Symbol::Word(Word::Polymorphic) => Some(Basic {
            sent: Tag::Picked,
            received: Tag::Picked,
            bits: 32,
        }),
        Symbol::Number(number) => Some(Basic {
            sent: Tag::Fixed(number),
            received: Tag::Fixed(number),
            bits: 0,
        }),
        Symbol::Name => basic_of(rest.text()),
        _ => None,
    }
}

/// What is sent as one basic type and received as another.
fn pair_of(sent: Basic, received: Basic) -> Basic
    ensures { result ≡ pair_of sent received }
{
    Basic {
        sent: sent.sent,
        received: received.received,
        bits: if sent.bits == 0 {
            received.bits
        } else {
            sent.bits
        },
    }
}

/// Reads what follows a basic type: a second one behind a bar, where there is one.
#[tactic(auto, unfolding(crate::specs::Reading::received_at))]
fn received<'t>(sent: Basic, rest: Rest<'t>) -> Result<(Basic, Rest<'t>), Stop>
    ensures { Answers (λ x. (x.0, left x.1)) result (received_at sent (left rest.entry)) }
{
    if !is_next(rest, Sign::Bar) {
        return Ok((sent, rest));
    }
    let rest = rest.next();
    match basic_type(rest) {
        Some(received) => Ok((pair_of(sent, received), rest.next())),
        None => Err(rest.unexpected()),
    }
}

/// Reads a basic type, or two with a bar between them.
#[tactic(auto, unfolding(crate::specs::Reading::pair_at))]
fn pair(rest: Rest<'_>) -> Result<(Basic, Rest<'_>), Stop>
    ensures { Answers (λ x. (x.0, left x.1)) result (pair_at (left rest.entry)) }
{
    match basic_type(rest) {
        Some(sent) => received(sent, rest.next()),
        None => Err(rest.unexpected()),
    }
}

/// Reads a basic type with no size of its own.
#[tactic(auto, unfolding(crate::specs::Reading::plain_at))]
pub(crate) fn plain(rest: Rest<'_>) -> Result<(Meaning, Rest<'_>), Stop>
    ensures { Answers (λ x. (x.0, left x.1)) result (plain_at (left rest.entry)) }
{
    let (basic, rest) = pair(rest)?;
    Ok((basic_item(basic), rest))
}

/// Whether a name is spelled so, in any case.
fn is_spelled(name: &str, word: &str) -> bool
    requires { str_to_ascii_lowercase word.now ≡ word.now }
    ensures { result ≡ bytes_eq (str_to_ascii_lowercase name.now) word.now }
{
    name.eq_ignore_ascii_case(word)
}

/// Whether a name that is not reserved is a flag.
fn is_flag_name(name: &str) -> bool
    ensures { result ≡ is_flag_name name.now }
{
    is_spelled(name, "notdealloc") || is_spelled(name, "retcode")
}

/// Whether a flag comes next.
#[tactic(auto, unfolding(crate::specs::Reading::flag_at))]
fn is_flag(rest: Rest<'_>) -> bool
    ensures { result ≡ is_flag (left rest.entry) }
{
    match rest.first() {
        Symbol::Word(Word::Flag | Word::Dealloc) => true,
        Symbol::Name => is_flag_name(rest.text()),
        _ => false,
    }
}

/// Passes `[]` where a bracket comes next.
#[tactic(auto, unfolding(crate::specs::Reading::brackets_at))]
fn brackets(rest: Rest<'_>) -> Result<Rest<'_>, Stop>
    ensures { Answers left result (brackets_at (left rest.entry)) }
{
    if is_next(rest, Sign::OpenBracket) {
        sign(rest.next(), Sign::CloseBracket)
    } else {
        Ok(rest)
    }
}

/// Passes a comma and a flag.
#[tactic(auto, unfolding(crate::specs::Reading::flag_at))]
fn flag(rest: Rest<'_>) -> Result<Rest<'_>, Stop>
    ensures { Answers left result (flag_at (left rest.entry)) }
{
    let rest = sign(rest, Sign::Comma)?;
    if is_flag(rest) {
        brackets(rest.next())
    } else {
        Err(rest.unexpected())
    }
}

/// Passes flags, each behind a comma. A comma behind which none stands is Unexpected.
#[tactic(auto, using(mrc_mig_tokens::proofs::LoopLemmas::many_ends, mrc_mig_tokens::proofs::LoopLemmas::many_goes_on, mrc_mig_tokens::proofs::LoopLemmas::many_done), unfolding(crate::specs::Reading::flags_at, crate::specs::Reading::begins_flag))]
pub fn flags(rest: Rest<'_>) -> Result<Rest<'_>, Stop>
    ensures { Answers left result (flags_at (left rest.entry)) }
{
    let mut rest = rest;
    let count = rest.len();
    for _ in 0..count {
        if !is_next(rest, Sign::Comma) {
            return Ok(rest);
        }
        rest = flag(rest)?;
    }
    Ok(rest)
}

/// A basic type with items of so many bits; without a value, of 0.
fn given_size(basic: Basic, bits: Option<u32>) -> Meaning
    ensures { result ≡ given_size basic bits }
{
    item(basic.sent, basic.received, bits.unwrap_or(0))
}

/// Reads `basic, size)` from behind the parenthesis.
#[tactic(auto, unfolding(crate::specs::Reading::sized_at))]
pub(crate) fn sized<'t>(
    alloc: Global,
    rest: Rest<'t>,
) -> Result<(Meaning, Rest<'t>), OrMemory<Stop>>
    ensures { Gives (λ x. (x.0, left x.1)) result (sized_at (left rest.entry)) }
{
    let (basic, rest) = pair(rest)?;
    let rest = sign(rest, Sign::Comma)?;
    let (bits, rest) = sum_value(alloc, rest)?;
    let rest = sign(flags(rest)?, Sign::CloseParenthesis)?;
    Ok((given_size(basic, bits), rest))
}
