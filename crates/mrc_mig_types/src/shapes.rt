//! What an argument of a type is in a message.

ghost use Rattle.std.specs.Prelude.{◌≡◌};
ghost use Rattle.mrc_mig_types.specs.Shapes.{numbers_of, right_numbers, slot_count, data_of};
ghost use Rattle.mrc_mig_types.specs.Shapes.{fitting, shape_by, shape_of, form_of, given_by};

use crate::meaning::{Count, Meaning, Tag};
use mrc_base::limits;

/// The dispositions of a right, and what else may stand in its place.
#[derive(Clone, Copy, Debug, PartialEq, Eq)]
pub enum Rights {
    /// No right.
    Nothing,
    /// This one.
    Only(u32),
    /// Those that give a send right.
    Send,
    /// Those that give a send-once right.
    SendOnce,
    /// Each of them, and data of 32 bits.
    Any,
}

/// What an argument is in a message.
#[derive(Clone, Copy, Debug, PartialEq, Eq)]
pub enum Shape {
    /// Data of any kind, of any size and number.
    AnyData,
    /// Items of one type number.
    Data {
        /// The type number.
        number: u32,
        /// The bits of one item.
        bits: u32,
        /// How many items there are.
        count: u32,
        /// The count is the most that there may be, and not the exact one.
        is_bound: bool,
    },
    /// Rights.
    Slot {
        /// Which.
        rights: Rights,
        /// How many.
        count: u32,
        /// The count is the most that there may be, and not the exact one.
        is_bound: bool,
    },
}

/// The rights that give what is received by this number.
fn given_by(received: u32) -> Rights
    ensures { numbers_of result ≡ given_by received }
{
    match received {
        16 => Rights::Only(16),
        17 | 19 | 20 => Rights::Send,
        18 | 21 => Rights::SendOnce,
        _ => Rights::Nothing,
    }
}

/// The type numbers of an argument that is sent with one tag and received with another, where it
/// carries rights.
pub fn rights_of(sent: Tag, received: Tag) -> Rights
    ensures { numbers_of result ≡ right_numbers sent received }
{
    match (sent, received) {
        (Tag::Fixed(number), _) if number >= 16 && number <= 21 => Rights::Only(number),
        (Tag::Fixed(_), _) => Rights::Nothing,
        (Tag::Picked, Tag::Picked) => Rights::Any,
        (Tag::Picked, Tag::Fixed(number)) => given_by(number),
    }
}

/// A count of items, and whether it is a bound, where a message has so many.
fn fitting(count: Count) -> Option<(u32, bool)>
    ensures { result ≡ fitting count }
{
    let (number, is_bound) = match count {
        Count::Exactly(number) => (number, false),
        Count::AtMost(number) => (number, true),
        Count::Either | Count::Away => return None,
    };
    if number >= 1 && number <= limits::ITEMS {
        Some((number, is_bound))
    } else {
        None
    }
}

/// How many rights a slot may carry, and whether that is the most.
fn slot_count(count: Count) -> (u32, bool)
    ensures { result ≡ slot_count count }
{
    match fitting(count) {
        Some(found) => found,
        None => (limits::ITEMS, true),
    }
}

/// Data of one type number, where they have a lawful size and count; else data of any kind.
fn data_of(tag: Tag, bits: u32, count: Count) -> Shape
    ensures { form_of result ≡ data_of tag bits count }
{
    let Tag::Fixed(number) = tag else {
        return Shape::AnyData;
    };
    if number > 15 || bits == 0 || bits > 65528 || bits % 8 != 0 {
        return Shape::AnyData;
    }
    match fitting(count) {
        Some((count, is_bound)) => Shape::Data {
            number,
            bits,
            count,
            is_bound,
        },
        None => Shape::AnyData,
    }
}

/// By which type number an argument is judged.
#[derive(Clone, Copy, Debug, PartialEq, Eq)]
pub enum By {
    /// The one that is sent.
    Sent,
    /// The one that is received, by which replies of a kernel's server are sent.
    Received,
    /// Each one that gives the right which is received, and of data the one that is sent.
    Picked,
    /// The same, and of data the one that is received.
    PickedReceived,
}

/// What an argument is in a message: a slot where it carries rights, with one tag or another.
fn shape_by(picks: Tag, tag: Tag, meaning: Meaning) -> Shape
    ensures { form_of result ≡ shape_by picks tag meaning }
{
    match rights_of(picks, meaning.received) {
        Rights::Nothing => data_of(tag, meaning.bits, meaning.count),
        rights => {
            let (count, is_bound) = slot_count(meaning.count);
            Shape::Slot {
                rights,
                count,
                is_bound,
            }
        }
    }
}

/// What an argument of a type is in a message.
pub fn shape_of(meaning: Meaning, by: By) -> Shape
    ensures { form_of result ≡ shape_of meaning by }
{
    match by {
        By::Sent => shape_by(meaning.sent, meaning.sent, meaning),
        By::Received => shape_by(meaning.received, meaning.received, meaning),
        By::Picked => shape_by(Tag::Picked, meaning.sent, meaning),
        By::PickedReceived => shape_by(Tag::Picked, meaning.received, meaning),
    }
}
