//! What a type means.

ghost use Rattle.std.specs.Prelude.{◌≡◌, ◌*◌};
ghost use Rattle.mrc_mig_types.specs.Meanings.{counted, exactly, most, times, at_most, unbounded};
ghost use Rattle.mrc_mig_types.specs.Meanings.{item, array};
ghost use Rattle.mrc_mig_types.specs.Meanings.{bounded, open_array, pointed, string, string_count};

use mrc_base::limits;

/// The greatest count.
const MOST: u64 = limits::NUMBER as u64;

/// The type number of items.
#[derive(Clone, Copy, Debug, PartialEq, Eq)]
pub enum Tag {
    /// The sender picks it.
    Picked,
    /// This one.
    Fixed(u32),
}

/// How many items there are.
#[derive(Clone, Copy, Debug, PartialEq, Eq)]
pub enum Count {
    /// So many.
    Exactly(u32),
    /// At most so many.
    AtMost(u32),
    /// In the body or not, as the sender finds.
    Either,
    /// Not in the body, or of no length that a stub lays out.
    Away,
}

/// What a type means to a message.
#[derive(Clone, Copy, Debug, PartialEq, Eq)]
pub struct Meaning {
    /// The type number that is sent.
    pub sent: Tag,
    /// The type number that is received.
    pub received: Tag,
    /// The bits of an item.
    pub bits: u32,
    /// How many items there are.
    pub count: Count,
    /// At which multiples of bytes they begin inside a struct.
    pub alignment: u32,
}

/// A number of items, if it is one: 0 is none, and too many are none.
fn counted(number: u64) -> Option<u32>
    ensures { result ≡ counted number }
{
    if number == 0 || number > MOST {
        None
    } else {
        Some(number as u32)
    }
}

/// So many items for each of so many.
fn product(one: u32, another: u32) -> Option<u32>
    ensures { result ≡ counted (one * another) }
{
    counted(u64::from(one) * u64::from(another))
}

/// Exactly so many, if that is a count.
fn exactly(number: Option<u32>) -> Count
    ensures { result ≡ exactly number }
{
    match number {
        Some(number) => Count::Exactly(number),
        None => Count::Away,
    }
}

/// At most so many, if that is a count.
fn most(number: Option<u32>) -> Count
    ensures { result ≡ most number }
{
    match number {
        Some(number) => Count::AtMost(number),
        None => Count::Away,
    }
}

impl Count {
    /// So many times as many.
    fn times(self, number: Option<u32>) -> Count
        ensures { result ≡ times number self }
    {
        match (self, number) {
            (Count::Exactly(each), Some(number)) => exactly(product(number, each)),
            _ => Count::Away,
        }
    }

    /// At most so many times as many; with 0, in the body or not.
    fn at_most(self, number: Option<u32>) -> Count
        ensures { result ≡ at_most number self }
    {
        match (self, number) {
            (Count::Exactly(_), Some(0)) => Count::Either,
            (Count::Exactly(each), Some(number)) => most(product(number, each)),
            _ => Count::Away,
        }
    }

    /// Any number of times as many.
    fn unbounded(self) -> Count
        ensures { result ≡ unbounded self }
    {
        match self {
            Count::Exactly(_) => Count::Either,
            Count::AtMost(_) | Count::Either | Count::Away => Count::Away,
        }
    }
}

/// One item, with these type numbers and so many bits.
pub(crate) fn item(sent: Tag, received: Tag, bits: u32) -> Meaning
    ensures { result ≡ item sent received bits }
{
    Meaning {
        sent,
        received,
        bits,
        count: Count::Exactly(1),
        alignment: (bits / 8).min(4),
    }
}

/// So many characters, or so many at most.
fn string_count(number: Option<u32>, is_bound: bool) -> Count
    ensures { result ≡ string_count is_bound number }
{
    let Some(number) = number else {
        return Count::Away;
    };
    if is_bound {
        most(counted(u64::from(number)))
    } else {
        exactly(counted(u64::from(number)))
    }
}

/// A string of so many characters, or of so many at most.
pub(crate) fn string(number: Option<u32>, is_bound: bool) -> Meaning
    ensures { result ≡ string number is_bound }
{
    Meaning {
        sent: Tag::Fixed(12),
        received: Tag::Fixed(12),
        bits: 8,
        count: string_count(number, is_bound),
        alignment: 1,
    }
}

impl Meaning {
    /// An array or a struct of so many of these.
    pub(crate) fn array(self, number: Option<u32>) -> Meaning
        ensures { result ≡ array number self }
    {
        Meaning {
            count: self.count.times(number),
            ..self
        }
    }

    /// An array of at most so many of these.
    pub(crate) fn bounded(self, number: Option<u32>) -> Meaning
        ensures { result ≡ bounded number self }
    {
        Meaning {
            count: self.count.at_most(number),
            ..self
        }
    }

    /// An array of any number of these.
    pub(crate) fn open_array(self) -> Meaning
        ensures { result ≡ open_array self }
    {
        Meaning {
            count: self.count.unbounded(),
            ..self
        }
    }

    /// These out of line.
    pub(crate) fn pointed(self) -> Meaning
        ensures { result ≡ pointed self }
    {
        Meaning {
            count: Count::Away,
            alignment: 4,
            ..self
        }
    }
}
