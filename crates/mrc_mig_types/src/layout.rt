//! How fields are laid out in a struct, and which items the whole is sent as.

ghost use Rattle.std.specs.Prelude.{◌≡◌, Option, Some, List, [], ◌∷◌, ◌++◌, false, min};
ghost use Rattle.std.specs.Int.{next_multiple_of};
ghost use Rattle.mrc_mig_types.specs.Layout.{bytes_of, field_of, all_fields_of, struct_of, IsLaid};
ghost use Rattle.mrc_mig_types.specs.Layout.{no_length};
ghost use Rattle.mrc_mig_types.specs.declared.layout.Field.{Field};
ghost use Rattle.mrc_mig_types.specs.declared.layout.TheConstants.{TOO_LARGE};
ghost use Rattle.mrc_mig_types.specs.declared.meaning.Meaning.{Meaning};

use crate::meaning::{Count, Meaning, Tag, item};
use mrc_base::limits;

/// More bytes than any count of items has.
const TOO_LARGE: u64 = 1 << 40;

/// The greatest count.
const MOST: u64 = limits::NUMBER as u64;

/// A field of a struct.
#[derive(Clone, Copy, Debug, PartialEq, Eq)]
pub(crate) struct Field {
    /// How many bytes it has.
    bytes: u64,
    /// At which multiples of bytes it begins.
    alignment: u32,
}

/// How many bytes so many items of so many bits have.
fn bytes_of(number: u32, bits: u32) -> u64
    ensures { result ≡ bytes_of number bits }
{
    (u64::from(number) * u64::from(bits) + 7) / 8
}

/// The field that a type is, if it has a length and an alignment.
fn field_of(meaning: Option<Meaning>) -> Option<Field>
    ensures { result ≡ field_of meaning }
{
    let meaning = meaning?;
    if meaning.alignment == 0 {
        return None;
    }
    match meaning.count {
        Count::Exactly(number) | Count::AtMost(number) => Some(Field {
            bytes: bytes_of(number, meaning.bits),
            alignment: meaning.alignment,
        }),
        Count::Either | Count::Away => None,
    }
}

/// A struct, field by field.
#[derive(Clone, Copy, Debug, PartialEq, Eq)]
pub(crate) struct Laid {
    /// Where the last field ends so far.
    size: u64,
    /// The largest alignment so far.
    alignment: u32,
    /// Whether each field has a length.
    has_length: bool,
}

/// The least multiple of the alignment that is not below the size.
fn aligned(size: u64, alignment: u32) -> u64
    ensures { result ≡ next_multiple_of (min size TOO_LARGE) alignment }
{
    size.min(TOO_LARGE)
        .next_multiple_of(u64::from(alignment.max(1)))
}

/// A struct as it is sent: data of no length.
fn no_length() -> Meaning
    ensures { result ≡ no_length }
{
    Meaning {
        count: Count::Away,
        ..item(Tag::Fixed(0), Tag::Fixed(0), 0)
    }
}

impl Laid {
    /// No field.
    pub(crate) fn new() -> Laid
        ensures { IsLaid (Some []) result }
    {
        Laid {
            size: 0,
            alignment: 1,
            has_length: true,
        }
    }

    /// With a field of a length behind the others.
    fn with_field(self, field: Field) -> Laid
        ensures laid { (fields : List Field) → IsLaid (Some fields) self
            → IsLaid (Some (fields ++ field ∷ [])) result }
        ensures none { self.has_length ≡ false → result.has_length ≡ false }
    {
        let begin = aligned(self.size, field.alignment);
        Laid {
            size: begin.saturating_add(field.bytes).min(TOO_LARGE),
            alignment: self.alignment.max(field.alignment),
            ..self
        }
    }

    /// With a field of this type behind the others, of which each is so.
    pub(crate) fn with(self, meaning: Option<Meaning>) -> Laid
        ensures { (fields : List (Option Meaning)) → IsLaid (all_fields_of fields) self
            → IsLaid (all_fields_of (fields ++ meaning ∷ [])) result }
    {
        match field_of(meaning) {
            Some(field) => self.with_field(field),
            None => Laid {
                has_length: false,
                ..self
            },
        }
    }

    /// The type that the struct is: items as large as its alignment, of bytes where that is no
    /// size of an integer.
    pub(crate) fn whole(self) -> Meaning
        ensures { (fields : List (Option Meaning)) → IsLaid (all_fields_of fields) self
            → result ≡ struct_of fields }
    {
        if !self.has_length {
            return no_length();
        }
        let (number, bytes) = match self.alignment {
            2 => (1, 2),
            4 => (2, 4),
            _ => (9, 1),
        };
        let count = aligned(self.size, self.alignment) / bytes;
        Meaning {
            sent: Tag::Fixed(number),
            received: Tag::Fixed(number),
            bits: bytes as u32 * 8,
            count: if count == 0 || count > MOST {
                Count::Away
            } else {
                Count::Exactly(count as u32)
            },
            alignment: self.alignment,
        }
    }
}
