//! For which word a row is left out.

ghost use Rattle.std.specs.Prelude.{◌≡◌, nat_lt};
ghost use Rattle.mrc_base.specs.Limits.{limit_of_number};
ghost use Rattle.mrc_mig_rows.specs.declared.words.RowWord.TheVariants as words;
ghost use Rattle.mrc_mig_rows.specs.Words.{last_id, early_word, name_word, word_of, told};
ghost use Rattle.mrc_mig_rows.specs.Words.{first_told};

use crate::kinds::RowKind;
use mrc_base::limits;
use mrc_mig_bodies::{LeftOutWord, Objection};

/// Ids of a file, at most, those that are skipped counted.
pub(crate) const IDS: u64 = limits::IDS as u64;

/// The largest id.
const LARGEST: u64 = limits::NUMBER as u64;

/// How far the id of a reply is above that of its request.
const REPLY: u64 = 100;

/// Why a row is left out.
#[derive(Clone, Copy, Debug, PartialEq, Eq)]
pub enum RowWord {
    /// It takes an id behind the thousandth; a name of more than 64 bytes; the 33rd argument.
    TooMany,
    /// Its id, or its reply's, is above 2,147,483,647.
    IdRange,
    /// `procedure`, `simpleprocedure`, `function` or `operation`.
    OldForm,
    /// No statement goes on with this token.
    Unexpected,
    /// A type has to be judged, and is unknown.
    UnknownType,
    /// There is no request port, or it is no port.
    NoRequestPort,
    /// A reply port may be more than a send-once right.
    ReplyPort,
    /// A name is there already.
    TwiceNamed,
}

impl RowWord {
    /// The word as it is printed.
    pub fn as_str(self) -> &'static str {
        match self {
            RowWord::TooMany => "TooMany",
            RowWord::IdRange => "IdRange",
            RowWord::OldForm => "OldForm",
            RowWord::Unexpected => "Unexpected",
            RowWord::UnknownType => "UnknownType",
            RowWord::NoRequestPort => "NoRequestPort",
            RowWord::ReplyPort => "ReplyPort",
            RowWord::TwiceNamed => "TwiceNamed",
        }
    }
}

/// A word, and the place at which it is told: how many tokens are left there.
#[derive(Clone, Copy, Debug, PartialEq, Eq)]
pub struct Told {
    /// The word.
    pub word: RowWord,
    /// The place.
    pub at: usize,
}

/// Whether the largest id that a row takes is too large.
fn is_out_of_range(kind: RowKind, id: u64) -> bool
    ensures { result ≡ nat_lt limit_of_number (last_id kind id) }
{
    match kind {
        RowKind::Routine => id > LARGEST - REPLY,
        _ => id > LARGEST,
    }
}

/// The word for which a row is left out whatever it says: by how many ids are taken before it, and
/// its own.
pub(crate) fn early_word(kind: RowKind, taken: u64, id: u64) -> Option<RowWord>
    ensures { result ≡ early_word kind taken id }
{
    if taken >= IDS {
        Some(RowWord::TooMany)
    } else if is_out_of_range(kind, id) {
        Some(RowWord::IdRange)
    } else if kind.is_old() {
        Some(RowWord::OldForm)
    } else {
        None
    }
}

/// The word for which a row is left out by its name.
pub(crate) fn name_word(is_taken: bool, name: &str) -> Option<RowWord>
    ensures { result ≡ name_word is_taken name.now }
{
    if is_taken {
        Some(RowWord::TwiceNamed)
    } else if name.len() > limits::NAME {
        Some(RowWord::TooMany)
    } else {
        None
    }
}

/// The word of an objection.
fn word_of(word: LeftOutWord) -> RowWord
    ensures { result ≡ word_of word }
{
    match word {
        LeftOutWord::Unexpected => RowWord::Unexpected,
        LeftOutWord::UnknownType => RowWord::UnknownType,
        LeftOutWord::NoRequestPort => RowWord::NoRequestPort,
        LeftOutWord::ReplyPort => RowWord::ReplyPort,
        LeftOutWord::TwiceNamed => RowWord::TwiceNamed,
        LeftOutWord::TooMany => RowWord::TooMany,
    }
}

/// The token with which no statement goes on.
fn unexpected_at(at: usize) -> Told
    ensures { result ≡ told words.Unexpected at }
{
    Told {
        word: RowWord::Unexpected,
        at,
    }
}

/// What objects to the arguments.
fn objected(objection: Objection) -> Told
    ensures { result ≡ told (word_of objection.word) objection.at }
{
    Told {
        word: word_of(objection.word),
        at: objection.at,
    }
}

/// The first of a token with which no statement goes on, and of what objects to the arguments
/// before it. At one place the token counts.
pub(crate) fn first_told(stop: Option<usize>, objection: Option<Objection>) -> Option<Told>
    ensures { result ≡ first_told stop objection }
{
    match (stop, objection) {
        (None, None) => None,
        (Some(at), None) => Some(unexpected_at(at)),
        (None, Some(objection)) => Some(objected(objection)),
        (Some(at), Some(objection)) => {
            if objection.at <= at {
                Some(unexpected_at(at))
            } else {
                Some(objected(objection))
            }
        }
    }
}
