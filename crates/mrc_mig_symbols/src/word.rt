//! The words that MIG reserves, and the names of its basic types.

ghost use Rattle.std.specs.Prelude.{◌≡◌};
ghost use Rattle.std.specs.Str.{str_to_ascii_lowercase};
ghost use Rattle.mrc_mig_symbols.specs.Tables.{plain, entry_of, AreLowercase};
ghost use Rattle.mrc_mig_symbols.specs.Words.{word_of, basic_of};

/// Which way an argument goes, or which of the two ports of a message it is.
#[derive(Clone, Copy, Debug, PartialEq, Eq)]
pub enum Direction {
    /// In the request.
    In,
    /// In the reply.
    Out,
    /// In both.
    InOut,
    /// The port that the request is sent to: in no body.
    RequestPort,
    /// The port that the reply is sent to: in no body.
    ReplyPort,
}

/// A reserved word. Words that stand at the same places share a variant.
#[derive(Clone, Copy, Debug, PartialEq, Eq)]
pub enum Word {
    /// `subsystem`
    Subsystem,
    /// `kernelserver`, `kerneluser`
    Side,
    /// `type`
    Type,
    /// `routine`
    Routine,
    /// `simpleroutine`
    SimpleRoutine,
    /// `skip`
    Skip,
    /// `import`, `uimport`, `simport`
    Import,
    /// `serverprefix`, `userprefix`
    Prefix,
    /// `rcsid`
    Rcsid,
    /// `in`, `out`, `inout`, `requestport`, `replyport`
    Direction(Direction),
    /// `ctype`, `cusertype`, `cservertype`
    CType,
    /// `intran`, `outtran`
    Translation,
    /// `destructor`
    Destructor,
    /// `array`
    Array,
    /// `struct`
    Struct,
    /// `of`
    Of,
    /// `c_string`
    CString,
    /// `procedure`, `simpleprocedure`, `function`, `operation`: left out
    OldForm,
    /// `waittime`, `msgoption`: left out
    Wait,
    /// `msgseqno`, `ureplyport`, `sreplyport`: left out
    PortOption,
    /// `islong`, `isnotlong`, `servercopy`, `countinout`: left out
    Flag,
    /// `dealloc`: left out
    Dealloc,
    /// `polymorphic`: left out
    Polymorphic,
}

// The reserved words, in lower case, by how many letters they have.

const WORDS_OF_2: [(&str, Word); 2] = [("in", Word::Direction(Direction::In)), ("of", Word::Of)];

const WORDS_OF_3: [(&str, Word); 1] = [("out", Word::Direction(Direction::Out))];

const WORDS_OF_4: [(&str, Word); 2] = [("type", Word::Type), ("skip", Word::Skip)];

const WORDS_OF_5: [(&str, Word); 4] = [
    ("rcsid", Word::Rcsid),
    ("inout", Word::Direction(Direction::InOut)),
    ("ctype", Word::CType),
    ("array", Word::Array),
];

const WORDS_OF_6: [(&str, Word); 4] = [
    ("import", Word::Import),
    ("intran", Word::Translation),
    ("struct", Word::Struct),
    ("islong", Word::Flag),
];

const WORDS_OF_7: [(&str, Word); 5] = [
    ("routine", Word::Routine),
    ("uimport", Word::Import),
    ("simport", Word::Import),
    ("outtran", Word::Translation),
    ("dealloc", Word::Dealloc),
];

const WORDS_OF_8: [(&str, Word); 4] = [
    ("c_string", Word::CString),
    ("function", Word::OldForm),
    ("waittime", Word::Wait),
    ("msgseqno", Word::PortOption),
];

const WORDS_OF_9: [(&str, Word); 7] = [
    ("subsystem", Word::Subsystem),
    ("replyport", Word::Direction(Direction::ReplyPort)),
    ("cusertype", Word::CType),
    ("procedure", Word::OldForm),
    ("operation", Word::OldForm),
    ("msgoption", Word::Wait),
    ("isnotlong", Word::Flag),
];

const WORDS_OF_10: [(&str, Word); 7] = [
    ("kerneluser", Word::Side),
    ("userprefix", Word::Prefix),
    ("destructor", Word::Destructor),
    ("ureplyport", Word::PortOption),
    ("sreplyport", Word::PortOption),
    ("servercopy", Word::Flag),
    ("countinout", Word::Flag),
];

const WORDS_OF_11: [(&str, Word); 3] = [
    ("requestport", Word::Direction(Direction::RequestPort)),
    ("cservertype", Word::CType),
    ("polymorphic", Word::Polymorphic),
];

const WORDS_OF_12: [(&str, Word); 2] = [
    ("kernelserver", Word::Side),
    ("serverprefix", Word::Prefix),
];

const WORDS_OF_13: [(&str, Word); 1] = [("simpleroutine", Word::SimpleRoutine)];

const WORDS_OF_15: [(&str, Word); 1] = [("simpleprocedure", Word::OldForm)];

fn word_in(table: &[(&str, Word)], text: &str) -> Option<Word>
    requires { AreLowercase table.now }
    ensures { result ≡ entry_of (plain table.now) (str_to_ascii_lowercase text.now) }
{
    for (spelling, word) in table {
        if text.eq_ignore_ascii_case(spelling) {
            return Some(*word);
        }
    }
    None
}

/// The reserved word that the text is, in any case. It is compared with those of its length alone.
pub fn word_of(text: &str) -> Option<Word>
    ensures { result ≡ word_of text.now }
{
    match text.len() {
        2 => word_in(&WORDS_OF_2, text),
        3 => word_in(&WORDS_OF_3, text),
        4 => word_in(&WORDS_OF_4, text),
        5 => word_in(&WORDS_OF_5, text),
        6 => word_in(&WORDS_OF_6, text),
        7 => word_in(&WORDS_OF_7, text),
        8 => word_in(&WORDS_OF_8, text),
        9 => word_in(&WORDS_OF_9, text),
        10 => word_in(&WORDS_OF_10, text),
        11 => word_in(&WORDS_OF_11, text),
        12 => word_in(&WORDS_OF_12, text),
        13 => word_in(&WORDS_OF_13, text),
        15 => word_in(&WORDS_OF_15, text),
        _ => None,
    }
}

/// What a MACH_MSG_TYPE_ name stands for in the place of a type.
#[derive(Clone, Copy, Debug, PartialEq, Eq)]
pub enum Basic {
    /// A type number, and the bits of one item.
    Plain(u16, u16),
    /// A type number whose size has to be given.
    Unsized(u16),
    /// Left out.
    Polymorphic,
    /// Left out.
    Real,
}

/// The basic types.
const BASICS: [(&str, Basic); 20] = [
    ("MACH_MSG_TYPE_BOOLEAN", Basic::Plain(0, 32)),
    ("MACH_MSG_TYPE_INTEGER_16", Basic::Plain(1, 16)),
    ("MACH_MSG_TYPE_INTEGER_32", Basic::Plain(2, 32)),
    ("MACH_MSG_TYPE_CHAR", Basic::Plain(8, 8)),
    ("MACH_MSG_TYPE_BYTE", Basic::Plain(9, 8)),
    ("MACH_MSG_TYPE_INTEGER_8", Basic::Plain(9, 8)),
    ("MACH_MSG_TYPE_STRING", Basic::Unsized(12)),
    ("MACH_MSG_TYPE_STRING_C", Basic::Unsized(12)),
    ("MACH_MSG_TYPE_PORT_NAME", Basic::Plain(15, 32)),
    ("MACH_MSG_TYPE_MOVE_RECEIVE", Basic::Plain(16, 32)),
    ("MACH_MSG_TYPE_MOVE_SEND", Basic::Plain(17, 32)),
    ("MACH_MSG_TYPE_MOVE_SEND_ONCE", Basic::Plain(18, 32)),
    ("MACH_MSG_TYPE_COPY_SEND", Basic::Plain(19, 32)),
    ("MACH_MSG_TYPE_MAKE_SEND", Basic::Plain(20, 32)),
    ("MACH_MSG_TYPE_MAKE_SEND_ONCE", Basic::Plain(21, 32)),
    ("MACH_MSG_TYPE_PORT_RECEIVE", Basic::Polymorphic),
    ("MACH_MSG_TYPE_PORT_SEND", Basic::Polymorphic),
    ("MACH_MSG_TYPE_PORT_SEND_ONCE", Basic::Polymorphic),
    ("MACH_MSG_TYPE_POLYMORPHIC", Basic::Polymorphic),
    ("MACH_MSG_TYPE_REAL", Basic::Real),
];

fn basic_in(table: &[(&str, Basic)], text: &str) -> Option<Basic>
    ensures { result ≡ entry_of (plain table.now) text.now }
{
    for (name, basic) in table {
        if text == *name {
            return Some(*basic);
        }
    }
    None
}

/// The basic type that the text names, in its case alone.
pub fn basic_of(text: &str) -> Option<Basic>
    ensures { result ≡ basic_of text.now }
{
    basic_in(&BASICS, text)
}
