//! The kinds of statements.

ghost use Rattle.std.specs.Prelude.{◌≡◌};
ghost use Rattle.std.specs.Str.{bytes_eq, str_to_ascii_lowercase};
ghost use Rattle.mrc_mig_symbols.specs.Tables.{plain, entry_of, AreLowercase};
ghost use Rattle.mrc_mig_tokens.specs.Reading.{left};
ghost use Rattle.mrc_mig_rows.specs.Kinds.{is_old, routine_kind, kind_of_name, kind_of_word};
ghost use Rattle.mrc_mig_rows.specs.Kinds.{statement_kind};

use mrc_mig_bodies::RoutineKind;
use mrc_mig_lex::Sign;
use mrc_mig_symbols::Word;
use mrc_mig_tokens::{Rest, Symbol};

/// The word of a statement that takes an id for a routine.
#[derive(Clone, Copy, Debug, PartialEq, Eq)]
pub enum RowKind {
    /// `routine`
    Routine,
    /// `simpleroutine`
    SimpleRoutine,
    /// `procedure` and `operation`
    Procedure,
    /// `simpleprocedure`
    SimpleProcedure,
    /// `function`
    Function,
}

impl RowKind {
    /// Whether it is of an old form, which is always left out.
    pub fn is_old(self) -> bool
        ensures { result ≡ is_old self }
    {
        match self {
            RowKind::Routine | RowKind::SimpleRoutine => false,
            RowKind::Procedure | RowKind::SimpleProcedure | RowKind::Function => true,
        }
    }

    /// Which bodies it has: those of a routine, or those of a simpleroutine.
    pub fn routine_kind(self) -> RoutineKind
        ensures { result ≡ routine_kind self }
    {
        match self {
            RowKind::Routine | RowKind::Procedure | RowKind::Function => RoutineKind::Routine,
            RowKind::SimpleRoutine | RowKind::SimpleProcedure => RoutineKind::Simple,
        }
    }
}

/// What a statement is.
#[derive(Clone, Copy, Debug, PartialEq, Eq)]
pub enum StatementKind {
    /// `subsystem`
    Subsystem,
    /// `type`
    Type,
    /// A routine, a simpleroutine or an old form.
    Row(RowKind),
    /// `skip`
    Skip,
    /// What means nothing here, such as `import`, and an empty statement.
    Passed,
}

/// The words of statements that are not reserved, in lower case.
const NAMES: [(&str, StatementKind); 7] = [
    ("procedure", StatementKind::Row(RowKind::Procedure)),
    ("operation", StatementKind::Row(RowKind::Procedure)),
    ("function", StatementKind::Row(RowKind::Function)),
    (
        "simpleprocedure",
        StatementKind::Row(RowKind::SimpleProcedure),
    ),
    ("serverdemux", StatementKind::Passed),
    ("nowaittime", StatementKind::Passed),
    ("error", StatementKind::Passed),
];

/// Whether a name is spelled so, in any case.
pub(crate) fn is_spelled(name: &str, word: &str) -> bool
    requires { str_to_ascii_lowercase word.now ≡ word.now }
    ensures { result ≡ bytes_eq (str_to_ascii_lowercase name.now) word.now }
{
    name.eq_ignore_ascii_case(word)
}

/// What a table has under a name in any case.
fn kind_in(table: &[(&str, StatementKind)], text: &str) -> Option<StatementKind>
    requires { AreLowercase table.now }
    ensures { result ≡ entry_of (plain table.now) (str_to_ascii_lowercase text.now) }
{
    for (name, kind) in table {
        if text.eq_ignore_ascii_case(name) {
            return Some(*kind);
        }
    }
    None
}

/// What a statement is that begins with a name.
#[tactic(auto, unfolding(crate::specs::Kinds::kind_of_name))]
fn kind_of_name(text: &str) -> Option<StatementKind>
    ensures { result ≡ kind_of_name text.now }
{
    kind_in(&NAMES, text)
}

/// What a statement is that begins with a reserved word.
fn kind_of_word(word: Word) -> Option<StatementKind>
    ensures { result ≡ kind_of_word word }
{
    match word {
        Word::Subsystem => Some(StatementKind::Subsystem),
        Word::Type => Some(StatementKind::Type),
        Word::Routine => Some(StatementKind::Row(RowKind::Routine)),
        Word::SimpleRoutine => Some(StatementKind::Row(RowKind::SimpleRoutine)),
        Word::Skip => Some(StatementKind::Skip),
        Word::Import | Word::Prefix | Word::Rcsid => Some(StatementKind::Passed),
        Word::Wait => Some(StatementKind::Passed),
        _ => None,
    }
}

/// What the statement at the front is, by its first token. None begins with any other.
#[tactic(auto, unfolding(crate::specs::Kinds::statement_kind))]
pub fn statement_kind(rest: Rest<'_>) -> Option<StatementKind>
    ensures { result ≡ statement_kind (left rest.entry) }
{
    match rest.first() {
        Symbol::Word(word) => kind_of_word(word),
        Symbol::Name => kind_of_name(rest.text()),
        Symbol::Sign(Sign::Semicolon) => Some(StatementKind::Passed),
        _ => None,
    }
}
