//! What was asked, as far as printing depends on it.

ghost use Rattle.std.specs.Prelude.{◌≡◌};
ghost use Rattle.mrc_print.specs.Heads.{format_of};

use mrc_command::{Format, Question, Showing, Turning, question_format, question_word};

/// What was asked, as far as printing depends on it.
#[derive(Clone, Copy)]
pub enum Asked<'a> {
    /// A question about the files of a system.
    Case(Question<'a>),
    /// What can be read of MIG files, in this format.
    Mig(Format),
    /// A message of this text, which is turned this way.
    Message(Turning, &'a str),
}

/// The format that is asked for.
pub fn format_of(asked: Asked<'_>) -> Format
    ensures { result ≡ format_of asked.entry }
{
    match asked {
        Asked::Case(question) => question_format(question),
        Asked::Mig(format) => format,
        Asked::Message(_, _) => Format::Text,
    }
}

impl<'a> Asked<'a> {
    /// The word of the command.
    pub(crate) fn word(self) -> &'static str {
        match self {
            Asked::Case(question) => question_word(question),
            Asked::Mig(_) => "mig",
            Asked::Message(turning, _) => turning.word(),
        }
    }

    /// How broken lines are printed: all with their chains, if it is not said.
    pub(crate) fn showing(self) -> Showing {
        match self {
            Asked::Case(Question::Verify { showing }) => showing,
            _ => Showing {
                tree: false,
                brief: false,
                quotes: false,
                line: None,
                format: Format::Text,
            },
        }
    }

    /// Whether it is printed where the steps of a chain come from.
    pub(crate) fn is_by(self) -> bool {
        match self {
            Asked::Case(Question::Explain { by, .. }) => by,
            _ => false,
        }
    }

    /// Whether more is printed of a certificate of another wiring.
    pub(crate) fn is_verbose(self) -> bool {
        match self {
            Asked::Case(Question::Check { verbose, .. }) => verbose,
            _ => false,
        }
    }
}
