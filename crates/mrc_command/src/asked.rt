//! What is known of a command by its words: its name, and how its answer is printed.

ghost use Rattle.std.specs.Prelude.{◌≡◌};
ghost use Rattle.mrc_command.specs.Meaning.{asked_format, command_word, question_format};
ghost use Rattle.mrc_command.specs.Meaning.{question_word, NamesItsSubcommand};
ghost use Rattle.mrc_command.specs.Meaning.{HasFormatOfOptions, IsTextWithoutOption};

use crate::command::{Command, Format, Question};

/// The name of the subcommand that asks a question.
pub fn question_word(question: Question<'_>) -> &'static str
    ensures { result.now ≡ question_word question.entry }
{
    match question {
        Question::Verify { .. } => "verify",
        Question::Mend { .. } => "mend",
        Question::Attack { .. } => "attack",
        Question::Check { .. } => "check",
        Question::Make { .. } => "make",
        Question::Explain { .. } => "explain",
        Question::Facts { .. } => "facts",
        Question::Graph { .. } => "graph",
        Question::Slots { .. } => "slots",
        Question::Promises { .. } => "promises",
        Question::Expand => "expand",
        Question::Replay { .. } => "replay",
        Question::Live { .. } => "live",
    }
}

/// The name of the subcommand, as it is written: `verify`, `mig` and so on.
pub fn command_word(command: &Command<'_>) -> &'static str
    ensures { result.now ≡ command_word command.now }
{
    match command {
        Command::Case(_, question) => question_word(*question),
        Command::Mig(_) => "mig",
        Command::Message(message) => message.turning.word(),
    }
}

/// How the answer to a question is to be printed.
pub fn question_format(question: Question<'_>) -> Format
    ensures { result ≡ question_format question.entry }
{
    match question {
        Question::Verify { showing } => showing.format,
        Question::Mend { format, .. } => format,
        Question::Attack { format, .. } => format,
        Question::Check { format, .. } => format,
        Question::Make { .. } => Format::Text,
        Question::Explain { format, .. } => format,
        Question::Facts { format, .. } => format,
        Question::Graph { format, .. } => format,
        Question::Slots { format } => format,
        Question::Promises { format } => format,
        Question::Expand => Format::Text,
        Question::Replay { format } => format,
        Question::Live { format } => format,
    }
}

/// How the answer to the command is to be printed: as text if its subcommand has no `--format`.
pub fn asked_format(command: &Command<'_>) -> Format
    ensures { result ≡ asked_format command.now }
{
    match command {
        Command::Case(_, question) => question_format(*question),
        Command::Mig(files) => files.format,
        Command::Message(_) => Format::Text,
    }
}

/// What a command is called and how it is answered are what its words say.
pub fn commands_are_what_words_say()
    ensures named { NamesItsSubcommand }
    ensures format { HasFormatOfOptions }
    ensures text { IsTextWithoutOption }
{}
