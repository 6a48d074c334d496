//! The command line, read by `clap`; what the program prints, with the lines of faults.
#![tactic(auto)]

mod asked;
mod command;
mod help;
mod lacking;
mod options;
mod table;
mod told;
mod words;

pub use asked::{
    asked_format, command_word, commands_are_what_words_say, question_format, question_word,
};
pub use command::{
    Command, FileNames, Format, MessageText, MigFiles, NoCommand, Question, Request, Showing,
    Strictness, Turning, read,
};
pub use told::{Told, fault_of, memory, names_are_shown_safely, push_shown, said, shown};
pub use words::{WordsFault, words_line, words_of};
