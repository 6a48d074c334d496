//! The command line, read by `clap`.

ghost use Rattle.std.specs.Prelude.{◌≡◌, ◌∷◌, codes, Some, true, map, string_bytes, IfErr, IfOk};
ghost use Rattle.std.specs.Prelude.{IfSome, IsSomeAnd};
ghost use Rattle.std.specs.Option.{option_map};
ghost use Rattle.clap.specs.Words.{first_of, kind_of, subcommand_of, subcommand_rows_of, takes};
ghost use Rattle.clap.specs.declared.error.kind.ErrorKind.TheVariants.{OutOfMemory};
ghost use Rattle.mrc_command.specs.CommandLine.{IsNoCommand, TellsError, machcheck_app};
ghost use Rattle.mrc_command.specs.Meaning.{all_values, has_flag, number_given, format_given, rows};
ghost use Rattle.mrc_command.specs.Meaning.{NamesFiles, IsShowing, Asks, has_files, AsksMig};
ghost use Rattle.mrc_command.specs.Meaning.{IsCommandOf, IsRequestOf, Means, has_format};
ghost use Rattle.mrc_command.specs.Meaning.{IsBadFormatIfTold, IsRefusal, AsksMessage};
ghost use Rattle.mrc_command.specs.Meaning.{turning_word, turning_option};

use crate::lacking::lacking_text;
use crate::options::whole_command;
use crate::told::{Told, fault_of};
use clap::error::ErrorKind;
use clap::{ArgMatches, Error};
use mrc_words::number_of_word;
use std::alloc::{AllocError, Global};

/// The names of the files that a command is about, by their roles.
#[derive(Drop)]
pub struct FileNames<'a> {
    /// The MIG files of the interfaces, in order.
    pub defs: Vec<&'a str>,
    /// The wiring.
    pub wiring: &'a str,
    /// The policy, if one is named.
    pub policy: Option<&'a str>,
    /// The certificate, if one is named.
    pub certificate: Option<&'a str>,
    /// The script, if one is named.
    pub script: Option<&'a str>,
    /// Whether what the policy waives is let pass: `--waive`.
    pub waives: bool,
}

/// How an answer is printed.
#[derive(Clone, Copy, Debug, PartialEq, Eq)]
pub enum Format {
    /// As text, to be read by people.
    Text,
    /// As one JSON object.
    Json,
    /// As a SARIF log, to be shown by a code host.
    Sarif,
}

/// How the answer of `verify` is printed.
#[derive(Clone, Copy)]
pub struct Showing {
    /// Chains are printed from their conclusions down.
    pub tree: bool,
    /// Chains are not printed.
    pub brief: bool,
    /// Each broken line is followed by the text of that line.
    pub quotes: bool,
    /// Only the broken line of this number is printed. It is 0 if the text is no number.
    pub line: Option<usize>,
    /// Text, JSON or SARIF.
    pub format: Format,
}

/// What is asked of the files.
#[derive(Clone, Copy)]
pub enum Question<'a> {
    /// Can anything that the policy forbids come about, and how? Broken lines are printed by
    /// `showing`.
    Verify {
        showing: Showing,
    },
    /// Which changes of the wiring, `most` of them at most, lead to a yes? With `line` only that
    /// line of the policy is looked at. Both are 0 if the text is no number.
    Mend {
        line: Option<usize>,
        most: usize,
        format: Format,
    },
    /// By which calls can what the policy forbids come about? With `line` only that line is looked
    /// at. For each line `most` chains are played, at most. Both are 0 if the text is no number.
    Attack {
        line: Option<usize>,
        most: usize,
        format: Format,
    },
    /// Is the certificate accepted for the wiring and the policy? With `verbose` more is printed if
    /// it is of another wiring.
    Check {
        verbose: bool,
        format: Format,
    },
    /// What may the tasks of the wiring come to hold? It is made by `workers` threads, and written
    /// to the file `out`.
    Make {
        out: &'a str,
        workers: usize,
    },
    /// How may the fact of this text come about? With `by` it is printed where steps come from.
    Explain {
        fact: &'a str,
        by: bool,
        format: Format,
    },
    /// Which facts does a certificate have, of this task, this class and this right, if given?
    Facts {
        task: Option<&'a str>,
        class: Option<&'a str>,
        right: Option<&'a str>,
        format: Format,
    },
    /// The same as a drawing, or the chain of the fact of this text alone. With `task` only what
    /// this task may hold is drawn, and with `holds` only what tasks may hold.
    Graph {
        fact: Option<&'a str>,
        task: Option<&'a str>,
        holds: bool,
        format: Format,
    },
    /// Which slots do messages have, and what does each admit?
    Slots {
        format: Format,
    },
    /// What has to be found in the code of trusted tasks?
    Promises {
        format: Format,
    },
    /// Which lines does the wiring stand for?
    Expand,
    /// What do the calls of the script answer?
    Replay {
        format: Format,
    },
    /// What do they answer if the certificate is accepted and tasks run as threads?
    Live {
        format: Format,
    },
}

/// Which way a message is turned.
#[derive(Clone, Copy, Debug, PartialEq, Eq)]
pub enum Turning {
    /// From words to its bytes.
    Encode,
    /// From its bytes to words.
    Decode,
}

/// A message, and the MIG files of its interfaces.
#[derive(Drop)]
pub struct MessageText<'a> {
    /// Which way it is turned.
    pub turning: Turning,
    /// The message: in words, or its bytes as HEX.
    pub text: &'a str,
    /// The MIG files, in their order.
    pub defs: Vec<&'a str>,
}

/// What the user asks for.
#[derive(Drop)]
pub enum Command<'a> {
    /// A question about the files of a system.
    Case(FileNames<'a>, Question<'a>),
    /// What can be read of MIG files of a system?
    Mig(MigFiles<'a>),
    /// Which bytes is a message in words, or which words are its bytes?
    Message(MessageText<'a>),
}

/// What the words ask for.
#[derive(Drop)]
pub struct Request<'a> {
    pub command: Command<'a>,
    /// Whether the place of a fault is asked for.
    pub verbose: bool,
}

/// Which routines may not be left out of MIG files, so that files are written.
#[derive(Clone, Copy, Debug, PartialEq, Eq)]
pub enum Strictness {
    /// Each may.
    None,
    /// Those that carry rights may not.
    Rights,
    /// None may.
    All,
}

/// The files of a `mig`, the folder of those that are written, and what may not be left out.
#[derive(Drop)]
pub struct MigFiles<'a> {
    pub defs: Vec<&'a str>,
    pub out: &'a str,
    pub strict: Strictness,
    /// Whether the texts that are written are of edition 2 as received.
    pub received: bool,
    /// How it is printed what is read.
    pub format: Format,
}

/// Why there is no command to run.
#[derive(Drop)]
pub enum NoCommand {
    /// What is printed: help, the version, or what is wrong with the words.
    Told(Told),
    /// Out of memory.
    Memory,
}

impl From<AllocError> for NoCommand {
    ghost use Rattle.std.specs.Prelude.{◌≡◌};
    ghost use Rattle.mrc_command.specs.declared.command.NoCommand.TheVariants.{Memory};

    ghost from_gives = { λ _ e. e ≡ Memory };

    fn from(_e: AllocError) -> NoCommand {
        NoCommand::Memory
    }
}

/// The text of an error of `clap`. Of an option that the command does not have it is a text of our
/// own.
fn error_text(alloc: Global, error: &Error, words: &[String]) -> Result<String, AllocError> {
    let text = format!(in alloc; "{error}")?;
    if error.kind() != ErrorKind::UnknownArgument {
        return Ok(text);
    }
    let lacking = lacking_text(alloc, words, text.as_str())?;
    Ok(lacking.unwrap_or(text))
}

/// The text of an error for these words: help and version go to standard output, all else to
/// standard error.
fn clap_text(alloc: Global, error: Error, words: &[String]) -> NoCommand
    ensures memory { kind_of error ≡ OutOfMemory → result ≡ NoCommand.Memory }
    ensures told { TellsError (kind_of error) result }
{
    if error.kind() == ErrorKind::OutOfMemory {
        return NoCommand::Memory;
    }
    let Ok(text) = error_text(alloc, &error, words) else {
        return NoCommand::Memory;
    };
    NoCommand::Told(if error.use_stderr() {
        Told {
            out: String::new(alloc),
            err: text,
            status: 2,
        }
    } else {
        Told {
            out: text,
            err: String::new(alloc),
            status: 0,
        }
    })
}

/// The value of an option, if it is given.
fn value_given<'a>(matches: &ArgMatches<'a>, option: &str) -> Option<&'a str>
    ensures { first_of option.now (rows matches.now) ≡ option_map (λ value. value.now) result }
{
    matches.get_str(option)
}

/// Whether an option without a value is given.
fn has_flag(matches: &ArgMatches<'_>, option: &str) -> bool
    ensures { result ≡ has_flag option.now (rows matches.now) }
{
    match value_given(matches, option) {
        Some(value) => value == "true",
        None => false,
    }
}

/// The number that an option has, if it is given: 0 if it is no number.
fn number_given(matches: &ArgMatches<'_>, option: &str) -> Option<usize>
    ensures { result ≡ number_given (first_of option.now (rows matches.now)) }
{
    let text = value_given(matches, option)?;
    match number_of_word(text.as_bytes()) {
        Some(number) => Some(number as usize),
        None => Some(0),
    }
}

/// The MIG files that are given.
fn defs_given<'a>(alloc: Global, matches: &ArgMatches<'a>) -> Result<Vec<&'a str>, AllocError>
    ensures { IfOk result (λ files.
        map (λ file. file.now) files.items ≡ all_values (codes "defs") (rows matches.now)) }
{
    match matches.get_strs("defs") {
        Some(files) => Vec::from_slice(alloc, files),
        None => Ok(Vec::new(alloc)),
    }
}

/// How the answer is to be printed.
fn format_given(matches: &ArgMatches<'_>) -> Format
    ensures { result ≡ format_given (rows matches.now) }
{
    match value_given(matches, "format") {
        Some("json") => Format::Json,
        Some("sarif") => Format::Sarif,
        _ => Format::Text,
    }
}

/// The files that the options name. A wiring has to be given.
fn files_named<'a>(alloc: Global, matches: &ArgMatches<'a>) -> Result<FileNames<'a>, NoCommand>
    ensures named { IfOk result (NamesFiles (rows matches.now)) }
    ensures none { IfErr result (λ none. none ≡ NoCommand.Memory) }
{
    let defs = defs_given(alloc, matches)?;
    let Some(wiring) = value_given(matches, "wiring") else {
        return Err(NoCommand::Memory);
    };
    Ok(FileNames {
        defs,
        wiring,
        policy: value_given(matches, "policy"),
        certificate: value_given(matches, "cert"),
        script: value_given(matches, "script"),
        waives: has_flag(matches, "waive"),
    })
}

/// How broken lines are to be printed.
fn showing_asked(matches: &ArgMatches<'_>) -> Showing
    ensures { IsShowing (rows matches.now) result }
{
    let line = number_given(matches, "line");
    Showing {
        tree: has_flag(matches, "tree"),
        brief: has_flag(matches, "brief"),
        quotes: has_flag(matches, "verbose"),
        line,
        format: format_given(matches),
    }
}

/// The question of a command that prints facts.
fn facts_asked<'a>(name: &str, matches: &ArgMatches<'a>) -> Option<Question<'a>>
    ensures { IfSome result (Asks name.now (rows matches.now)) }
{
    let task = value_given(matches, "task");
    match name {
        "facts" => Some(Question::Facts {
            task,
            class: value_given(matches, "class"),
            right: value_given(matches, "right"),
            format: format_given(matches),
        }),
        "graph" => Some(Question::Graph {
            fact: value_given(matches, "fact"),
            task,
            holds: has_flag(matches, "holds"),
            format: format_given(matches),
        }),
        _ => None,
    }
}

/// The question of a command that does not judge a system. What it needs has to be given.
fn other_asked<'a>(name: &str, matches: &ArgMatches<'a>) -> Option<Question<'a>>
    ensures { IfSome result (Asks name.now (rows matches.now)) }
{
    match name {
        "make" => Some(Question::Make {
            out: value_given(matches, "out")?,
            workers: number_given(matches, "workers").unwrap_or(4),
        }),
        "explain" => Some(Question::Explain {
            fact: value_given(matches, "fact")?,
            by: has_flag(matches, "by"),
            format: format_given(matches),
        }),
        _ => facts_asked(name, matches),
    }
}

/// The question of a command that has no option of its own, or `--format` alone.
fn plain_asked<'a>(name: &str, matches: &ArgMatches<'a>) -> Option<Question<'a>>
    ensures { IfSome result (Asks name.now (rows matches.now)) }
{
    let format = format_given(matches);
    match name {
        "slots" => Some(Question::Slots { format }),
        "promises" => Some(Question::Promises { format }),
        "expand" => Some(Question::Expand),
        "replay" => Some(Question::Replay { format }),
        "live" => Some(Question::Live { format }),
        _ => other_asked(name, matches),
    }
}

/// The question that the command of this name asks, if it is about the files of a system.
fn question_asked<'a>(name: &str, matches: &ArgMatches<'a>) -> Option<Question<'a>>
    ensures { IfSome result (Asks name.now (rows matches.now)) }
{
    match name {
        "verify" => Some(Question::Verify {
            showing: showing_asked(matches),
        }),
        "mend" => {
            let only = number_given(matches, "line");
            Some(Question::Mend {
                line: only,
                most: number_given(matches, "most").unwrap_or(10),
                format: format_given(matches),
            })
        }
        "attack" => Some(Question::Attack {
            line: number_given(matches, "line"),
            most: number_given(matches, "most").unwrap_or(30),
            format: format_given(matches),
        }),
        "check" => Some(Question::Check {
            verbose: has_flag(matches, "verbose"),
            format: format_given(matches),
        }),
        _ => plain_asked(name, matches),
    }
}

/// Whether the files that a question needs besides the wiring are named.
fn has_files(question: Question<'_>, files: &FileNames<'_>) -> bool
    ensures { result ≡ has_files question.entry files.now }
{
    match question {
        Question::Verify { .. } | Question::Mend { .. } | Question::Attack { .. } => {
            files.policy.is_some()
        }
        Question::Check { .. } => files.policy.is_some() && files.certificate.is_some(),
        Question::Replay { .. } => files.script.is_some(),
        Question::Live { .. } => {
            files.policy.is_some() && files.certificate.is_some() && files.script.is_some()
        }
        _ => true,
    }
}

/// What `mig` is asked. A folder has to be given.
fn mig_asked<'a>(alloc: Global, matches: &ArgMatches<'a>) -> Result<MigFiles<'a>, NoCommand>
    ensures asked { IfOk result (AsksMig (rows matches.now)) }
    ensures none { IfErr result (λ none. none ≡ NoCommand.Memory) }
{
    let defs = defs_given(alloc, matches)?;
    let Some(out) = value_given(matches, "out") else {
        return Err(NoCommand::Memory);
    };
    let strict = if has_flag(matches, "strict") {
        Strictness::All
    } else if has_flag(matches, "strict-rights") {
        Strictness::Rights
    } else {
        Strictness::None
    };
    let received = has_flag(matches, "as-received");
    let format = format_given(matches);
    Ok(MigFiles {
        defs,
        out,
        strict,
        received,
        format,
    })
}

impl Turning {
    /// The name of the subcommand.
    pub fn word(self) -> &'static str
        ensures { result.now ≡ turning_word self }
    {
        match self {
            Turning::Encode => "encode",
            Turning::Decode => "decode",
        }
    }

    /// The name of the option that has the message.
    pub fn option(self) -> &'static str
        ensures { result.now ≡ turning_option self }
    {
        match self {
            Turning::Encode => "message",
            Turning::Decode => "hex",
        }
    }
}

/// Which way the subcommand of this name turns a message, if it does.
fn turning_named(name: &str) -> Option<Turning>
    ensures { IfSome result (λ turning. name.now ≡ turning_word turning) }
{
    match name {
        "encode" => Some(Turning::Encode),
        "decode" => Some(Turning::Decode),
        _ => None,
    }
}

/// The message that is turned. It has to be given.
fn message_asked<'a>(
    alloc: Global,
    turning: Turning,
    matches: &ArgMatches<'a>,
) -> Result<MessageText<'a>, NoCommand>
    ensures turning { IfOk result (λ asked. asked.turning ≡ turning) }
    ensures asked { IfOk result (AsksMessage (rows matches.now)) }
    ensures none { IfErr result (λ none. none ≡ NoCommand.Memory) }
{
    let defs = defs_given(alloc, matches)?;
    let Some(text) = value_given(matches, turning.option()) else {
        return Err(NoCommand::Memory);
    };
    Ok(MessageText {
        turning,
        text,
        defs,
    })
}

/// The command of this name.
fn command_of<'a>(
    alloc: Global,
    name: &str,
    matches: &ArgMatches<'a>,
) -> Result<Command<'a>, NoCommand>
    ensures command { IfOk result (IsCommandOf name.now (rows matches.now)) }
    ensures none { IfErr result (λ none. none ≡ NoCommand.Memory) }
{
    if name == "mig" {
        return Ok(Command::Mig(mig_asked(alloc, matches)?));
    }
    if let Some(turning) = turning_named(name) {
        return Ok(Command::Message(message_asked(alloc, turning, matches)?));
    }
    let Some(question) = question_asked(name, matches) else {
        return Err(NoCommand::Memory);
    };
    let files = files_named(alloc, matches)?;
    if !has_files(question, &files) {
        return Err(NoCommand::Memory);
    }
    Ok(Command::Case(files, question))
}

/// Whether the word of `--format`, if it is given, is one that the command of this name has.
fn has_format(name: &str, matches: &ArgMatches<'_>) -> bool
    ensures { result ≡ has_format name.now (rows matches.now) }
{
    match value_given(matches, "format") {
        Some(word) => word == "text" || word == "json" || word == "sarif" && name == "verify",
        None => true,
    }
}

/// What is printed of a word of `--format` that is none of the command's.
fn bad_format(alloc: Global) -> NoCommand
    ensures { IsBadFormatIfTold result }
{
    match fault_of(alloc, "--format", "BadFormat") {
        Ok(told) => NoCommand::Told(told),
        Err(AllocError) => NoCommand::Memory,
    }
}

fn request_of<'a>(alloc: Global, matches: &ArgMatches<'a>) -> Result<Request<'a>, NoCommand>
    ensures request { IfOk result (λ request. IsSomeAnd (subcommand_rows_of matches.now)
        (λ given. IsRequestOf given.0 given.1 request)) }
    ensures none { IfErr result (IsRefusal (subcommand_rows_of matches.now)) }
{
    let Some((name, matches)) = matches.subcommand() else {
        return Err(NoCommand::Memory);
    };
    if !has_format(name, matches) {
        return Err(bad_format(alloc));
    }
    let verbose = has_flag(matches, "verbose");
    let command = command_of(alloc, name, matches)?;
    Ok(Request { command, verbose })
}

/// Reads the words of a command line, the program's own name first.
pub fn read(alloc: Global, words: &[String]) -> Result<Request<'_>, NoCommand>
    ensures command { IfOk result (Means (map string_bytes words.now)) }
    ensures none { IfErr result (IsNoCommand (map string_bytes words.now)) }
    ensures taken { takes machcheck_app (map string_bytes words.now) ≡ true
        → IfErr result (IsRefusal (subcommand_of machcheck_app (map string_bytes words.now))) }
{
    let command = whole_command(alloc)?;
    let matches = match command.try_get_matches_from(words) {
        Ok(matches) => matches,
        Err(error) => return Err(clap_text(alloc, error, words)),
    };
    request_of(alloc, &matches)
}
