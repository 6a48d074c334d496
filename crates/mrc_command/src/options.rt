//! The commands of the table, as `clap` reads them.

ghost use Rattle.std.specs.Prelude.{◌≡◌, false, map, IfOk};
ghost use Rattle.clap.specs.Words.{app_of, rule_of, with_rule, with_subcommand};
ghost use Rattle.mrc_command.specs.CommandLine.{HasNoGlobals, bare_app, command_app};
ghost use Rattle.mrc_command.specs.CommandLine.{machcheck_app, rule_of_option, with_commands};

use crate::help::PROGRAM_HELP;
use crate::table::{COMMANDS, Entry, Kind, Row};
use clap::{Arg, ArgAction, value_parser};
use std::alloc::{AllocError, Global};

/// The argument of a row.
fn argument<'a>(alloc: Global, row: &Row) -> Arg<'a>
    ensures rule { rule_of result ≡ rule_of_option (row.now.0.now, row.now.1) }
    ensures local { result.global ≡ false }
{
    let (name, kind, value, help) = *row;
    let plain = Arg::new(alloc, name).help(help);
    match kind {
        Kind::Flag => plain.long(name).action(ArgAction::SetTrue),
        Kind::Words => plain.value_name(value).action(ArgAction::Append),
        Kind::NeededWords => plain
            .value_name(value)
            .required(true)
            .action(ArgAction::Append),
        Kind::Free => plain.long(name).value_name(value).action(ArgAction::Set),
        Kind::Needed => plain
            .long(name)
            .value_name(value)
            .required(true)
            .action(ArgAction::Set),
        Kind::Number => plain
            .long(name)
            .value_name(value)
            .action(ArgAction::Set)
            .value_parser(value_parser!(usize)),
    }
}

/// The command with one more option, of its own alone.
fn with<'a>(command: clap::Command<'a>, option: Arg<'a>) -> Result<clap::Command<'a>, AllocError>
    requires own { option.global ≡ false }
    requires local { HasNoGlobals command }
    ensures app { IfOk result
        (λ made. app_of made ≡ with_rule (app_of command.entry) (rule_of option.entry)) }
    ensures local { IfOk result HasNoGlobals }
{
    command.arg(option)
}

/// The command of an entry, with all its options.
fn entry_command<'a>(alloc: Global, entry: &Entry) -> Result<clap::Command<'a>, AllocError>
    ensures app { IfOk result (λ made. app_of made
        ≡ command_app (entry.now.0.now, map (λ row. (row.0.now, row.1)) entry.now.3.now)) }
    ensures local { IfOk result HasNoGlobals }
{
    let (name, about, help, rows) = *entry;
    let mut command = clap::Command::new(alloc, name)
        .about(about)
        .after_help(help);
    for row in rows {
        command = with(command, argument(alloc, row))?;
    }
    Ok(command)
}

/// The program with one more command.
fn with_command<'a>(
    program: clap::Command<'a>,
    command: clap::Command<'a>,
) -> Result<clap::Command<'a>, AllocError>
    requires local { HasNoGlobals command }
    ensures { IfOk result
        (λ made. app_of made ≡ with_subcommand (app_of program.entry) (app_of command.entry).top) }
{
    program.subcommand(command)
}

/// The program without its commands.
fn bare_command<'a>(alloc: Global) -> clap::Command<'a>
    ensures { app_of result ≡ bare_app }
{
    clap::Command::new(alloc, "machcheck")
        .version("0.1.0")
        .about(
            "Checks that no task of a wired Mach 3 system can ever obtain a forbidden port right",
        )
        .after_help(PROGRAM_HELP)
        .subcommand_required(true)
        .arg_required_else_help(true)
}

/// The program with the commands of these entries.
fn program_of<'a>(alloc: Global, entries: &[Entry]) -> Result<clap::Command<'a>, AllocError>
    ensures { IfOk result (λ program. app_of program ≡ with_commands bare_app (map command_app
        (map (λ entry. (entry.0.now, map (λ row. (row.0.now, row.1)) entry.3.now)) entries.now))) }
{
    let mut program = bare_command(alloc);
    for entry in entries {
        program = with_command(program, entry_command(alloc, entry)?)?;
    }
    Ok(program)
}

/// The program and its commands.
pub(crate) fn whole_command<'a>(alloc: Global) -> Result<clap::Command<'a>, AllocError>
    ensures { IfOk result (λ program. app_of program ≡ machcheck_app) }
{
    program_of(alloc, &COMMANDS)
}
