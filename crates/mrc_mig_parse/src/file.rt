//! The statements of a file.
ghost use Rattle.std.specs.Prelude.{◌≡◌, ◌++◌, [], ◌∷◌, None, Some, map, length, IfOk, OnOk};
ghost use Rattle.mrc_base.specs.Reading.{Gives};
ghost use Rattle.mrc_mig_parse.specs.Stops.{meaning_or_fault};
ghost use Rattle.mrc_mig_symbols.specs.Symbols.{Means, MeansOrMemory, many};
ghost use Rattle.mrc_mig_symbols.specs.Readers.{left};
ghost use Rattle.mrc_mig_parse.specs.Grammar.{IsFile};
ghost use Rattle.mrc_mig_parse.specs.Files.{State, Meaning, one, table, is_declared};
ghost use Rattle.mrc_mig_parse.specs.Files.{declared_with_all, include_by, directive_by};
ghost use Rattle.mrc_mig_parse.specs.Files.{begins_line, line_at, lines_at, is_side, after_sides};
ghost use Rattle.mrc_mig_parse.specs.Files.{number_at, named_number_at, heading_at, declaration_at};
ghost use Rattle.mrc_mig_parse.specs.Files.{is_named, is_routine, routine_at, row_by, row_at};
ghost use Rattle.mrc_mig_parse.specs.Files.{worded_by, has_more, import_at, rcsid_at, prefix_at};
ghost use Rattle.mrc_mig_parse.specs.Files.{statement_at, statements_at, meaning_of};
ghost use Rattle.mrc_mig_parse.specs.Meanings.{item_of, row_of};
ghost use Rattle.mrc_mig_parse.specs.Readers.{state_of};
ghost use Rattle.mrc_mig_parse.specs.Stops.{declaration_stop, directive_stop, each_statement_stop};
ghost use Rattle.mrc_mig_parse.specs.Stops.{file_stop, heading_stop, import_stop, line_stop};
ghost use Rattle.mrc_mig_parse.specs.Stops.{lines_stop, named_number_stop, prefix_stop, rcsid_stop};
ghost use Rattle.mrc_mig_parse.specs.Stops.{routine_stop, row_stop, row_stop_by, statement_stop};
ghost use Rattle.mrc_mig_parse.specs.Stops.{statements_stop, twice_named, worded_stop};
ghost use Rattle.mrc_mig_symbols.specs.Symbols.{StopsAt, StopsAtOrMemory, unexpected};

use crate::arguments::{arguments, resolved};
use crate::options::options;
use crate::subsystem::{Argument, Entry, Subsystem};
use crate::table::Types;
use crate::types::{Use, shape};
use mrc_base::{OrMemory, limits};
use mrc_forms::Shape;
use mrc_mig_lex::Sign;
use mrc_mig_symbols::{
    Directive, Feature, ParseFault, Rest, Stop, StopReason, Symbol, Tokens, Word, fault_of, name,
    sign, stop_at,
};
use std::alloc::{AllocError, Global};

/// The types that the include line declares: names, type numbers and bits.
const TABLE: [(&str, u16, u16); 16] = [
    ("char", 8, 8),
    ("short", 1, 16),
    ("int", 2, 32),
    ("unsigned", 2, 32),
    ("integer_t", 2, 32),
    ("natural_t", 2, 32),
    ("kern_return_t", 2, 32),
    ("boolean_t", 0, 32),
    ("mach_port_name_t", 15, 32),
    ("mach_port_t", 19, 32),
    ("mach_port_copy_send_t", 19, 32),
    ("mach_port_move_receive_t", 16, 32),
    ("mach_port_move_send_t", 17, 32),
    ("mach_port_move_send_once_t", 18, 32),
    ("mach_port_make_send_t", 20, 32),
    ("mach_port_make_send_once_t", 21, 32),
];

/// What the statements so far have declared.
#[derive(Drop)]
struct File<'t> {
    types: Types<'t>,
    has_table: bool,
    entries: Vec<Entry>,
}

fn is_declared(name: &str, types: &Types<'_>) -> bool
    ensures { result ≡ is_declared name.now types.now }
{
    types.get(name).is_some()
}

/// Declares each of these types, which the line at `at` stands for.
#[tactic(auto, using(crate::proofs::FileLemmas::declares_at, crate::proofs::FileLemmas::declares_no_more))]
fn declare_each<'t>(
    types: &mut Types<'t>,
    table: &[(&'t str, u16, u16)],
    at: usize,
) -> Result<(), OrMemory<Stop>>
    ensures exact { MeansOrMemory (λ _. types.new) result
        (declared_with_all types.old
        (map (λ entry. (entry.0.now, one entry.1 entry.2)) table.now)) }
    ensures fault { StopsAtOrMemory result (twice_named at) }
{
    for (name, type_number, size) in table {
        let shape = Shape {
            name: *type_number,
            size: *size,
            number: 1,
            is_bound: false,
        };
        if is_declared(name, types) {
            return Err(OrMemory::Fault(stop_at(StopReason::TwiceNamed, at)));
        }
        types.declare(name, shape)?;
    }
    Ok(())
}

/// Declares the types of the include line, which is at `at`.
fn declare_table(types: &mut Types<'_>, at: usize) -> Result<(), OrMemory<Stop>>
    ensures exact { MeansOrMemory (λ _. types.new) result
        (declared_with_all types.old table) }
    ensures fault { StopsAtOrMemory result (twice_named at) }
{
    declare_each(types, &TABLE, at)
}

/// Reads the include line, which is at `at`.
fn include(file: &mut File<'_>, at: usize) -> Result<(), OrMemory<Stop>>
    ensures exact { MeansOrMemory (λ _. state_of file.new) result
        (include_by (state_of file.old).has_table (state_of file.old)) }
    ensures fault { StopsAtOrMemory result (twice_named at) }
{
    if file.has_table {
        return Ok(());
    }
    declare_table(&mut file.types, at)?;
    file.has_table = true;
    Ok(())
}

/// Reads a line of the preprocessor, which is at `at`.
fn directive(file: &mut File<'_>, directive: Directive, at: usize) -> Result<(), OrMemory<Stop>>
    ensures exact { MeansOrMemory (λ _. state_of file.new) result
        (directive_by directive (state_of file.old)) }
    ensures fault { StopsAtOrMemory result (directive_stop directive at) }
{
    match directive {
        Directive::Marker => Ok(()),
        Directive::Include => include(file, at),
        Directive::Other => Err(OrMemory::Fault(stop_at(
            StopReason::LeftOut(Feature::Preprocessor),
            at,
        ))),
    }
}

/// Whether a line of the preprocessor comes next.
#[tactic(auto, unfolding(crate::specs::Files::begins_line))]
fn begins_line(rest: Rest<'_>) -> bool
    ensures { (s : State) → result ≡ begins_line (s, left rest.entry) }
{
    matches!(rest.first(), Symbol::Directive(_))
}

/// Reads a line of the preprocessor.
#[tactic(auto, unfolding(crate::specs::Stops::line_stop, crate::specs::Files::line_at))]
fn line<'t>(file: &mut File<'t>, rest: Rest<'t>) -> Result<Rest<'t>, OrMemory<Stop>>
    ensures exact { MeansOrMemory (λ x. (state_of file.new, left x)) result
        (line_at (state_of file.old, left rest.entry)) }
    ensures fault { StopsAtOrMemory result (line_stop (state_of file.old, left rest.entry)) }
{
    let Symbol::Directive(line) = rest.first() else {
        return Err(OrMemory::Fault(rest.unexpected()));
    };
    directive(file, line, rest.len())?;
    Ok(rest.next())
}

/// Reads the lines of the preprocessor in front of the subsystem.
#[tactic(auto, using(mrc_mig_symbols::proofs::LoopLemmas::many_ends, mrc_mig_symbols::proofs::LoopLemmas::many_goes_on, mrc_mig_symbols::proofs::LoopLemmas::many_stops_on, mrc_mig_symbols::proofs::LoopLemmas::many_done), unfolding(crate::specs::Stops::lines_stop, crate::specs::Files::lines_at))]
fn lines<'t>(file: &mut File<'t>, rest: Rest<'t>) -> Result<Rest<'t>, OrMemory<Stop>>
    ensures exact { MeansOrMemory (λ x. (state_of file.new, left x)) result
        (lines_at (state_of file.old) (left rest.entry)) }
    ensures fault { StopsAtOrMemory result (lines_stop (state_of file.old) (left rest.entry)) }
{
    let mut rest = rest;
    let count = rest.len();
    for _ in 0..count {
        if !begins_line(rest) {
            return Ok(rest);
        }
        rest = line(file, rest)?;
    }
    Ok(rest)
}

fn is_side(symbol: Symbol) -> bool
    ensures { result ≡ is_side symbol }
{
    matches!(symbol, Symbol::Word(Word::Side))
}

/// What follows `kernelserver` and `kerneluser`.
#[tactic(auto, using(crate::proofs::FileLemmas::sides_go_on, crate::proofs::FileLemmas::sides_end, crate::proofs::FileLemmas::side_is_shorter))]
fn sides(rest: Rest<'_>) -> Rest<'_>
    ensures { left result ≡ after_sides (left rest.entry) }
{
    let mut rest = rest;
    while is_side(rest.first()) {
        rest = rest.next();
    }
    rest
}

#[tactic(auto, unfolding(crate::specs::Files::number_at))]
fn number(rest: Rest<'_>) -> Result<(u32, Rest<'_>), Stop>
    ensures exact { Means (λ x. (x.0, left x.1)) result (number_at (left rest.entry)) }
    ensures fault { StopsAt result (unexpected (left rest.entry)) }
{
    match rest.first() {
        Symbol::Number(number) => Ok((number, rest.next())),
        _ => Err(rest.unexpected()),
    }
}

/// Reads `name number;`.
#[tactic(auto, unfolding(crate::specs::Stops::named_number_stop, crate::specs::Files::named_number_at))]
fn named_number(rest: Rest<'_>) -> Result<(&str, u32, Rest<'_>), Stop>
    ensures exact { Means (λ x. ((x.0.now, x.1), left x.2)) result
        (named_number_at (left rest.entry)) }
    ensures fault { StopsAt result (named_number_stop (left rest.entry)) }
{
    let (name, rest) = name(rest)?;
    let (base, rest) = number(rest)?;
    Ok((name, base, sign(rest, Sign::Semicolon)?))
}

/// Reads `subsystem name number;`.
#[tactic(auto, unfolding(crate::specs::Stops::heading_stop, crate::specs::Files::heading_at))]
fn heading(rest: Rest<'_>) -> Result<(&str, u32, Rest<'_>), Stop>
    ensures exact { Means (λ x. ((x.0.now, x.1), left x.2)) result (heading_at (left rest.entry)) }
    ensures fault { StopsAt result (heading_stop (left rest.entry)) }
{
    match rest.first() {
        Symbol::Word(Word::Subsystem) => named_number(sides(rest.next())),
        _ => Err(rest.unexpected()),
    }
}

/// Reads `name = type;`. The name is known after it.
#[tactic(auto, unfolding(crate::specs::Stops::declaration_stop, crate::specs::Files::declaration_at))]
fn declaration<'t>(
    alloc: Global,
    file: &mut File<'t>,
    rest: Rest<'t>,
) -> Result<Rest<'t>, OrMemory<Stop>>
    ensures exact { MeansOrMemory (λ x. (state_of file.new, left x)) result
        (declaration_at (state_of file.old) (left rest.entry)) }
    ensures fault { StopsAtOrMemory result
        (declaration_stop (state_of file.old) (left rest.entry)) }
{
    let at = rest.len();
    let (name, rest) = name(rest)?;
    if is_declared(name, &file.types) {
        return Err(OrMemory::Fault(stop_at(StopReason::TwiceNamed, at)));
    }
    let rest = sign(rest, Sign::Equals)?;
    let (shape, rest) = shape(alloc, &file.types, Use::Any, rest)?;
    let rest = options(rest)?;
    let rest = sign(rest, Sign::Semicolon)?;
    file.types.declare(name, shape)?;
    Ok(rest)
}

fn is_named(name: &str, entry: &Entry) -> bool
    ensures { result ≡ is_named name.now (row_of entry.now) }
{
    match entry {
        Entry::Routine { name: other, .. } | Entry::SimpleRoutine { name: other, .. } => {
            other.as_str() == name
        }
        Entry::Skip => false,
    }
}

fn is_routine(name: &str, entries: &[Entry]) -> bool
    ensures { result ≡ is_routine name.now (map row_of entries.now) }
{
    entries.iter().any(|entry| is_named(name, entry))
}

/// Reads `name (arguments);`.
#[tactic(auto, unfolding(crate::specs::Stops::routine_stop, crate::specs::Stops::closing_stop, crate::specs::Files::routine_at))]
fn routine<'t>(
    alloc: Global,
    file: &File<'t>,
    is_simple: bool,
    rest: Rest<'t>,
) -> Result<(&'t str, Vec<Argument>, Rest<'t>), OrMemory<Stop>>
    ensures exact { MeansOrMemory (λ x. ((x.0.now, map item_of x.1.items), left x.2)) result
        (routine_at is_simple (state_of file.now) (left rest.entry)) }
    ensures fault { StopsAtOrMemory result
        (routine_stop is_simple (state_of file.now) (left rest.entry)) }
{
    let at = rest.len();
    let (name, rest) = name(rest)?;
    if is_routine(name, file.entries.as_slice()) {
        return Err(OrMemory::Fault(stop_at(StopReason::TwiceNamed, at)));
    }
    let rest = sign(rest, Sign::OpenParenthesis)?;
    let (seen, rest) = arguments(alloc, &file.types, is_simple, rest)?;
    let at = rest.len();
    let rest = sign(rest, Sign::CloseParenthesis)?;
    let Some(arguments) = resolved(alloc, seen.as_slice())? else {
        return Err(OrMemory::Fault(stop_at(StopReason::NoRequestPort, at)));
    };
    let rest = sign(rest, Sign::Semicolon)?;
    Ok((name, arguments, rest))
}

/// Reads a statement that takes an id, behind its word.
fn row<'t>(
    alloc: Global,
    file: &mut File<'t>,
    word: Word,
    rest: Rest<'t>,
) -> Result<Rest<'t>, OrMemory<Stop>>
    ensures exact { MeansOrMemory (λ x. (state_of file.new, left x)) result
        (row_by word (state_of file.old) (left rest.entry)) }
    ensures fault { StopsAtOrMemory result
        (row_stop_by word (state_of file.old) (left rest.entry)) }
{
    match word {
        Word::Routine => {
            let (name, arguments, rest) = routine(alloc, file, false, rest)?;
            let name = String::from_str(alloc, name)?;
            file.entries.push(Entry::Routine { name, arguments })?;
            Ok(rest)
        }
        Word::SimpleRoutine => {
            let (name, arguments, rest) = routine(alloc, file, true, rest)?;
            let name = String::from_str(alloc, name)?;
            file.entries.push(Entry::SimpleRoutine { name, arguments })?;
            Ok(rest)
        }
        Word::Skip => {
            let rest = sign(rest, Sign::Semicolon)?;
            file.entries.push(Entry::Skip)?;
            Ok(rest)
        }
        _ => Err(OrMemory::Fault(rest.unexpected())),
    }
}

/// Reads a statement that takes an id, whose word is the first token.
#[tactic(auto, unfolding(crate::specs::Stops::row_stop, crate::specs::Files::row_at))]
fn entry<'t>(
    alloc: Global,
    file: &mut File<'t>,
    word: Word,
    rest: Rest<'t>,
) -> Result<Rest<'t>, OrMemory<Stop>>
    ensures exact { MeansOrMemory (λ x. (state_of file.new, left x)) result
        (row_at word (state_of file.old) (left rest.entry)) }
    ensures fault { StopsAtOrMemory result (row_stop word (state_of file.old) (left rest.entry)) }
{
    if file.entries.len() >= limits::FIRST_EDITION_IDS {
        return Err(OrMemory::Fault(rest.stop(StopReason::TooMany)));
    }
    row(alloc, file, word, rest.next())
}

/// Reads a string or a file's name, and `;`.
#[tactic(auto, unfolding(crate::specs::Stops::import_stop, crate::specs::Files::import_at))]
fn import(rest: Rest<'_>) -> Result<Rest<'_>, Stop>
    ensures exact { Means left result (import_at (left rest.entry)) }
    ensures fault { StopsAt result (import_stop (left rest.entry)) }
{
    match rest.first() {
        Symbol::Text | Symbol::Header => sign(rest.next(), Sign::Semicolon),
        _ => Err(rest.unexpected()),
    }
}

/// Reads a name and `;`.
#[tactic(auto, unfolding(crate::specs::Stops::prefix_stop, crate::specs::Files::prefix_at))]
fn prefix(rest: Rest<'_>) -> Result<Rest<'_>, Stop>
    ensures exact { Means left result (prefix_at (left rest.entry)) }
    ensures fault { StopsAt result (prefix_stop (left rest.entry)) }
{
    let (_, rest) = name(rest)?;
    sign(rest, Sign::Semicolon)
}

/// Reads a string and `;`.
#[tactic(auto, unfolding(crate::specs::Stops::rcsid_stop, crate::specs::Files::rcsid_at))]
fn rcsid(rest: Rest<'_>) -> Result<Rest<'_>, Stop>
    ensures exact { Means left result (rcsid_at (left rest.entry)) }
    ensures fault { StopsAt result (rcsid_stop (left rest.entry)) }
{
    match rest.first() {
        Symbol::Text => sign(rest.next(), Sign::Semicolon),
        _ => Err(rest.unexpected()),
    }
}

/// Reads a statement that begins with this word.
fn worded<'t>(
    alloc: Global,
    file: &mut File<'t>,
    word: Word,
    rest: Rest<'t>,
) -> Result<Rest<'t>, OrMemory<Stop>>
    ensures exact { MeansOrMemory (λ x. (state_of file.new, left x)) result
        (worded_by word (state_of file.old) (left rest.entry)) }
    ensures fault { StopsAtOrMemory result
        (worded_stop word (state_of file.old) (left rest.entry)) }
{
    match word {
        Word::Type => declaration(alloc, file, rest.next()),
        Word::Routine | Word::SimpleRoutine | Word::Skip => entry(alloc, file, word, rest),
        Word::Import => Ok(import(rest.next())?),
        Word::Prefix => Ok(prefix(rest.next())?),
        Word::Rcsid => Ok(rcsid(rest.next())?),
        Word::OldForm => Err(OrMemory::Fault(rest.stop(StopReason::LeftOut(Feature::OldForm)))),
        Word::Wait => Err(OrMemory::Fault(rest.stop(StopReason::LeftOut(Feature::Option)))),
        _ => Err(OrMemory::Fault(rest.unexpected())),
    }
}

/// Reads a statement.
#[tactic(auto, unfolding(crate::specs::Stops::statement_stop, crate::specs::Files::statement_at))]
fn statement<'t>(
    alloc: Global,
    file: &mut File<'t>,
    rest: Rest<'t>,
) -> Result<Rest<'t>, OrMemory<Stop>>
    ensures exact { MeansOrMemory (λ x. (state_of file.new, left x)) result
        (statement_at (state_of file.old, left rest.entry)) }
    ensures fault { StopsAtOrMemory result (statement_stop (state_of file.old, left rest.entry)) }
{
    match rest.first() {
        Symbol::Directive(line) => {
            directive(file, line, rest.len())?;
            Ok(rest.next())
        }
        Symbol::Word(word) => worded(alloc, file, word, rest),
        _ => Err(OrMemory::Fault(rest.unexpected())),
    }
}

/// Whether another statement follows.
#[tactic(auto, unfolding(crate::specs::Files::has_more))]
fn has_more(rest: Rest<'_>) -> bool
    ensures { (s : State) → result ≡ has_more (s, left rest.entry) }
{
    !rest.is_empty()
}

/// Reads the statements, as many as there are.
#[tactic(auto, using(mrc_mig_symbols::proofs::LoopLemmas::many_ends, mrc_mig_symbols::proofs::LoopLemmas::many_goes_on, mrc_mig_symbols::proofs::LoopLemmas::many_stops_on, mrc_mig_symbols::proofs::LoopLemmas::many_done))]
fn each_statement<'t>(
    alloc: Global,
    file: &mut File<'t>,
    rest: Rest<'t>,
) -> Result<Rest<'t>, OrMemory<Stop>>
    ensures exact { MeansOrMemory (λ x. (state_of file.new, left x)) result
        (many has_more statement_at (length (left rest.entry))
        (state_of file.old, left rest.entry)) }
    ensures fault { StopsAtOrMemory result
        (each_statement_stop (state_of file.old) (left rest.entry)) }
{
    let mut rest = rest;
    let count = rest.len();
    for _ in 0..count {
        if !has_more(rest) {
            return Ok(rest);
        }
        rest = statement(alloc, file, rest)?;
    }
    Ok(rest)
}

/// Reads the statements, up to the end.
#[tactic(auto, unfolding(crate::specs::Stops::statements_stop, crate::specs::Files::statements_at))]
fn statements<'t>(alloc: Global, file: &mut File<'t>, rest: Rest<'t>) -> Result<(), OrMemory<Stop>>
    ensures exact { MeansOrMemory (λ _. state_of file.new) result
        (statements_at (state_of file.old) (left rest.entry)) }
    ensures fault { StopsAtOrMemory result
        (statements_stop (state_of file.old) (left rest.entry)) }
{
    let rest = each_statement(alloc, file, rest)?;
    if rest.is_empty() {
        Ok(())
    } else {
        Err(OrMemory::Fault(rest.unexpected()))
    }
}

/// Reads a whole file.
#[tactic(auto, unfolding(crate::specs::Stops::file_stop, crate::specs::Files::meaning_of))]
fn whole_file(alloc: Global, tokens: &Tokens<'_>) -> Result<Subsystem, OrMemory<Stop>>
    ensures exact { MeansOrMemory (λ subsystem. subsystem) result (meaning_of tokens.now) }
    ensures fault { StopsAtOrMemory result (file_stop tokens.now) }
{
    let mut file = File {
        types: Types::new(alloc),
        has_table: false,
        entries: Vec::new(alloc),
    };
    let rest = lines(&mut file, Rest::new(tokens))?;
    let (name, base, rest) = heading(rest)?;
    statements(alloc, &mut file, rest)?;
    Ok(Subsystem {
        name: String::from_str(alloc, name)?,
        base,
        entries: file.entries,
    })
}

/// The subsystem that the tokens of a MIG file mean.
///
/// A fault is the first in the order of the tokens, and of faults at one place the first in the
/// order of [`ParseFault`]. Its place is an offset in bytes: mostly that of the first byte of the
/// token that cannot stand there, and the end of the last token where one is missing.
///
/// Source: the Server Writer's Guide for MIG. What is left out, and all limits, are this profile's
/// own choice.
pub fn parse(alloc: Global, tokens: &Tokens<'_>) -> Result<Subsystem, OrMemory<ParseFault>>
    // What is read is what the tokens are by the grammar.
    ensures found { IfOk result (λ subsystem. IsFile tokens.now subsystem) }
    // What they are by the grammar is read, unless memory runs out.
    ensures only { (m : Meaning) → IsFile tokens.now m →
        MeansOrMemory (λ subsystem. subsystem) result
        (Some m) }
    // So it is refused exactly where they are no file, unless memory runs out.
    ensures refused { MeansOrMemory (λ subsystem. subsystem) result (meaning_of tokens.now) }
    // Which fault it is: the first.
    ensures fault { Gives (λ subsystem. subsystem) result (meaning_or_fault tokens.now) }
{
    match whole_file(alloc, tokens) {
        Ok(subsystem) => Ok(subsystem),
        Err(OrMemory::Fault(stop)) => Err(OrMemory::Fault(fault_of(tokens, stop))),
        Err(OrMemory::Memory) => Err(OrMemory::Memory),
    }
}
