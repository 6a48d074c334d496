//! The arguments of a routine.
ghost use Rattle.std.specs.Prelude.{◌≡◌, ◌++◌, ◌&&◌, ◌||◌, List, not, map, count_by, length, OnOk};
ghost use Rattle.std.specs.Prelude.{IfOk};
ghost use Rattle.std.specs.List.{list_all};
ghost use Rattle.std.specs.Option.{option_map};
ghost use Rattle.mrc_mig_symbols.specs.Symbols.{Means, MeansOrMemory, many};
ghost use Rattle.mrc_mig_symbols.specs.Readers.{left};
ghost use Rattle.mrc_mig_parse.specs.Arguments.{Parameter, is_reply_port, is_marked, is_in, use_of};
ghost use Rattle.mrc_mig_parse.specs.Arguments.{is_of_port_type, has_reply_port, has_name};
ghost use Rattle.mrc_mig_parse.specs.Arguments.{direction_at, argument_name_at, argument_type_at};
ghost use Rattle.mrc_mig_parse.specs.Arguments.{own_type_at, known_type_at, argument_at, goes_on};
ghost use Rattle.mrc_mig_parse.specs.Arguments.{next_argument, some_arguments_at, arguments_at};
ghost use Rattle.mrc_mig_parse.specs.Arguments.{as_written, items_of, unmarked_items};
ghost use Rattle.mrc_mig_parse.specs.Meanings.{item_of};
ghost use Rattle.mrc_mig_parse.specs.Readers.{parameter_of};
ghost use Rattle.mrc_mig_parse.specs.Stops.{argument_name_stop, argument_stop, argument_type_stop};
ghost use Rattle.mrc_mig_parse.specs.Stops.{arguments_stop, direction_stop, known_type_stop};
ghost use Rattle.mrc_mig_parse.specs.Stops.{more_arguments_stop, own_type_stop};
ghost use Rattle.mrc_mig_symbols.specs.Symbols.{StopsAt, StopsAtOrMemory};

use crate::options::options;
use crate::subsystem::Argument;
use crate::table::Types;
use crate::types::{Use, declared, no_flag, shape};
use mrc_base::{OrMemory, is_port_number, limits};
use mrc_forms::Shape;
use mrc_mig_lex::Sign;
use mrc_mig_symbols::{
    Direction, Feature, Rest, Stop, StopReason, Symbol, Word, name, sign, stop_at,
};
use std::alloc::{AllocError, Global};

/// An argument as it is written.
#[derive(Clone, Copy, Debug, PartialEq, Eq)]
pub struct Written<'t> {
    /// Its name.
    pub name: &'t str,
    /// The word in front of it, if there is one.
    pub direction: Option<Direction>,
    /// Its data.
    pub shape: Shape,
    /// The name after the colon.
    pub type_name: &'t str,
}

fn is_reply_port(direction: Option<Direction>) -> bool
    ensures { result ≡ is_reply_port direction }
{
    matches!(direction, Some(Direction::ReplyPort))
}

fn is_marked(written: &Written<'_>) -> bool
    ensures { result ≡ is_marked (parameter_of written.now) }
{
    matches!(written.direction, Some(Direction::RequestPort))
}

fn has_reply_port(seen: &[Written<'_>]) -> bool
    ensures { result ≡ has_reply_port (map parameter_of seen.now) }
{
    seen.iter().any(|written| is_reply_port(written.direction))
}

fn has_name(name: &str, seen: &[Written<'_>]) -> bool
    ensures { result ≡ has_name name.now (map parameter_of seen.now) }
{
    seen.iter().any(|written| written.name == name)
}

/// Reads the word in front of an argument, behind those that were seen.
#[tactic(auto, unfolding(crate::specs::Stops::direction_stop, crate::specs::Arguments::direction_at))]
fn direction<'t>(
    seen: &[Written<'t>],
    is_simple: bool,
    rest: Rest<'t>,
) -> Result<(Option<Direction>, Rest<'t>), Stop>
    ensures exact { Means (λ x. (x.0, left x.1)) result
        (direction_at (map parameter_of seen.now) is_simple (left rest.entry)) }
    ensures fault { StopsAt result
        (direction_stop (map parameter_of seen.now) is_simple (left rest.entry)) }
{
    let Symbol::Word(Word::Direction(direction)) = rest.first() else {
        return Ok((None, rest));
    };
    if is_reply_port(Some(direction)) && (is_simple || has_reply_port(seen)) {
        return Err(rest.stop(StopReason::LeftOut(Feature::ReplyPort)));
    }
    if seen.len() >= limits::ARGUMENTS {
        return Err(rest.stop(StopReason::TooMany));
    }
    Ok((Some(direction), rest.next()))
}

/// Reads an argument's name.
#[tactic(auto, unfolding(crate::specs::Stops::argument_name_stop, crate::specs::Arguments::argument_name_at, mrc_mig_symbols::specs::Symbols::name_at))]
fn argument_name<'t>(
    seen: &[Written<'t>],
    direction: Option<Direction>,
    rest: Rest<'t>,
) -> Result<(&'t str, Rest<'t>), Stop>
    ensures exact { Means (λ x. (x.0.now, left x.1)) result
        (argument_name_at (map parameter_of seen.now) (left rest.entry)) }
    ensures fault { StopsAt result
        (argument_name_stop (map parameter_of seen.now) direction (left rest.entry)) }
{
    let at = rest.len();
    match (direction, rest.first()) {
        (None, Symbol::Word(Word::Wait | Word::PortOption)) => {
            return Err(stop_at(StopReason::LeftOut(Feature::Option), at));
        }
        _ => {}
    }
    let (name, rest) = name(rest)?;
    if has_name(name, seen) {
        return Err(stop_at(StopReason::TwiceNamed, at));
    }
    if seen.len() >= limits::ARGUMENTS {
        return Err(stop_at(StopReason::TooMany, at));
    }
    Ok((name, rest))
}

/// Reads a name, `=` and a type.
#[tactic(auto, unfolding(crate::specs::Stops::own_type_stop, crate::specs::Arguments::own_type_at))]
fn own_type<'t>(
    alloc: Global,
    types: &Types<'t>,
    wanted: Use,
    rest: Rest<'t>,
) -> Result<(&'t str, Shape, Rest<'t>), OrMemory<Stop>>
    ensures exact { MeansOrMemory (λ x. ((x.0.now, x.1), left x.2)) result
        (own_type_at types.now wanted (left rest.entry)) }
    ensures fault { StopsAtOrMemory result (own_type_stop types.now wanted (left rest.entry)) }
{
    let (type_name, rest) = name(rest)?;
    let (shape, rest) = shape(alloc, types, wanted, rest.next())?;
    Ok((type_name, shape, options(rest)?))
}

/// Reads the name of a declared type.
#[tactic(auto, unfolding(crate::specs::Stops::known_type_stop, crate::specs::Arguments::known_type_at))]
fn known_type<'t>(
    types: &Types<'t>,
    wanted: Use,
    rest: Rest<'t>,
) -> Result<(&'t str, Shape, Rest<'t>), Stop>
    ensures exact { Means (λ x. ((x.0.now, x.1), left x.2)) result
        (known_type_at types.now wanted (left rest.entry)) }
    ensures fault { StopsAt result (known_type_stop types.now wanted (left rest.entry)) }
{
    let type_name = rest.text();
    let (shape, rest) = declared(types, wanted, rest)?;
    no_flag(rest)?;
    Ok((type_name, shape, rest))
}

/// Reads an argument's type, which is declared or follows a `=`.
#[tactic(auto, unfolding(crate::specs::Stops::argument_type_stop, crate::specs::Arguments::argument_type_at))]
fn argument_type<'t>(
    alloc: Global,
    types: &Types<'t>,
    wanted: Use,
    rest: Rest<'t>,
) -> Result<(&'t str, Shape, Rest<'t>), OrMemory<Stop>>
    ensures exact { MeansOrMemory (λ x. ((x.0.now, x.1), left x.2)) result
        (argument_type_at types.now wanted (left rest.entry)) }
    ensures fault { StopsAtOrMemory result
        (argument_type_stop types.now wanted (left rest.entry)) }
{
    match (rest.first(), rest.next().first()) {
        (Symbol::Name, Symbol::Sign(Sign::Equals)) => own_type(alloc, types, wanted, rest),
        (Symbol::Name, _) => Ok(known_type(types, wanted, rest)?),
        (Symbol::Word(Word::Polymorphic), _) => {
            Err(OrMemory::Fault(rest.stop(StopReason::LeftOut(Feature::Polymorphic))))
        }
        _ => Err(OrMemory::Fault(rest.unexpected())),
    }
}

fn use_of(direction: Option<Direction>) -> Use
    ensures { result ≡ use_of direction }
{
    match direction {
        Some(Direction::ReplyPort) => Use::ReplyPort,
        _ => Use::Any,
    }
}

/// Reads an argument and puts it behind those that were seen.
#[tactic(auto, unfolding(crate::specs::Stops::argument_stop, crate::specs::Arguments::argument_at))]
fn argument<'t>(
    alloc: Global,
    types: &Types<'t>,
    is_simple: bool,
    seen: &mut Vec<Written<'t>>,
    rest: Rest<'t>,
) -> Result<Rest<'t>, OrMemory<Stop>>
    ensures exact { MeansOrMemory (λ x. (map parameter_of seen.new.items, left x)) result
        (argument_at types.now is_simple (map parameter_of seen.old.items)
        (left rest.entry)) }
    ensures fault { StopsAtOrMemory result
        (argument_stop types.now is_simple (map parameter_of seen.old.items) (left rest.entry)) }
{
    let (direction, rest) = direction(seen.as_slice(), is_simple, rest)?;
    let (name, rest) = argument_name(seen.as_slice(), direction, rest)?;
    let rest = sign(rest, Sign::Colon)?;
    let (type_name, shape, rest) = argument_type(alloc, types, use_of(direction), rest)?;
    seen.push(Written {
        name,
        direction,
        shape,
        type_name,
    })?;
    Ok(rest)
}

/// Whether another argument follows.
#[tactic(auto, unfolding(crate::specs::Arguments::goes_on))]
fn goes_on(rest: Rest<'_>) -> bool
    ensures { (seen : List Parameter) → result ≡ goes_on (seen, left rest.entry) }
{
    matches!(rest.first(), Symbol::Sign(Sign::Semicolon))
}

/// Reads the arguments behind the first.
#[tactic(auto, using(mrc_mig_symbols::proofs::LoopLemmas::many_ends, mrc_mig_symbols::proofs::LoopLemmas::many_goes_on, mrc_mig_symbols::proofs::LoopLemmas::many_stops_on, mrc_mig_symbols::proofs::LoopLemmas::many_done), unfolding(crate::specs::Stops::next_argument_stop, crate::specs::Arguments::next_argument))]
fn more_arguments<'t>(
    alloc: Global,
    types: &Types<'t>,
    is_simple: bool,
    seen: &mut Vec<Written<'t>>,
    rest: Rest<'t>,
) -> Result<Rest<'t>, OrMemory<Stop>>
    ensures exact { MeansOrMemory (λ x. (map parameter_of seen.new.items, left x)) result
        (many goes_on (next_argument types.now is_simple)
        (length (left rest.entry)) (map parameter_of seen.old.items, left rest.entry)) }
    ensures fault { StopsAtOrMemory result
        (more_arguments_stop types.now is_simple
        (map parameter_of seen.old.items) (left rest.entry)) }
{
    let mut rest = rest;
    let count = rest.len();
    for _ in 0..count {
        if !goes_on(rest) {
            return Ok(rest);
        }
        rest = argument(alloc, types, is_simple, seen, rest.next())?;
    }
    Ok(rest)
}

/// Reads the first argument and those behind it.
#[tactic(auto, unfolding(crate::specs::Stops::arguments_stop, crate::specs::Arguments::some_arguments_at))]
fn some_arguments<'t>(
    alloc: Global,
    types: &Types<'t>,
    is_simple: bool,
    rest: Rest<'t>,
) -> Result<(Vec<Written<'t>>, Rest<'t>), OrMemory<Stop>>
    ensures exact { MeansOrMemory (λ x. (map parameter_of x.0.items, left x.1)) result
        (some_arguments_at types.now is_simple (left rest.entry)) }
    ensures fault { StopsAtOrMemory result
        (arguments_stop types.now is_simple (left rest.entry)) }
{
    let mut seen = Vec::new(alloc);
    let rest = argument(alloc, types, is_simple, &mut seen, rest)?;
    let rest = more_arguments(alloc, types, is_simple, &mut seen, rest)?;
    Ok((seen, rest))
}

/// Reads the arguments up to the parenthesis that closes them.
#[tactic(auto, unfolding(crate::specs::Arguments::arguments_at))]
pub fn arguments<'t>(
    alloc: Global,
    types: &Types<'t>,
    is_simple: bool,
    rest: Rest<'t>,
) -> Result<(Vec<Written<'t>>, Rest<'t>), OrMemory<Stop>>
    ensures exact { MeansOrMemory (λ x. (map parameter_of x.0.items, left x.1)) result
        (arguments_at types.now is_simple (left rest.entry)) }
    ensures fault { StopsAtOrMemory result
        (arguments_stop types.now is_simple (left rest.entry)) }
{
    match rest.first() {
        Symbol::Sign(Sign::CloseParenthesis) => Ok((Vec::new(alloc), rest)),
        _ => some_arguments(alloc, types, is_simple, rest),
    }
}

fn marked_count(seen: &[Written<'_>]) -> usize
    ensures { result ≡ count_by is_marked (map parameter_of seen.now) }
{
    seen.iter().filter(|written| is_marked(written)).count()
}

fn marked_are_ports(seen: &[Written<'_>]) -> bool
    ensures { result ≡
        list_all (λ p. not (is_marked p) || is_of_port_type p) (map parameter_of seen.now) }
{
    seen.iter().all(|written| !is_marked(written) || is_port_number(written.shape.name))
}

/// Whether a first argument that is not marked can be the request port.
fn may_be_request_port(written: &Written<'_>) -> bool
    ensures { result ≡ is_in written.now.direction && is_of_port_type (parameter_of written.now) }
{
    let is_in = match written.direction {
        None | Some(Direction::In) => true,
        Some(_) => false,
    };
    is_in && is_port_number(written.shape.name)
}

fn with_direction(
    alloc: Global,
    written: &Written<'_>,
    direction: Direction,
) -> Result<Argument, AllocError>
    ensures { IfOk result (λ a. item_of a ≡
        record {
          name = written.now.name.now;
          direction = direction;
          shape = written.now.shape;
          type_name = written.now.type_name.now;
        }) }
{
    Ok(Argument {
        name: String::from_str(alloc, written.name)?,
        direction,
        shape: written.shape,
        type_name: String::from_str(alloc, written.type_name)?,
    })
}

/// Puts the arguments behind others, as they are written.
fn push_each(
    alloc: Global,
    arguments: &mut Vec<Argument>,
    seen: &[Written<'_>],
) -> Result<(), AllocError>
    ensures { OnOk result (map item_of arguments.new.items ≡
        map item_of arguments.old.items ++ map as_written (map parameter_of seen.now)) }
{
    for written in seen {
        let direction = written.direction.unwrap_or(Direction::In);
        arguments.push(with_direction(alloc, written, direction)?)?;
    }
    Ok(())
}

/// The arguments where none is marked, if the first can be the request port.
fn unmarked(alloc: Global, seen: &[Written<'_>]) -> Result<Option<Vec<Argument>>, AllocError>
    ensures { IfOk result (λ found. option_map (λ v. map item_of v.items) found ≡
        unmarked_items (map parameter_of seen.now)) }
{
    let mut arguments = Vec::new(alloc);
    match seen {
        [first, others @ ..] if may_be_request_port(first) => {
            arguments.push(with_direction(alloc, first, Direction::RequestPort)?)?;
            push_each(alloc, &mut arguments, others)?;
            Ok(Some(arguments))
        }
        _ => Ok(None),
    }
}

/// The arguments with the way that each goes, if exactly one is the request port.
#[tactic(auto, unfolding(crate::specs::Arguments::items_of))]
pub fn resolved(alloc: Global, seen: &[Written<'_>]) -> Result<Option<Vec<Argument>>, AllocError>
    ensures { IfOk result (λ found. option_map (λ v. map item_of v.items) found ≡
        items_of (map parameter_of seen.now)) }
{
    let marked = marked_count(seen);
    if marked == 0 {
        return unmarked(alloc, seen);
    }
    if marked > 1 || !marked_are_ports(seen) {
        return Ok(None);
    }
    let mut arguments = Vec::new(alloc);
    push_each(alloc, &mut arguments, seen)?;
    Ok(Some(arguments))
}
