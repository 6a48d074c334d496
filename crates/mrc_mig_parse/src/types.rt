//! The types of arguments.

ghost use Rattle.std.specs.Prelude.{◌≡◌, not};
ghost use Rattle.mrc_mig_symbols.specs.Symbols.{Means, MeansOrMemory, guard, first_of};
ghost use Rattle.mrc_mig_symbols.specs.Readers.{left};
ghost use Rattle.mrc_mig_symbols.specs.Symbols.{tail_of};
ghost use Rattle.mrc_mig_parse.specs.Types.{fits_use, times, dimension_at, variable_dimension_at};
ghost use Rattle.mrc_mig_parse.specs.Types.{after_of, is_empty_brackets, array_at, structure_at};
ghost use Rattle.mrc_mig_parse.specs.Types.{begins_layer, layer_at, layers_at, items, is_bar};
ghost use Rattle.mrc_mig_parse.specs.Types.{flag_follows, basic_item, size_at, sized_at, plain_by};
ghost use Rattle.mrc_mig_parse.specs.Types.{declared_at, nested, named_at, string_at, shape_at};
ghost use Rattle.mrc_mig_parse.specs.Stops.{array_stop, basic_item_stop, declared_stop};
ghost use Rattle.mrc_mig_parse.specs.Stops.{dimension_stop, flag_stop, layer_stop, layers_stop};
ghost use Rattle.mrc_mig_parse.specs.Stops.{named_stop, nested_stop, pair_stop, plain_stop};
ghost use Rattle.mrc_mig_parse.specs.Stops.{shape_stop, size_stop, sized_stop, string_stop};
ghost use Rattle.mrc_mig_parse.specs.Stops.{structure_stop, too_many, use_stop};
ghost use Rattle.mrc_mig_parse.specs.Stops.{variable_dimension_stop};
ghost use Rattle.mrc_mig_symbols.specs.Symbols.{StopsAt, StopsAtOrMemory, unexpected};

use crate::table::Types;
use mrc_base::{Disp, OrMemory, is_port_number, limits};
use mrc_forms::Shape;
use mrc_mig_lex::Sign;
use mrc_mig_symbols::{
    Basic, Feature, Rest, Stop, StopReason, Symbol, Word, basic_of, expression, sign, stop_at,
};
use std::alloc::Global;

/// The most bits of an item.
const MOST_BITS: u32 = 65_528;
/// The type number of a string of characters.
const STRING: u16 = 12;

/// What a type is for.
#[derive(Clone, Copy, Debug, PartialEq, Eq)]
pub enum Use {
    /// Any argument but a reply port, or a declaration.
    Any,
    /// A reply port: a send-once right that is made or moved.
    ReplyPort,
}

/// Refuses a type number that does not fit the use, at the token that gives the number.
fn check_use(wanted: Use, name: u16, at: usize) -> Result<(), Stop>
    ensures exact { Means (λ _. tt) result (guard (fits_use wanted name)) }
    ensures fault { StopsAt result (use_stop at) }
{
    match wanted {
        Use::Any => Ok(()),
        Use::ReplyPort => {
            if name == Disp::MoveSendOnce.number() || name == Disp::MakeSendOnce.number() {
                Ok(())
            } else {
                Err(stop_at(StopReason::LeftOut(Feature::ReplyPort), at))
            }
        }
    }
}

/// The arrays and structs around a type.
#[derive(Clone, Copy, Debug, PartialEq, Eq)]
struct Around {
    /// There is one at least.
    is_inside: bool,
    /// The product of their numbers of items.
    number: u32,
    /// The outermost one is an array of variable length.
    is_bound: bool,
}

impl Around {
    /// With so many items for each one, where that number begins at `at`.
    #[tactic(auto, unfolding(crate::specs::Types::times))]
    fn times(self, number: u32, at: usize) -> Result<u32, Stop>
        ensures exact { Means (λ n. n) result (times self number) }
        ensures fault { StopsAt result (too_many at) }
    {
        let product = self.number as u64 * number as u64;
        if product == 0 || product > limits::ITEMS as u64 {
            return Err(stop_at(StopReason::TooMany, at));
        }
        Ok(product as u32)
    }
}

/// Reads `n]`, from behind the opening bracket, as a count among those around it. Answers the
/// counts with it.
#[tactic(auto, unfolding(crate::specs::Stops::dimension_stop, crate::specs::Types::dimension_at))]
fn dimension(
    alloc: Global,
    around: Around,
    is_bound: bool,
    rest: Rest<'_>,
) -> Result<(Around, Rest<'_>), OrMemory<Stop>>
    ensures exact { MeansOrMemory (λ x. (x.0, left x.1)) result
        (dimension_at around is_bound (left rest.entry)) }
    ensures fault { StopsAtOrMemory result (dimension_stop around (left rest.entry)) }
{
    let at = rest.len();
    let (number, rest) = expression(alloc, rest)?;
    let number = around.times(number, at)?;
    let rest = sign(rest, Sign::CloseBracket)?;
    Ok((
        Around {
            is_inside: true,
            number,
            is_bound: around.is_bound || is_bound,
        },
        rest,
    ))
}

/// Reads `[n]` or `[*:n]`, of an array or a string whose word is at `at`.
#[tactic(auto, unfolding(crate::specs::Stops::variable_dimension_stop, crate::specs::Types::variable_dimension_at))]
fn variable_dimension(
    alloc: Global,
    around: Around,
    at: usize,
    rest: Rest<'_>,
) -> Result<(Around, Rest<'_>), OrMemory<Stop>>
    ensures exact { MeansOrMemory (λ x. (x.0, left x.1)) result
        (variable_dimension_at around (left rest.entry)) }
    ensures fault { StopsAtOrMemory result (variable_dimension_stop around at (left rest.entry)) }
{
    let rest = sign(rest, Sign::OpenBracket)?;
    match rest.first() {
        Symbol::Sign(Sign::Star) => {
            if around.is_inside {
                return Err(OrMemory::Fault(stop_at(StopReason::LeftOut(Feature::Nested), at)));
            }
            let rest = sign(rest.next(), Sign::Colon)?;
            dimension(alloc, around, true, rest)
        }
        _ => dimension(alloc, around, false, rest),
    }
}

#[tactic(auto, unfolding(crate::specs::Types::after_of))]
fn of(rest: Rest<'_>) -> Result<Rest<'_>, Stop>
    ensures exact { Means left result (after_of (left rest.entry)) }
    ensures fault { StopsAt result (unexpected (left rest.entry)) }
{
    match rest.first() {
        Symbol::Word(Word::Of) => Ok(rest.next()),
        _ => Err(rest.unexpected()),
    }
}

/// Whether `[]` comes next.
fn is_empty_brackets(rest: Rest<'_>) -> bool
    ensures { result ≡
        is_empty_brackets (first_of (left rest.entry)) (first_of (tail_of (left rest.entry))) }
{
    match (rest.first(), rest.next().first()) {
        (Symbol::Sign(Sign::OpenBracket), Symbol::Sign(Sign::CloseBracket)) => true,
        _ => false,
    }
}

/// Reads an array's dimension, whose word is at `at`, and `of`.
#[tactic(auto, using(crate::proofs::TypeLemmas::no_array), unfolding(crate::specs::Stops::array_stop, crate::specs::Types::array_at))]
fn array(
    alloc: Global,
    around: Around,
    at: usize,
    rest: Rest<'_>,
) -> Result<(Around, Rest<'_>), OrMemory<Stop>>
    ensures exact { MeansOrMemory (λ x. (x.0, left x.1)) result
        (array_at around (left rest.entry)) }
    ensures fault { StopsAtOrMemory result (array_stop around at (left rest.entry)) }
{
    if is_empty_brackets(rest) {
        return Err(OrMemory::Fault(stop_at(StopReason::LeftOut(Feature::OutOfLine), at)));
    }
    let (around, rest) = variable_dimension(alloc, around, at, rest)?;
    Ok((around, of(rest)?))
}

/// Reads a struct's dimension, and `of`.
#[tactic(auto, unfolding(crate::specs::Stops::structure_stop, crate::specs::Types::structure_at))]
fn structure(
    alloc: Global,
    around: Around,
    rest: Rest<'_>,
) -> Result<(Around, Rest<'_>), OrMemory<Stop>>
    ensures exact { MeansOrMemory (λ x. (x.0, left x.1)) result
        (structure_at around (left rest.entry)) }
    ensures fault { StopsAtOrMemory result (structure_stop around (left rest.entry)) }
{
    let rest = sign(rest, Sign::OpenBracket)?;
    let (around, rest) = dimension(alloc, around, false, rest)?;
    Ok((around, of(rest)?))
}

/// Whether an array or a struct comes next.
#[tactic(auto, unfolding(crate::specs::Types::begins_layer))]
fn begins_layer(rest: Rest<'_>) -> bool
    ensures { (around : Around) → result ≡ begins_layer (around, left rest.entry) }
{
    match rest.first() {
        Symbol::Word(Word::Array | Word::Struct) => true,
        _ => false,
    }
}

/// Reads an array or a struct.
#[tactic(auto, unfolding(crate::specs::Stops::layer_stop, crate::specs::Types::layer_at))]
fn layer(
    alloc: Global,
    around: Around,
    rest: Rest<'_>,
) -> Result<(Around, Rest<'_>), OrMemory<Stop>>
    ensures exact { MeansOrMemory (λ x. (x.0, left x.1)) result
        (layer_at (around, left rest.entry)) }
    ensures fault { StopsAtOrMemory result (layer_stop (around, left rest.entry)) }
{
    match rest.first() {
        Symbol::Word(Word::Array) => array(alloc, around, rest.len(), rest.next()),
        Symbol::Word(Word::Struct) => structure(alloc, around, rest.next()),
        _ => Err(OrMemory::Fault(rest.unexpected())),
    }
}

/// Reads the arrays and structs in front of a type.
#[tactic(auto, using(mrc_mig_symbols::proofs::LoopLemmas::many_ends, mrc_mig_symbols::proofs::LoopLemmas::many_goes_on, mrc_mig_symbols::proofs::LoopLemmas::many_stops_on, mrc_mig_symbols::proofs::LoopLemmas::many_done), unfolding(crate::specs::Stops::layers_stop, crate::specs::Types::layers_at))]
fn arrays(alloc: Global, rest: Rest<'_>) -> Result<(Around, Rest<'_>), OrMemory<Stop>>
    ensures exact { MeansOrMemory (λ x. (x.0, left x.1)) result (layers_at (left rest.entry)) }
    ensures fault { StopsAtOrMemory result (layers_stop (left rest.entry)) }
{
    let mut around = Around {
        is_inside: false,
        number: 1,
        is_bound: false,
    };
    let mut rest = rest;
    let count = rest.len();
    for _ in 0..count {
        if !begins_layer(rest) {
            return Ok((around, rest));
        }
        let (more, after) = layer(alloc, around, rest)?;
        around = more;
        rest = after;
    }
    Ok((around, rest))
}

/// The shape of items of a basic type.
fn items(around: Around, name: u16, size: u16) -> Shape
    ensures { result ≡ items around name size }
{
    Shape {
        name,
        size,
        number: around.number,
        is_bound: around.is_bound,
    }
}

/// Refuses a flag of an argument, with a comma before it or none.
#[tactic(auto, unfolding(crate::specs::Stops::flag_stop, crate::specs::Types::flag_follows))]
pub fn no_flag(rest: Rest<'_>) -> Result<(), Stop>
    ensures exact { Means (λ _. tt) result (guard (not (flag_follows (left rest.entry)))) }
    ensures fault { StopsAt result (flag_stop (left rest.entry)) }
{
    let (flag, at) = match rest.first() {
        Symbol::Sign(Sign::Comma) => (rest.next().first(), rest.next().len()),
        symbol => (symbol, rest.len()),
    };
    match flag {
        Symbol::Word(Word::Flag) => Err(stop_at(StopReason::LeftOut(Feature::Option), at)),
        Symbol::Word(Word::Dealloc) => Err(stop_at(StopReason::LeftOut(Feature::OutOfLine), at)),
        _ => Ok(()),
    }
}

fn no_pair(rest: Rest<'_>) -> Result<(), Stop>
    ensures exact { Means (λ _. tt) result (guard (not (is_bar (first_of (left rest.entry))))) }
    ensures fault { StopsAt result (pair_stop (left rest.entry)) }
{
    match rest.first() {
        Symbol::Sign(Sign::Bar) => Err(rest.stop(StopReason::LeftOut(Feature::Pair))),
        _ => Ok(()),
    }
}

/// The type number of a basic type at `at`, and its size where it has one, else 0.
fn basic_item(basic: Basic, wanted: Use, at: usize) -> Result<(u16, u16), Stop>
    ensures exact { Means (λ x. x) result (basic_item basic wanted) }
    ensures fault { StopsAt result (basic_item_stop basic at) }
{
    let (name, size) = match basic {
        Basic::Plain(name, size) => (name, size),
        Basic::Unsized(name) => (name, 0),
        Basic::Polymorphic => return Err(stop_at(StopReason::LeftOut(Feature::Polymorphic), at)),
        Basic::Real => return Err(stop_at(StopReason::LeftOut(Feature::Real), at)),
    };
    check_use(wanted, name, at)?;
    Ok((name, size))
}

/// Reads `name, size)` after the parenthesis. A flag may stand behind the size alone, to be refused
/// as one.
#[tactic(auto, unfolding(crate::specs::Stops::sized_stop, crate::specs::Stops::size_part_stop, crate::specs::Types::sized_at, crate::specs::Types::basic_at))]
fn sized(alloc: Global, wanted: Use, rest: Rest<'_>) -> Result<(u16, u16, Rest<'_>), OrMemory<Stop>>
    ensures exact { MeansOrMemory (λ x. ((x.0, x.1), left x.2)) result
        (sized_at wanted (left rest.entry)) }
    ensures fault { StopsAtOrMemory result (sized_stop wanted (left rest.entry)) }
{
    let basic = match rest.first() {
        Symbol::Name => basic_of(rest.text()),
        Symbol::Word(Word::Polymorphic) => Some(Basic::Polymorphic),
        _ => None,
    };
    let Some(basic) = basic else {
        return Err(OrMemory::Fault(rest.unexpected()));
    };
    let (name, _) = basic_item(basic, wanted, rest.len())?;
    let rest = rest.next();
    no_pair(rest)?;
    let rest = sign(rest, Sign::Comma)?;
    let (size, rest) = size_of(alloc, name, rest)?;
    no_flag(rest)?;
    Ok((name, size, sign(rest, Sign::CloseParenthesis)?))
}

#[tactic(auto, unfolding(crate::specs::Stops::size_stop, crate::specs::Types::size_at))]
fn size_of(alloc: Global, name: u16, rest: Rest<'_>) -> Result<(u16, Rest<'_>), OrMemory<Stop>>
    ensures exact { MeansOrMemory (λ x. (x.0, left x.1)) result (size_at name (left rest.entry)) }
    ensures fault { StopsAtOrMemory result (size_stop (left rest.entry)) }
{
    let (size, after) = expression(alloc, rest)?;
    if size == 0 || size > MOST_BITS || size % 8 != 0 || is_port_number(name) && size != 32 {
        return Err(OrMemory::Fault(rest.unexpected()));
    }
    Ok((size as u16, after))
}

/// Reads the name of a basic type with no size of its own.
fn plain<'t>(
    basic: Basic,
    around: Around,
    wanted: Use,
    rest: Rest<'t>,
) -> Result<(Shape, Rest<'t>), Stop>
    ensures exact { Means (λ x. (x.0, left x.1)) result
        (plain_by basic around wanted (left rest.entry)) }
    ensures fault { StopsAt result (plain_stop basic wanted (left rest.entry)) }
{
    let Basic::Unsized(_) = basic else {
        let (name, size) = basic_item(basic, wanted, rest.len())?;
        no_pair(rest.next())?;
        return Ok((items(around, name, size), rest.next()));
    };
    Err(rest.unexpected())
}

/// Reads the name of a declared type.
#[tactic(auto, unfolding(crate::specs::Stops::declared_stop, crate::specs::Types::declared_at))]
pub fn declared<'t>(
    types: &Types<'t>,
    wanted: Use,
    rest: Rest<'t>,
) -> Result<(Shape, Rest<'t>), Stop>
    ensures exact { Means (λ x. (x.0, left x.1)) result
        (declared_at types.now wanted (left rest.entry)) }
    ensures fault { StopsAt result (declared_stop types.now (left rest.entry)) }
{
    let Some(shape) = types.get(rest.text()) else {
        return Err(rest.stop(StopReason::UnknownType));
    };
    check_use(wanted, shape.name, rest.len())?;
    Ok((shape, rest.next()))
}

/// The shape of a declared type at `at`, with what is around it.
#[tactic(auto, unfolding(crate::specs::Stops::nested_stop, crate::specs::Types::nested))]
fn nested(around: Around, shape: Shape, at: usize) -> Result<Shape, Stop>
    ensures exact { Means (λ x. x) result (nested around shape) }
    ensures fault { StopsAt result (nested_stop around shape at) }
{
    if around.is_inside && shape.is_bound {
        return Err(stop_at(StopReason::LeftOut(Feature::Nested), at));
    }
    Ok(Shape {
        number: around.times(shape.number, at)?,
        is_bound: around.is_bound || shape.is_bound,
        ..shape
    })
}

/// Reads a name in the place of a type.
#[tactic(auto, unfolding(crate::specs::Stops::named_stop, crate::specs::Types::named_at))]
fn named<'t>(
    types: &Types<'t>,
    around: Around,
    wanted: Use,
    rest: Rest<'t>,
) -> Result<(Shape, Rest<'t>), Stop>
    ensures exact { Means (λ x. (x.0, left x.1)) result
        (named_at types.now around wanted (left rest.entry)) }
    ensures fault { StopsAt result (named_stop types.now around wanted (left rest.entry)) }
{
    match basic_of(rest.text()) {
        Some(basic) => plain(basic, around, wanted, rest),
        None => {
            let (shape, after) = declared(types, wanted, rest)?;
            Ok((nested(around, shape, rest.len())?, after))
        }
    }
}

/// Reads a string's dimension, whose word is at `at`.
#[tactic(auto, unfolding(crate::specs::Stops::string_stop, crate::specs::Types::string_at))]
fn string<'t>(
    alloc: Global,
    around: Around,
    wanted: Use,
    at: usize,
    rest: Rest<'t>,
) -> Result<(Shape, Rest<'t>), OrMemory<Stop>>
    ensures exact { MeansOrMemory (λ x. (x.0, left x.1)) result
        (string_at around wanted (left rest.entry)) }
    ensures fault { StopsAtOrMemory result (string_stop around wanted at (left rest.entry)) }
{
    check_use(wanted, STRING, at)?;
    let (around, rest) = variable_dimension(alloc, around, at, rest)?;
    Ok((items(around, STRING, 8), rest))
}

/// Reads a type.
#[tactic(auto, unfolding(crate::specs::Stops::shape_stop, crate::specs::Types::shape_at))]
pub fn shape<'t>(
    alloc: Global,
    types: &Types<'t>,
    wanted: Use,
    rest: Rest<'t>,
) -> Result<(Shape, Rest<'t>), OrMemory<Stop>>
    ensures exact { MeansOrMemory (λ x. (x.0, left x.1)) result
        (shape_at types.now wanted (left rest.entry)) }
    ensures fault { StopsAtOrMemory result (shape_stop types.now wanted (left rest.entry)) }
{
    let (around, rest) = arrays(alloc, rest)?;
    let at = rest.len();
    match rest.first() {
        Symbol::Name => Ok(named(types, around, wanted, rest)?),
        Symbol::Word(Word::CString) => string(alloc, around, wanted, at, rest.next()),
        Symbol::Sign(Sign::OpenParenthesis) => {
            let (name, size, rest) = sized(alloc, wanted, rest.next())?;
            Ok((items(around, name, size), rest))
        }
        Symbol::Word(Word::Polymorphic) => Err(OrMemory::Fault(stop_at(
            StopReason::LeftOut(Feature::Polymorphic),
            at,
        ))),
        Symbol::Sign(Sign::Caret) => Err(OrMemory::Fault(stop_at(
            StopReason::LeftOut(Feature::OutOfLine),
            at,
        ))),
        _ => Err(OrMemory::Fault(rest.unexpected())),
    }
}
