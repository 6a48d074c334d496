//! Arrays, structs and pointers around a type.

ghost use Rattle.std.specs.Prelude.{◌≡◌, ◌++◌, ◌∷◌, [], OnOk};
ghost use Rattle.mrc_base.specs.Reading.{Gives};
ghost use Rattle.mrc_mig_symbols.specs.Symbols.{Answers};
ghost use Rattle.mrc_mig_tokens.specs.Reading.{first_of, left};
ghost use Rattle.mrc_mig_types.specs.Meanings.{layer_of, within};
ghost use Rattle.mrc_mig_types.specs.Reading.{after_of, count_at, dimension_at, array_at};
ghost use Rattle.mrc_mig_types.specs.Reading.{structure_at, begins_layer, layer_at, layers_at};

use crate::meaning::Meaning;
use mrc_base::OrMemory;
use mrc_mig_lex::Sign;
use mrc_mig_symbols::{Stop, Word};
use mrc_mig_tokens::{Rest, Symbol, sign, sum_value};
use std::alloc::Global;

/// What stands around a type.
#[derive(Clone, Copy, Debug, PartialEq, Eq)]
pub(crate) enum Layer {
    /// `array[n] of`, `struct[n] of`, with n or no value.
    Array(Option<u32>),
    /// `array[*:n] of`
    Bounded(Option<u32>),
    /// `array[] of`, `array[*] of`
    Open,
    /// `^`
    Pointer,
}

impl Layer {
    /// What the type is that has this around it.
    fn of(self, meaning: Meaning) -> Meaning
        ensures { result ≡ layer_of self meaning }
    {
        match self {
            Layer::Array(number) => meaning.array(number),
            Layer::Bounded(number) => meaning.bounded(number),
            Layer::Open => meaning.open_array(),
            Layer::Pointer => meaning.pointed(),
        }
    }
}

/// What the type is that has these around it, the outermost first.
#[tactic(auto, using(crate::proofs::MeaningLemmas::innermost))]
pub(crate) fn within(layers: Vec<Layer>, meaning: Meaning) -> Meaning
    ensures { result ≡ within layers.items meaning }
{
    let mut layers = layers;
    let mut meaning = meaning;
    while let Some(layer) = layers.pop() {
        meaning = layer.of(meaning);
    }
    meaning
}

/// Takes the word `of`.
#[tactic(auto, unfolding(crate::specs::Reading::after_of))]
fn of(rest: Rest<'_>) -> Result<Rest<'_>, Stop>
    ensures { Answers left result (after_of (left rest.entry)) }
{
    match rest.first() {
        Symbol::Word(Word::Of) => Ok(rest.next()),
        _ => Err(rest.unexpected()),
    }
}

/// Reads `n]`.
#[tactic(auto, unfolding(crate::specs::Reading::count_at))]
pub(crate) fn count(
    alloc: Global,
    rest: Rest<'_>,
) -> Result<(Option<u32>, Rest<'_>), OrMemory<Stop>>
    ensures { Gives (λ x. (x.0, left x.1)) result (count_at (left rest.entry)) }
{
    let (number, rest) = sum_value(alloc, rest)?;
    Ok((number, sign(rest, Sign::CloseBracket)?))
}

/// Reads the dimension of an array from behind its bracket.
#[tactic(auto, unfolding(crate::specs::Reading::dimension_at))]
fn dimension(alloc: Global, rest: Rest<'_>) -> Result<(Layer, Rest<'_>), OrMemory<Stop>>
    ensures { Gives (λ x. (x.0, left x.1)) result (dimension_at (left rest.entry)) }
{
    match (rest.first(), rest.next().first()) {
        (Symbol::Sign(Sign::CloseBracket), _) => Ok((Layer::Open, rest.next())),
        (Symbol::Sign(Sign::Star), Symbol::Sign(Sign::CloseBracket)) => {
            Ok((Layer::Open, rest.next().next()))
        }
        (Symbol::Sign(Sign::Star), _) => {
            let (number, rest) = count(alloc, sign(rest.next(), Sign::Colon)?)?;
            Ok((Layer::Bounded(number), rest))
        }
        _ => {
            let (number, rest) = count(alloc, rest)?;
            Ok((Layer::Array(number), rest))
        }
    }
}

/// Reads an array from behind its word.
#[tactic(auto, unfolding(crate::specs::Reading::array_at))]
fn array(alloc: Global, rest: Rest<'_>) -> Result<(Layer, Rest<'_>), OrMemory<Stop>>
    ensures { Gives (λ x. (x.0, left x.1)) result (array_at (left rest.entry)) }
{
    let rest = sign(rest, Sign::OpenBracket)?;
    let (layer, rest) = dimension(alloc, rest)?;
    Ok((layer, of(rest)?))
}

/// Reads a `struct[n]` from behind its word.
#[tactic(auto, unfolding(crate::specs::Reading::structure_at))]
fn structure(alloc: Global, rest: Rest<'_>) -> Result<(Layer, Rest<'_>), OrMemory<Stop>>
    ensures { Gives (λ x. (x.0, left x.1)) result (structure_at (left rest.entry)) }
{
    let rest = sign(rest, Sign::OpenBracket)?;
    let (number, rest) = count(alloc, rest)?;
    Ok((Layer::Array(number), of(rest)?))
}

/// Whether `^`, an array or a `struct[n]` comes next.
fn begins_layer(rest: Rest<'_>) -> bool
    ensures { result ≡ begins_layer (left rest.entry) }
{
    match (rest.first(), rest.next().first()) {
        (Symbol::Sign(Sign::Caret) | Symbol::Word(Word::Array), _) => true,
        (Symbol::Word(Word::Struct), Symbol::Sign(Sign::OpenBracket)) => true,
        _ => false,
    }
}

/// Reads `^`, an array or a `struct[n]`.
#[tactic(auto, unfolding(crate::specs::Reading::layer_at))]
fn one_layer(alloc: Global, rest: Rest<'_>) -> Result<(Layer, Rest<'_>), OrMemory<Stop>>
    ensures { Gives (λ x. (x.0, left x.1)) result (layer_at (left rest.entry)) }
{
    match rest.first() {
        Symbol::Sign(Sign::Caret) => Ok((Layer::Pointer, rest.next())),
        Symbol::Word(Word::Array) => array(alloc, rest.next()),
        Symbol::Word(Word::Struct) => structure(alloc, rest.next()),
        _ => Err(OrMemory::Fault(rest.unexpected())),
    }
}

/// Reads the arrays, structs and pointers in front of a type, the outermost first.
#[tactic(auto, using(mrc_mig_tokens::proofs::LoopLemmas::many_ends, mrc_mig_tokens::proofs::LoopLemmas::many_goes_on, mrc_mig_tokens::proofs::LoopLemmas::many_done), unfolding(crate::specs::Reading::layers_at))]
pub(crate) fn layers(
    alloc: Global,
    rest: Rest<'_>,
) -> Result<(Vec<Layer>, Rest<'_>), OrMemory<Stop>>
    ensures { Gives (λ x. (x.0.items, left x.1)) result (layers_at (left rest.entry)) }
{
    let mut layers = Vec::new(alloc);
    let mut rest = rest;
    let count = rest.len();
    for _ in 0..count {
        if !begins_layer(rest) {
            return Ok((layers, rest));
        }
        let (layer, after) = one_layer(alloc, rest)?;
        layers.push(layer)?;
        rest = after;
    }
    Ok((layers, rest))
}
