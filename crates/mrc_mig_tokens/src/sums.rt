//! The values of whole-number expressions, without recursion.

ghost use Rattle.std.specs.Prelude.{◌≡◌, ◌==◌, ◌∷◌, [], length, OnOk, MatchOption};
ghost use Rattle.std.specs.Option.{ok_or};
ghost use Rattle.mrc_base.specs.Reading.{Gives};
ghost use Rattle.mrc_mig_symbols.specs.Symbols.{Answers};
ghost use Rattle.mrc_mig_tokens.specs.Reading.{first_of, unexpected, left};
ghost use Rattle.mrc_mig_tokens.specs.Sums.{part, multiplied, divided, added, subtracted};
ghost use Rattle.mrc_mig_tokens.specs.Sums.{nothing_read, with_operand, value_of, next_product};
ghost use Rattle.mrc_mig_tokens.specs.Sums.{operand_step, closed, operator_step, step, ends};
ghost use Rattle.mrc_mig_tokens.specs.Sums.{value_before, sum_at};
ghost use Rattle.mrc_mig_tokens.specs.Partials.{partial_of};
ghost use Rattle.mrc_mig_tokens.specs.Readers.{reading_of};

use crate::rest::Rest;
use crate::symbol::Symbol;
use mrc_base::{OrMemory, limits};
use mrc_mig_lex::Sign;
use mrc_mig_symbols::Stop;
use std::alloc::{AllocError, Global};
use std::marker::Model;

/// The greatest value of a part.
const MOST: u64 = limits::NUMBER as u64;

/// A part's value, if it is one.
fn part(value: u64) -> Option<u32>
    ensures { result ≡ part value }
{
    if value <= MOST {
        Some(value as u32)
    } else {
        None
    }
}

/// The product of two parts.
fn multiplied(one: Option<u32>, another: Option<u32>) -> Option<u32>
    ensures { result ≡ multiplied one another }
{
    match (one, another) {
        (Some(one), Some(another)) => part(u64::from(one) * u64::from(another)),
        _ => None,
    }
}

/// The quotient of two parts, cut off.
fn divided(one: Option<u32>, another: Option<u32>) -> Option<u32>
    ensures { result ≡ divided one another }
{
    match (one, another) {
        (Some(one), Some(another)) if another > 0 => Some(one / another),
        _ => None,
    }
}

/// The sum of two parts.
fn added(one: Option<u32>, another: Option<u32>) -> Option<u32>
    ensures { result ≡ added one another }
{
    match (one, another) {
        (Some(one), Some(another)) => part(u64::from(one) + u64::from(another)),
        _ => None,
    }
}

/// The difference of two parts.
fn subtracted(one: Option<u32>, another: Option<u32>) -> Option<u32>
    ensures { result ≡ subtracted one another }
{
    match (one, another) {
        (Some(one), Some(another)) => one.checked_sub(another),
        _ => None,
    }
}

/// A sum that is being read: the parts that are finished, and the product that is read now.
#[derive(Clone, Copy, Debug, PartialEq, Eq)]
pub(crate) struct Sum {
    pub(crate) total: Option<u32>,
    pub(crate) subtracts: bool,
    pub(crate) product: Option<u32>,
    pub(crate) divides: bool,
}

impl Sum {
    /// Nothing is read yet: the sum is 0 and the product is 1.
    fn new() -> Sum
        ensures { partial_of result ≡ nothing_read }
    {
        Sum {
            total: Some(0),
            subtracts: false,
            product: Some(1),
            divides: false,
        }
    }

    /// With one more factor or divisor.
    fn with_operand(self, operand: Option<u32>) -> Sum
        ensures { partial_of result ≡ with_operand operand (partial_of self) }
    {
        let product = if self.divides {
            divided(self.product, operand)
        } else {
            multiplied(self.product, operand)
        };
        Sum { product, ..self }
    }

    /// The value of the whole sum.
    fn value(self) -> Option<u32>
        ensures { result ≡ value_of (partial_of self) }
    {
        if self.subtracts {
            subtracted(self.total, self.product)
        } else {
            added(self.total, self.product)
        }
    }

    /// Before the next product.
    fn next_product(self, subtracts: bool) -> Sum
        ensures { partial_of result ≡ next_product subtracts (partial_of self) }
    {
        Sum {
            total: self.value(),
            subtracts,
            product: Some(1),
            divides: false,
        }
    }
}

/// The sums around an open parenthesis.
#[derive(Drop)]
pub(crate) struct Outer {
    /// The innermost last.
    sums: Vec<Sum>,
}

impl Model for Outer {
    ghost use Rattle.std.specs.Prelude.{List, map, reverse};
    ghost use Rattle.mrc_mig_tokens.specs.Sums.{Partial};
    ghost use Rattle.mrc_mig_tokens.specs.Partials.{partial_of};

    ghost Value = { List Partial };

    ghost view = { λ o. reverse (map partial_of o.sums.items) };
}

impl Outer {
    /// There are none.
    fn new(alloc: Global) -> Outer
        ensures { result ≡ [] }
    {
        Outer {
            sums: Vec::new(alloc),
        }
    }

    /// Whether there are none.
    fn is_empty(&self) -> bool
        ensures { result ≡ (length self.now == 0) }
    {
        self.sums.as_slice().is_empty()
    }

    /// With one more, the innermost.
    fn push(&mut self, sum: Sum) -> Result<(), AllocError>
        ensures { OnOk result (self.new ≡ partial_of sum ∷ self.old) }
    {
        self.sums.push(sum)?;
        Ok(())
    }

    /// Takes the innermost, if there is one.
    fn pop(&mut self) -> Option<Sum>
        ensures { MatchOption result (self.old ≡ []) (λ sum. self.old ≡ partial_of sum ∷ self.new) }
    {
        self.sums.pop()
    }
}

/// An expression that is being read.
#[derive(Drop)]
pub(crate) struct Reader {
    /// The sums around the innermost open parenthesis.
    pub(crate) outer: Outer,
    pub(crate) sum: Sum,
    pub(crate) wants_operand: bool,
}

impl Reader {
    /// Reads a first symbol, where an operand is wanted.
    fn read_operand(&mut self, rest: Rest<'_>) -> Result<(), OrMemory<Stop>>
        ensures { Gives (λ _. reading_of self.new) result
            (ok_or (operand_step (first_of (left rest.entry)) (reading_of self.old))
            (unexpected (left rest.entry))) }
    {
        match rest.first() {
            Symbol::Number(number) => {
                self.sum = self.sum.with_operand(part(u64::from(number)));
                self.wants_operand = false;
                Ok(())
            }
            Symbol::Sign(Sign::OpenParenthesis) => {
                self.outer.push(self.sum)?;
                self.sum = Sum::new();
                self.wants_operand = true;
                Ok(())
            }
            _ => Err(rest.unexpected().into()),
        }
    }

    /// Closes a parenthesis.
    fn close(&mut self, rest: Rest<'_>) -> Result<(), Stop>
        ensures { Answers (λ _. reading_of self.new) result
            (ok_or (closed (reading_of self.old)) (unexpected (left rest.entry))) }
    {
        let Some(around) = self.outer.pop() else {
            return Err(rest.unexpected());
        };
        self.sum = around.with_operand(self.sum.value());
        self.wants_operand = false;
        Ok(())
    }

    /// Reads a first symbol behind an operand.
    fn read_operator(&mut self, rest: Rest<'_>) -> Result<(), Stop>
        ensures { Answers (λ _. reading_of self.new) result
            (ok_or (operator_step (first_of (left rest.entry)) (reading_of self.old))
            (unexpected (left rest.entry))) }
    {
        match rest.first() {
            Symbol::Sign(Sign::Star) => self.sum.divides = false,
            Symbol::Sign(Sign::Slash) => self.sum.divides = true,
            Symbol::Sign(Sign::Plus) => self.sum = self.sum.next_product(false),
            Symbol::Sign(Sign::Minus) => self.sum = self.sum.next_product(true),
            Symbol::Sign(Sign::CloseParenthesis) => return self.close(rest),
            _ => return Err(rest.unexpected()),
        }
        self.wants_operand = true;
        Ok(())
    }

    /// Reads a first symbol.
    #[tactic(auto, unfolding(crate::specs::Sums::step))]
    fn read(&mut self, rest: Rest<'_>) -> Result<(), OrMemory<Stop>>
        ensures { Gives (λ _. reading_of self.new) result
            (ok_or (step (first_of (left rest.entry)) (reading_of self.old))
            (unexpected (left rest.entry))) }
    {
        if self.wants_operand {
            self.read_operand(rest)?;
        } else {
            self.read_operator(rest)?;
        }
        Ok(())
    }

    /// Whether the symbol belongs to the expression no more.
    #[tactic(auto, unfolding(crate::specs::Sums::ends))]
    fn ends(&self, symbol: Symbol) -> bool
        ensures { result ≡ ends (reading_of self.now) symbol }
    {
        if self.wants_operand {
            return false;
        }
        match symbol {
            Symbol::Sign(Sign::Star | Sign::Slash | Sign::Plus | Sign::Minus) => false,
            Symbol::Sign(Sign::CloseParenthesis) => self.outer.is_empty(),
            _ => true,
        }
    }

    /// The value of the expression, which ends before `rest`.
    #[tactic(auto, unfolding(crate::specs::Sums::value_before))]
    fn value(self, rest: Rest<'_>) -> Result<(Option<u32>, Rest<'_>), Stop>
        ensures { Answers (λ x. (x.0, left x.1)) result
            (value_before (left rest.entry) (reading_of self)) }
    {
        if self.wants_operand || !self.outer.is_empty() {
            return Err(rest.unexpected());
        }
        Ok((self.sum.value(), rest))
    }
}

/// Reads a whole-number expression and gives its value, or none where a part of it is below 0 or
/// above 2,147,483,647 or a divisor is 0.
#[tactic(auto, using(crate::proofs::SumLemmas::value_at_end, crate::proofs::SumLemmas::value_at_last, crate::proofs::SumLemmas::value_goes_on, crate::proofs::SumLemmas::tail_is_shorter), unfolding(crate::specs::Sums::sum_at))]
pub fn sum_value(alloc: Global, rest: Rest<'_>) -> Result<(Option<u32>, Rest<'_>), OrMemory<Stop>>
    ensures fault { Gives (λ x. (x.0, left x.1)) result (sum_at (left rest.entry)) }
{
    let mut reader = Reader {
        outer: Outer::new(alloc),
        sum: Sum::new(),
        wants_operand: true,
    };
    let mut rest = rest;
    while !rest.is_empty() {
        if reader.ends(rest.first()) {
            return Ok(reader.value(rest)?);
        }
        reader.read(rest)?;
        rest = rest.next();
    }
    Ok(reader.value(rest)?)
}
