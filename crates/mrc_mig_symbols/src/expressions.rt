//! Whole-number expressions, without recursion.
ghost use Rattle.std.specs.Prelude.{◌≡◌};
ghost use Rattle.mrc_base.specs.Reading.{Gives};
ghost use Rattle.mrc_mig_symbols.specs.Symbols.{Answers, MeansOrMemory, StopsAtOrMemory};
ghost use Rattle.mrc_mig_symbols.specs.Expressions.{ends, expression_at};
ghost use Rattle.mrc_mig_symbols.specs.ExpressionStops.{nothing_placed, placed_with, placed_value};
ghost use Rattle.mrc_mig_symbols.specs.ExpressionStops.{placed_product, placed_operand};
ghost use Rattle.mrc_mig_symbols.specs.ExpressionStops.{placed_closed, placed_operator};
ghost use Rattle.mrc_mig_symbols.specs.ExpressionStops.{placed_step, placed_before, unplaced};
ghost use Rattle.mrc_mig_symbols.specs.ExpressionStops.{read_expression, expression_stop};
ghost use Rattle.mrc_mig_symbols.specs.Outer.{placed_of};
ghost use Rattle.mrc_mig_symbols.specs.Readers.{left, reading_of};

use crate::fault::{Stop, StopReason, stop_at};
use crate::outer::Outer;
use crate::symbol::{Rest, Symbol};
use mrc_base::{OrMemory, limits};
use mrc_mig_lex::Sign;
use std::alloc::Global;

/// The greatest value of a part.
const MOST: u64 = limits::NUMBER as u64;

/// A sum that is being read: the parts that are finished, and the product that is read now. Each
/// place is how many tokens are left there.
#[derive(Clone, Copy, Debug, PartialEq, Eq)]
pub(crate) struct Sum {
    /// Where the operand begins that the sum is, with its parenthesis.
    pub(crate) operand_left: usize,
    /// Where the sum begins.
    pub(crate) left: usize,
    pub(crate) total: u32,
    pub(crate) subtracts: bool,
    /// Where the product begins.
    pub(crate) product_left: usize,
    pub(crate) product: u32,
    pub(crate) divides: bool,
}

impl Sum {
    /// Nothing is read yet: the sum is 0 and the product is 1.
    pub(crate) fn new(operand_at: usize, at: usize) -> Sum
        ensures { placed_of result ≡ nothing_placed operand_at at }
    {
        Sum {
            operand_left: operand_at,
            left: at,
            total: 0,
            subtracts: false,
            product_left: at,
            product: 1,
            divides: false,
        }
    }

    /// With one more factor or divisor, which begins at `at`.
    #[tactic(auto, unfolding(crate::specs::Expressions::with_operand, crate::specs::ExpressionStops::placed_with))]
    #[inline(always)]
    fn with_operand(self, operand: u32, at: usize) -> Result<Sum, Stop>
        ensures { Answers placed_of result (placed_with operand at (placed_of self)) }
    {
        if self.divides {
            if operand == 0 {
                return Err(stop_at(StopReason::Unexpected, at));
            }
            let product = self.product / operand;
            return Ok(Sum { product, ..self });
        }
        let product = self.product as u64 * operand as u64;
        if product > MOST {
            return Err(stop_at(StopReason::Unexpected, self.product_left));
        }
        let product = product as u32;
        Ok(Sum { product, ..self })
    }

    /// The value of the whole sum.
    #[tactic(auto, unfolding(crate::specs::Expressions::value_of, crate::specs::ExpressionStops::placed_value))]
    #[inline(always)]
    fn value(self) -> Result<u32, Stop>
        ensures { Answers (λ n. n) result (placed_value (placed_of self)) }
    {
        if self.subtracts {
            if self.total < self.product {
                return Err(stop_at(StopReason::Unexpected, self.left));
            }
            return Ok(self.total - self.product);
        }
        let value = self.total as u64 + self.product as u64;
        if value > MOST {
            return Err(stop_at(StopReason::Unexpected, self.left));
        }
        Ok(value as u32)
    }

    /// Before the next product, which begins at `at`.
    #[tactic(auto, unfolding(crate::specs::Expressions::next_product, crate::specs::ExpressionStops::placed_product))]
    #[inline(always)]
    fn next_product(self, subtracts: bool, at: usize) -> Result<Sum, Stop>
        ensures { Answers placed_of result (placed_product subtracts at (placed_of self)) }
    {
        let total = self.value()?;
        Ok(Sum {
            total,
            subtracts,
            product_left: at,
            product: 1,
            divides: false,
            ..self
        })
    }
}

/// An expression that is being read.
#[derive(Drop)]
struct Reader {
    /// The sums around the innermost open parenthesis.
    outer: Outer,
    sum: Sum,
    wants_operand: bool,
}

impl Reader {
    /// Reads the symbol at `at`, where an operand is wanted. The next one is at `next`.
    #[inline(always)]
    fn read_operand(&mut self, symbol: Symbol, at: usize, next: usize) -> Result<(), OrMemory<Stop>>
        ensures { Gives (λ _. reading_of self.new) result (placed_operand symbol at next
            (reading_of self.old).outer (reading_of self.old).sum) }
    {
        match symbol {
            Symbol::Number(number) => {
                self.sum = self.sum.with_operand(number, at)?;
                self.wants_operand = false;
                Ok(())
            }
            Symbol::Sign(Sign::OpenParenthesis) => {
                self.outer.push(self.sum)?;
                self.sum = Sum::new(at, next);
                self.wants_operand = true;
                Ok(())
            }
            _ => Err(stop_at(StopReason::Unexpected, at).into()),
        }
    }

    /// Closes a parenthesis, at `at`.
    #[inline(always)]
    fn close(&mut self, at: usize) -> Result<(), Stop>
        ensures { Answers (λ _. reading_of self.new) result
            (placed_closed at (reading_of self.old).outer (reading_of self.old).sum) }
    {
        let Some(around) = self.outer.pop() else {
            return Err(stop_at(StopReason::Unexpected, at));
        };
        let value = self.sum.value()?;
        self.sum = around.with_operand(value, self.sum.operand_left)?;
        self.wants_operand = false;
        Ok(())
    }

    /// Reads the symbol at `at` behind an operand. The next one is at `next`.
    #[inline(always)]
    fn read_operator(&mut self, symbol: Symbol, at: usize, next: usize) -> Result<(), Stop>
        ensures { Answers (λ _. reading_of self.new) result (placed_operator symbol at next
            (reading_of self.old).outer (reading_of self.old).sum) }
    {
        match symbol {
            Symbol::Sign(Sign::Star) => self.sum.divides = false,
            Symbol::Sign(Sign::Slash) => self.sum.divides = true,
            Symbol::Sign(Sign::Plus) => self.sum = self.sum.next_product(false, next)?,
            Symbol::Sign(Sign::Minus) => self.sum = self.sum.next_product(true, next)?,
            Symbol::Sign(Sign::CloseParenthesis) => return self.close(at),
            _ => return Err(stop_at(StopReason::Unexpected, at)),
        }
        self.wants_operand = true;
        Ok(())
    }

    /// Reads the symbol at `at`. The next one is at `next`.
    #[tactic(auto, unfolding(crate::specs::ExpressionStops::placed_step))]
    #[inline(always)]
    fn read(&mut self, symbol: Symbol, at: usize, next: usize) -> Result<(), OrMemory<Stop>>
        ensures { Gives (λ _. reading_of self.new) result
            (placed_step symbol at next (reading_of self.old)) }
    {
        if self.wants_operand {
            self.read_operand(symbol, at, next)?;
        } else {
            self.read_operator(symbol, at, next)?;
        }
        Ok(())
    }

    /// Whether the symbol belongs to the expression no more.
    #[tactic(auto, unfolding(crate::specs::Expressions::ends))]
    #[inline(always)]
    fn ends(&self, symbol: Symbol) -> bool
        ensures { result ≡ ends (unplaced (reading_of self.now)) symbol }
    {
        if self.wants_operand {
            return false;
        }
        match symbol {
            Symbol::Sign(Sign::Star | Sign::Slash | Sign::Plus | Sign::Minus) => false,
            Symbol::Sign(Sign::CloseParenthesis) => self.outer.is_empty(),
            _ => true,
        }
    }

    /// The value of the expression, which ends before `rest`.
    #[tactic(auto, unfolding(crate::specs::ExpressionStops::placed_before))]
    fn value(self, rest: Rest<'_>) -> Result<(u32, Rest<'_>), Stop>
        ensures { Answers (λ x. (x.0, left x.1)) result
            (placed_before (left rest.entry) (reading_of self)) }
    {
        if self.wants_operand {
            return Err(rest.unexpected());
        }
        let value = self.sum.value()?;
        if !self.outer.is_empty() {
            return Err(rest.unexpected());
        }
        Ok((value, rest))
    }
}

/// Reads an expression symbol by symbol.
#[tactic(auto, using(crate::proofs::ReadingLemmas::value_at_end, crate::proofs::ReadingLemmas::value_at_last, crate::proofs::ReadingLemmas::value_goes_on, crate::proofs::ReadingLemmas::tail_is_shorter), unfolding(crate::specs::ExpressionStops::read_expression))]
fn read_expression(alloc: Global, rest: Rest<'_>) -> Result<(u32, Rest<'_>), OrMemory<Stop>>
    ensures { Gives (λ x. (x.0, left x.1)) result (read_expression (left rest.entry)) }
{
    let mut reader = Reader {
        outer: Outer::new(alloc),
        sum: Sum::new(rest.len(), rest.len()),
        wants_operand: true,
    };
    let mut rest = rest;
    while !rest.is_empty() {
        let symbol = rest.first();
        if reader.ends(symbol) {
            return Ok(reader.value(rest)?);
        }
        let next = rest.next();
        reader.read(symbol, rest.len(), next.len())?;
        rest = next;
    }
    Ok(reader.value(rest)?)
}

/// Reads an expression and gives its value, at most 2,147,483,647.
pub fn expression(alloc: Global, rest: Rest<'_>) -> Result<(u32, Rest<'_>), OrMemory<Stop>>
    ensures exact { MeansOrMemory (λ x. (x.0, left x.1)) result (expression_at (left rest.entry)) }
    ensures fault { StopsAtOrMemory result (expression_stop (left rest.entry)) }
{
    read_expression(alloc, rest)
}
