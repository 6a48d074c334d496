//! Arguments as they are written.

ghost use Rattle.std.specs.Prelude.{◌≡◌};
ghost use Rattle.mrc_base.specs.Reading.{Gives};
ghost use Rattle.mrc_mig_symbols.specs.Symbols.{Answers};
ghost use Rattle.mrc_mig_tokens.specs.Reading.{left};
ghost use Rattle.mrc_mig_types.specs.Table.{known};
ghost use Rattle.mrc_mig_arguments.specs.Words.{written_of};
ghost use Rattle.mrc_mig_arguments.specs.Reading.{meaning_at, flagged_at, argument_at};

use crate::argument::Argument;
use crate::option::options;
use crate::words::{asks_count, role};
use mrc_base::OrMemory;
use mrc_mig_lex::Sign;
use mrc_mig_symbols::Stop;
use mrc_mig_tokens::{Rest, any_name, is_next, sign};
use mrc_mig_types::{Meaning, Types, flags, spec};
use std::alloc::Global;

/// Reads what follows the name of an argument's type, and gives what the type means: the one behind
/// an equals sign, or else the one that is declared.
#[tactic(auto, unfolding(crate::specs::Reading::meaning_at))]
fn meaning<'t>(
    alloc: Global,
    types: &Types<'t>,
    name: &str,
    rest: Rest<'t>,
) -> Result<(Option<Meaning>, Rest<'t>), OrMemory<Stop>>
    ensures { Gives (λ x. (x.0, left x.1)) result
        (meaning_at (known types.now) name.now (left rest.entry)) }
{
    if !is_next(rest, Sign::Equals) {
        return Ok((types.get(name), rest));
    }
    let (meaning, rest) = spec(alloc, types, rest.next())?;
    Ok((meaning, options(rest)?))
}

/// Reads flags, and gives whether `countinout` is among them.
#[tactic(auto, unfolding(crate::specs::Reading::flagged_at))]
fn flagged(rest: Rest<'_>) -> Result<(bool, Rest<'_>), Stop>
    ensures { Answers (λ x. (x.0, left x.1)) result (flagged_at (left rest.entry)) }
{
    let after = flags(rest)?;
    let count = rest.len().saturating_sub(after.len());
    Ok((asks_count(rest, count), after))
}

/// Reads an argument as it is written.
///
/// What its type means is what stands behind the equals sign, or else what is declared under the
/// name behind the colon. Where no argument stands, the first token with which none goes on is
/// Unexpected.
#[tactic(auto, unfolding(crate::specs::Reading::argument_at))]
pub fn one_argument<'t>(
    alloc: Global,
    types: &Types<'t>,
    rest: Rest<'t>,
) -> Result<(Argument<'t>, Rest<'t>), OrMemory<Stop>>
    ensures fault { Gives (λ x. (written_of x.0, left x.1)) result
        (argument_at (known types.now) (left rest.entry)) }
{
    let at = rest.len();
    let (role, rest) = role(rest);
    let name_at = rest.len();
    let (name, rest) = any_name(rest)?;
    let rest = sign(rest, Sign::Colon)?;
    let type_at = rest.len();
    let (type_name, rest) = any_name(rest)?;
    let (meaning, rest) = meaning(alloc, types, type_name, rest)?;
    let (counts, rest) = flagged(rest)?;
    let argument = Argument {
        role,
        name,
        type_name,
        meaning,
        counts,
        at,
        name_at,
        type_at,
    };
    Ok((argument, rest))
}
