//! Types as they are written.

ghost use Rattle.std.specs.Prelude.{◌≡◌, option_map};
ghost use Rattle.mrc_base.specs.Reading.{Gives};
ghost use Rattle.mrc_mig_symbols.specs.Symbols.{Answers};
ghost use Rattle.mrc_mig_tokens.specs.Reading.{first_of, left};
ghost use Rattle.mrc_mig_types.specs.Table.{known};
ghost use Rattle.mrc_mig_types.specs.Reading.{star_at, string_at, named_at, item_at, spec_at};

use crate::basics::{basic_type, plain, sized};
use crate::layers::{count, layers, within};
use crate::meaning::{Meaning, string};
use crate::structs::fields;
use crate::table::Types;
use mrc_base::OrMemory;
use mrc_mig_lex::Sign;
use mrc_mig_symbols::{Stop, Word};
use mrc_mig_tokens::{Rest, Symbol, is_next, sign};
use std::alloc::Global;

/// Passes `*:` where a star comes next.
#[tactic(auto, unfolding(crate::specs::Reading::star_at))]
fn star(rest: Rest<'_>) -> Result<(bool, Rest<'_>), Stop>
    ensures { Answers (λ x. (x.0, left x.1)) result (star_at (left rest.entry)) }
{
    if is_next(rest, Sign::Star) {
        Ok((true, sign(rest.next(), Sign::Colon)?))
    } else {
        Ok((false, rest))
    }
}

/// Reads the dimension of a string from behind its word.
#[tactic(auto, unfolding(crate::specs::Reading::string_at))]
fn c_string(alloc: Global, rest: Rest<'_>) -> Result<(Meaning, Rest<'_>), OrMemory<Stop>>
    ensures { Gives (λ x. (x.0, left x.1)) result (string_at (left rest.entry)) }
{
    let rest = sign(rest, Sign::OpenBracket)?;
    let (is_bound, rest) = star(rest)?;
    let (number, rest) = count(alloc, rest)?;
    Ok((string(number, is_bound), rest))
}

/// Reads a name in the place of a type: that of a basic type, or of one that the text may know.
#[tactic(auto, unfolding(crate::specs::Reading::named_at))]
fn named<'t>(types: &Types<'t>, rest: Rest<'t>) -> Result<(Option<Meaning>, Rest<'t>), Stop>
    ensures { Answers (λ x. (x.0, left x.1)) result
        (named_at (known types.now) (left rest.entry)) }
{
    if basic_type(rest).is_some() {
        let (meaning, rest) = plain(rest)?;
        Ok((Some(meaning), rest))
    } else {
        Ok((types.get(rest.text()), rest.next()))
    }
}

/// Reads a type without what is around it; none is known of one whose name is not.
#[tactic(auto, unfolding(crate::specs::Reading::item_at))]
fn inner<'t>(
    alloc: Global,
    types: &Types<'t>,
    rest: Rest<'t>,
) -> Result<(Option<Meaning>, Rest<'t>), OrMemory<Stop>>
    ensures { Gives (λ x. (x.0, left x.1)) result
        (item_at (known types.now) (left rest.entry)) }
{
    let (meaning, rest) = match rest.first() {
        Symbol::Name => return Ok(named(types, rest)?),
        Symbol::Word(Word::Struct) => fields(types, rest.next())?,
        Symbol::Word(Word::CString) => c_string(alloc, rest.next())?,
        Symbol::Sign(Sign::OpenParenthesis) => sized(alloc, rest.next())?,
        _ => plain(rest)?,
    };
    Ok((Some(meaning), rest))
}

/// Reads a type and gives what it means, or nothing where it names a type that is not known.
#[tactic(auto, unfolding(crate::specs::Reading::spec_at))]
pub fn spec<'t>(
    alloc: Global,
    types: &Types<'t>,
    rest: Rest<'t>,
) -> Result<(Option<Meaning>, Rest<'t>), OrMemory<Stop>>
    ensures fault { Gives (λ x. (x.0, left x.1)) result
        (spec_at (known types.now) (left rest.entry)) }
{
    let (around, rest) = layers(alloc, rest)?;
    let (meaning, rest) = inner(alloc, types, rest)?;
    match meaning {
        Some(meaning) => Ok((Some(within(around, meaning)), rest)),
        None => {
            drop(around);
            Ok((None, rest))
        }
    }
}
