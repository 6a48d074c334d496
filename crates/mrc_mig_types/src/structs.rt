//! Structs whose fields have names.

ghost use Rattle.std.specs.Prelude.{◌≡◌, List, [], Option};
ghost use Rattle.mrc_mig_symbols.specs.Symbols.{Answers};
ghost use Rattle.mrc_mig_tokens.specs.Reading.{left, first_of};
ghost use Rattle.mrc_mig_types.specs.declared.meaning.Meaning.{Meaning};
ghost use Rattle.mrc_mig_types.specs.Table.{known};
ghost use Rattle.mrc_mig_types.specs.Reading.{field_at, goes_on, more_at, each_field_at, fields_at};
ghost use Rattle.mrc_mig_types.specs.Reading.{opened_by, closed_by};
ghost use Rattle.mrc_mig_types.specs.Layout.{all_fields_of, IsLaid};
ghost use Rattle.mrc_mig_types.specs.Readers.{AreRead};

use crate::layout::Laid;
use crate::meaning::Meaning;
use crate::table::Types;
use mrc_mig_lex::Sign;
use mrc_mig_symbols::Stop;
use mrc_mig_tokens::{Rest, Symbol, any_name, sign};

/// Reads `type name;`: the name of its type.
#[tactic(auto, unfolding(crate::specs::Reading::field_at))]
fn field(rest: Rest<'_>) -> Result<(&str, Rest<'_>), Stop>
    ensures { Answers (λ x. (x.0.now, left x.1)) result (field_at (left rest.entry)) }
{
    let (type_name, rest) = any_name(rest)?;
    let (_, rest) = any_name(rest)?;
    Ok((type_name, sign(rest, Sign::Semicolon)?))
}

/// Whether a struct goes on.
#[tactic(auto, unfolding(crate::specs::Reading::goes_on))]
fn goes_on(rest: Rest<'_>) -> bool
    ensures { (fields : List (Option Meaning)) → result ≡ goes_on (fields, left rest.entry) }
{
    rest.first() != Symbol::CloseBrace
}

/// Reads one field more behind those that were read.
fn more<'t>(types: &Types<'t>, laid: Laid, rest: Rest<'t>) -> Result<(Laid, Rest<'t>), Stop>
    ensures { (fields : List (Option Meaning)) → IsLaid (all_fields_of fields) laid
        → AreRead result (more_at (known types.now) (fields, left rest.entry)) }
{
    let (type_name, rest) = field(rest)?;
    Ok((laid.with(types.get(type_name)), rest))
}

/// Reads fields up to the brace behind them.
fn each_field<'t>(types: &Types<'t>, rest: Rest<'t>) -> Result<(Laid, Rest<'t>), Stop>
    ensures { AreRead result (each_field_at (known types.now) (left rest.entry)) }
{
    let (mut laid, mut rest) = more(types, Laid::new(), rest)?;
    let count = rest.len();
    for _ in 0..count {
        if !goes_on(rest) {
            return Ok((laid, rest));
        }
        let (next, after) = more(types, laid, rest)?;
        laid = next;
        rest = after;
    }
    Ok((laid, rest))
}

/// Takes the brace that opens a struct.
fn opened(rest: Rest<'_>) -> Result<Rest<'_>, Stop>
    ensures { Answers left result (opened_by (first_of (left rest.entry)) (left rest.entry)) }
{
    match rest.first() {
        Symbol::OpenBrace => Ok(rest.next()),
        _ => Err(rest.unexpected()),
    }
}

/// Takes the brace that closes it.
fn closed(rest: Rest<'_>) -> Result<Rest<'_>, Stop>
    ensures { Answers left result (closed_by (first_of (left rest.entry)) (left rest.entry)) }
{
    match rest.first() {
        Symbol::CloseBrace => Ok(rest.next()),
        _ => Err(rest.unexpected()),
    }
}

/// Reads the fields of a struct, in braces.
#[tactic(auto, unfolding(crate::specs::Reading::fields_at))]
pub(crate) fn fields<'t>(types: &Types<'t>, rest: Rest<'t>) -> Result<(Meaning, Rest<'t>), Stop>
    ensures { Answers (λ x. (x.0, left x.1)) result
        (fields_at (known types.now) (left rest.entry)) }
{
    let (laid, rest) = each_field(types, opened(rest)?)?;
    Ok((laid.whole(), closed(rest)?))
}
