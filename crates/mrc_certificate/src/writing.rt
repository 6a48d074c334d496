ghost use Rattle.std.specs.Prelude.{◌≡◌, ◌++◌, ◌∷◌, [], OnOk, IfOk};
ghost use Rattle.std.specs.Int.{w16, to_be_bytes};
ghost use Rattle.mrc_facts.specs.Order.{fact_bytes};
ghost use Rattle.mrc_certificate.specs.Spelling.{content, facts_bytes, version_number};
ghost use Rattle.mrc_certificate.specs.Spelling.{births_bytes, Spells};

use crate::draft::Draft;
use mrc_rows::{Fact, Facts};
use std::alloc::{AllocError, Global};

/// Appends six bytes, the numbers high byte first.
fn put_six(out: &mut Vec<u8>, kind: u8, first: u16, second: u16, last: u8) -> Result<(), AllocError>
    ensures { OnOk result (out.new.items ≡ out.old.items
        ++ (kind ∷ to_be_bytes w16 first ++ to_be_bytes w16 second ++ last ∷ [])) }
{
    out.reserve(6)?;
    let first = first.to_be_bytes();
    let second = second.to_be_bytes();
    out.push_reserved(kind);
    out.push_reserved(first[0]);
    out.push_reserved(first[1]);
    out.push_reserved(second[0]);
    out.push_reserved(second[1]);
    out.push_reserved(last);
    Ok(())
}

/// Appends the six bytes of a fact.
fn put_fact(out: &mut Vec<u8>, fact: &Fact) -> Result<(), AllocError>
    ensures { OnOk result (out.new.items ≡ out.old.items ++ fact_bytes fact.now) }
{
    let (kind, first, second, last) = match *fact {
        Fact::Hold { task, class, right } => (1, task, class.0, right as u8),
        Fact::Carry {
            destination,
            class,
            right,
        } => (2, destination.0, class.0, right as u8),
        Fact::Backup { class, notify } => (3, class.0, notify.0, 0),
    };
    put_six(out, kind, first, second, last)
}

/// Appends the bytes of the facts, in their order.
fn put_facts(out: &mut Vec<u8>, facts: &Facts) -> Result<(), AllocError>
    ensures { OnOk result (out.new.items ≡ out.old.items ++ facts_bytes facts.now) }
{
    for fact in facts.iter() {
        put_fact(out, &fact)?;
    }
    Ok(())
}

/// Appends the number of classes of births, if the version is 2.
fn put_births(out: &mut Vec<u8>, tasks: u16, births: u16) -> Result<(), AllocError>
    ensures { OnOk result (out.new.items ≡ out.old.items ++ births_bytes tasks births) }
{
    if births != tasks {
        out.extend_from_slice(&births.to_be_bytes())?;
    }
    Ok(())
}

/// The version of a draft of so many tasks and classes of births.
fn version_number(tasks: u16, births: u16) -> u16
    ensures { result ≡ version_number tasks births }
{
    if births == tasks { 1 } else { 2 }
}

/// The bytes of the draft: it has one encoding.
pub fn write_draft(alloc: Global, draft: &Draft) -> Result<Vec<u8>, AllocError>
    ensures { IfOk result (λ bytes. Spells bytes.items (content draft.now)) }
{
    let mut out = Vec::with_capacity(alloc, 16 + 6 * draft.facts.len())?;
    let version = version_number(draft.tasks, draft.births);
    out.extend_from_slice(b"MRCC")?;
    out.extend_from_slice(&version.to_be_bytes())?;
    out.extend_from_slice(&draft.tasks.to_be_bytes())?;
    out.extend_from_slice(&draft.classes.to_be_bytes())?;
    put_births(&mut out, draft.tasks, draft.births)?;
    out.extend_from_slice(&(draft.facts.len() as u32).to_be_bytes())?;
    put_facts(&mut out, &draft.facts)?;
    Ok(out)
}
