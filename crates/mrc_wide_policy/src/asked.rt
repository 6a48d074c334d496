//! What a policy asks, holding by holding.

ghost use Rattle.std.specs.Prelude.{◌≡◌, ◌++◌, IfOk, OnOk};
ghost use Rattle.mrc_wide_policy.specs.Asked.{waiver_of, stance_of, own_line, asked_fact, line_asks};
ghost use Rattle.mrc_wide_policy.specs.Asked.{asked_by, older_line, older_stands};

use crate::facts::{FactLine, NamedFact, PolicyStands, WaivedLine, copy_class, is_of_waiver};
use mrc_stand_for::{Known, Several, classes_forbidden};
use mrc_wiring_text::{Forbid, Line, PolicyLine};
use std::alloc::{AllocError, Global};

/// What a policy asks of a holding.
#[derive(Clone, Copy, Debug, PartialEq, Eq)]
pub enum Stance {
    /// It must not come about.
    Forbidden,
    /// It is forbidden, and let pass by the line of this number.
    Waived(u32),
    /// It has to be able to come about.
    Expected,
}

/// A holding that a line of a policy names.
#[derive(Drop)]
pub struct Asked {
    /// The holding, with the number of its line.
    pub line: PolicyLine,
    /// What is asked of it.
    pub stance: Stance,
}

/// The number of the first line that waives a fact.
fn waiver_of(waived: &[WaivedLine], fact: &NamedFact) -> Option<u32>
    ensures { result ≡ waiver_of waived.now fact.now }
{
    let line = waived.iter().find(|line| is_of_waiver(fact, line))?;
    Some(line.number)
}

/// What is asked of a fact of a line.
fn stance_of(waived: &[WaivedLine], line: &FactLine, fact: &NamedFact) -> Stance
    ensures { result ≡ stance_of waived.now line.now fact.now }
{
    if line.expects {
        return Stance::Expected;
    }
    match waiver_of(waived, fact) {
        Some(number) => Stance::Waived(number),
        None => Stance::Forbidden,
    }
}

/// A fact as a line by itself.
fn own_line(alloc: Global, line: &FactLine, fact: &NamedFact) -> Result<PolicyLine, AllocError>
    ensures { IfOk result (λ own. own ≡ own_line line.now fact.now) }
{
    let task = fact.task.copy(alloc)?;
    let class = copy_class(alloc, &fact.class)?;
    Ok(Line {
        number: line.number,
        says: Forbid {
            task,
            right: fact.right,
            class,
        },
    })
}

/// A fact of a line, and what is asked of it.
#[tactic(auto, unfolding(crate::specs::Asked::asked_fact))]
fn asked_fact(
    alloc: Global,
    waived: &[WaivedLine],
    line: &FactLine,
    fact: &NamedFact,
) -> Result<Asked, AllocError>
    ensures { IfOk result (λ asked. asked ≡ asked_fact waived.now line.now fact.now) }
{
    let stance = stance_of(waived, line, fact);
    let own = own_line(alloc, line, fact)?;
    Ok(Asked { line: own, stance })
}

/// Adds the facts of a line.
fn push_asked(
    alloc: Global,
    asked: &mut Vec<Asked>,
    waived: &[WaivedLine],
    line: &FactLine,
) -> Result<(), AllocError>
    ensures { OnOk result (asked.new.items ≡ asked.old.items ++ line_asks waived.now line.now) }
{
    for fact in line.facts.as_slice() {
        asked.push(asked_fact(alloc, waived, line, fact)?)?;
    }
    Ok(())
}

/// What a policy asks, in the order of its lines, and of each in that of its product.
pub fn asked_by(alloc: Global, stands: &PolicyStands) -> Result<Vec<Asked>, AllocError>
    ensures { IfOk result (λ asked. asked.items ≡ asked_by stands.now) }
{
    let mut asked = Vec::new(alloc);
    let waived = stands.waived.as_slice();
    for line in stands.lines.as_slice() {
        push_asked(alloc, &mut asked, waived, line)?;
    }
    Ok(asked)
}

/// What a line of an older version stands for.
fn older_line(alloc: Global, known: &Known, line: &PolicyLine) -> Result<FactLine, AllocError>
    ensures { IfOk result (λ stands. stands ≡ older_line known.now line.now) }
{
    let classes = classes_forbidden(alloc, known, &line.says.class)?;
    let mut facts = Several::empty(alloc);
    for class in classes.into_vec() {
        facts.push(NamedFact {
            task: line.says.task.copy(alloc)?,
            right: line.says.right,
            class,
        })?;
    }
    Ok(FactLine {
        number: line.number,
        name: None,
        expects: false,
        facts,
    })
}

/// What the lines of a policy of an older version stand for.
pub(crate) fn older_stands(
    alloc: Global,
    known: &Known,
    lines: &[PolicyLine],
) -> Result<PolicyStands, AllocError>
    ensures { IfOk result (λ stands. stands ≡ older_stands known.now lines.now) }
{
    let mut stood = Several::empty(alloc);
    for line in lines {
        stood.push(older_line(alloc, known, line)?)?;
    }
    Ok(PolicyStands {
        is_wide: false,
        lines: stood,
        waived: Several::empty(alloc),
    })
}
