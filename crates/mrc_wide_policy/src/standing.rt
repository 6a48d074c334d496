//! What the lines of a policy stand for, one line after the other.

ghost use Rattle.std.specs.Prelude.{◌≡◌, ◌+◌, ◌++◌, ◌∷◌, filter, length, true, IfOk};
ghost use Rattle.std.specs.List.{list_any};
ghost use Rattle.mrc_base.specs.Reading.{Gives};
ghost use Rattle.mrc_stand_for.specs.Steps.{Leaves};
ghost use Rattle.mrc_wide_policy.specs.Facts.{facts_of};
ghost use Rattle.mrc_wide_policy.specs.PolicyStanding.{product_facts, has_name, named_facts};
ghost use Rattle.mrc_wide_policy.specs.PolicyStanding.{waived_of, counted, add_group, add_set};
ghost use Rattle.mrc_wide_policy.specs.PolicyStanding.{add_facts, add_waive};
ghost use Rattle.mrc_wide_policy.specs.PolicyStanding.{says_more, add_line, nothing_demanded};
ghost use Rattle.mrc_wide_policy.specs.PolicyStanding.{policy_stands};

use crate::facts::{
    FactLine, NamedFact, PolicyStands, WaivedLine, facts_in, new_facts, push_facts, rights_once,
    those_in,
};
use crate::quotes::Quoted;
use crate::rows::rows_of;
use crate::says::{PolicySays, Product, WidePolicyLine};
use mrc_base::OrMemory;
use mrc_stand_for::{Known, Several, StandFault, Tasks, WideClass, group_stands, set_stands};
use mrc_wiring_text::Name;
use std::alloc::{AllocError, Global};

/// Facts that the lines of a policy may stand for, at most.
pub const FACTS: usize = 1_048_576;

/// What the lines so far demand, and what is known.
#[derive(Drop)]
pub(crate) struct Demands {
    /// What lists can name.
    known: Known,
    /// The facts of all lines.
    count: usize,
    /// The lines that forbid or expect.
    lines: Several<FactLine>,
    /// The lines that waive.
    waived: Several<WaivedLine>,
}

/// The facts of a product.
fn product_facts(
    alloc: Global,
    expects: bool,
    known: &Known,
    line: u32,
    product: &Product,
) -> Result<Several<NamedFact>, OrMemory<StandFault>>
    ensures { Gives (λ facts. facts) result
        (product_facts expects known.now line product.now) }
{
    let rows = rows_of(alloc, expects, known, line, product)?;
    let rights = rights_once(alloc, product.rights.as_slice())?;
    Ok(facts_in(alloc, rights.as_slice(), rows.as_slice())?)
}

/// How many facts there are with these, if not too many.
fn counted(line: u32, count: usize, facts: &[NamedFact]) -> Result<usize, OrMemory<StandFault>>
    ensures { Gives (λ count. count) result (counted line count facts.now) }
{
    if count > FACTS || facts.len() > FACTS - count {
        return Err(OrMemory::Fault(StandFault::TooMany(line)));
    }
    Ok(count + facts.len())
}

/// An equal name, if there is one.
fn copy_name(alloc: Global, name: &Option<Quoted>) -> Result<Option<Quoted>, AllocError>
    ensures { IfOk result (λ copy. copy ≡ name.now) }
{
    match name {
        Some(name) => Ok(Some(name.copy(alloc)?)),
        None => Ok(None),
    }
}

/// Whether a line forbids, and has the name.
fn has_name(name: &Quoted, line: &FactLine) -> bool
    ensures { result ≡ has_name name.now line.now }
{
    match &line.name {
        Some(other) => !line.expects && name.as_bytes() == other.as_bytes(),
        None => false,
    }
}

/// The facts of the lines of a name.
fn facts_named(
    alloc: Global,
    name: &Quoted,
    lines: &[FactLine],
) -> Result<Several<NamedFact>, AllocError>
    ensures { IfOk result (λ facts. facts ≡ facts_of (filter (has_name name.now) lines.now)) }
{
    let mut facts = Several::empty(alloc);
    for line in lines {
        if has_name(name, line) {
            push_facts(alloc, &mut facts, line.facts.as_slice())?;
        }
    }
    Ok(facts)
}

/// Whether a line that forbids has the name.
fn has_line(name: &Quoted, lines: &[FactLine]) -> bool
    ensures { result ≡ list_any (has_name name.now) lines.now }
{
    lines.iter().any(|line| has_name(name, line))
}

/// The facts that lines of the name forbid, if there is one.
fn named_facts(
    alloc: Global,
    line: u32,
    name: &Quoted,
    lines: &[FactLine],
) -> Result<Several<NamedFact>, OrMemory<StandFault>>
    ensures { Gives (λ facts. facts) result (named_facts line name.now lines.now) }
{
    if !has_line(name, lines) {
        return Err(OrMemory::Fault(StandFault::UnknownName(line)));
    }
    Ok(facts_named(alloc, name, lines)?)
}

impl Demands {
    /// No line yet.
    fn nothing(alloc: Global, known: Known) -> Demands
        ensures { result ≡ nothing_demanded known }
    {
        Demands {
            known,
            count: 0,
            lines: Several::empty(alloc),
            waived: Several::empty(alloc),
        }
    }

    /// `group G TASKS`.
    fn add_group(
        &mut self,
        alloc: Global,
        line: u32,
        group: &Name,
        tasks: &Tasks,
    ) -> Result<(), OrMemory<StandFault>>
        ensures { Leaves result self.new (add_group self.old line group.now tasks.now) }
    {
        let none = group_stands(alloc, &mut self.known, line, group, tasks)?;
        drop(none);
        Ok(())
    }

    /// `set S CLASSES`.
    fn add_set(
        &mut self,
        alloc: Global,
        line: u32,
        set: &Name,
        classes: &[WideClass],
    ) -> Result<(), OrMemory<StandFault>>
        ensures { Leaves result self.new (add_set self.old line set.now classes.now) }
    {
        let none = set_stands(alloc, &mut self.known, line, set, classes)?;
        drop(none);
        Ok(())
    }

    /// `forbid TASKS RIGHTS CLASSES`, or the same that expects.
    fn add_facts(
        &mut self,
        alloc: Global,
        expects: bool,
        line: u32,
        name: &Option<Quoted>,
        product: &Product,
    ) -> Result<(), OrMemory<StandFault>>
        ensures { Leaves result self.new
            (add_facts expects self.old line name.now product.now) }
    {
        let facts = product_facts(alloc, expects, &self.known, line, product)?;
        let count = counted(line, self.count, facts.as_slice())?;
        let name = copy_name(alloc, name)?;
        self.count = count;
        self.lines.push(FactLine {
            number: line,
            name,
            expects,
            facts,
        })?;
        Ok(())
    }

    /// Those of facts that are in the product, if the line has one.
    fn waived_of(
        &self,
        alloc: Global,
        line: u32,
        product: &Option<Product>,
        facts: Several<NamedFact>,
    ) -> Result<Several<NamedFact>, OrMemory<StandFault>>
        ensures { Gives (λ those. those) result (waived_of self.now line product.now facts) }
    {
        match product {
            None => Ok(facts),
            Some(product) => {
                let rows = rows_of(alloc, false, &self.known, line, product)?;
                let rights = rights_once(alloc, product.rights.as_slice())?;
                let rows = rows.as_slice();
                Ok(those_in(alloc, rights.as_slice(), rows, facts.as_slice())?)
            }
        }
    }

    /// `waive "NAME" "WORDS"` and `waive "NAME" TASKS RIGHTS CLASSES "WORDS"`.
    fn add_waive(
        &mut self,
        alloc: Global,
        line: u32,
        name: &Quoted,
        product: &Option<Product>,
        because: &Quoted,
    ) -> Result<(), OrMemory<StandFault>>
        ensures { Leaves result self.new
            (add_waive self.old line name.now product.now because.now) }
    {
        let named = named_facts(alloc, line, name, self.lines.as_slice())?;
        let those = self.waived_of(alloc, line, product, named)?;
        if those.as_slice().is_empty() {
            return Err(OrMemory::Fault(StandFault::Empty(line)));
        }
        let facts = new_facts(alloc, self.waived.as_slice(), those.into_vec())?;
        let count = counted(line, self.count, facts.as_slice())?;
        let name = name.copy(alloc)?;
        let because = because.copy(alloc)?;
        self.count = count;
        self.waived.push(WaivedLine {
            number: line,
            name,
            because,
            facts,
        })?;
        Ok(())
    }

    /// One line more.
    fn add_line(&mut self, alloc: Global, line: &WidePolicyLine) -> Result<(), OrMemory<StandFault>>
        ensures { Leaves result self.new (add_line self.old line.now) }
    {
        let number = line.number;
        match &line.says {
            PolicySays::Group { group, tasks } => self.add_group(alloc, number, group, tasks),
            PolicySays::Set { set, classes } => {
                self.add_set(alloc, number, set, classes.as_slice())
            }
            PolicySays::Forbid { name, product } => {
                self.add_facts(alloc, false, number, name, product)
            }
            PolicySays::Expect { name, product } => {
                self.add_facts(alloc, true, number, name, product)
            }
            PolicySays::Waive {
                name,
                product,
                because,
            } => self.add_waive(alloc, number, name, product, because),
        }
    }
}

/// What all lines stand for.
fn stands(all: Demands) -> PolicyStands
    ensures { result ≡ record { is_wide = true; lines = all.lines; waived = all.waived } }
{
    let Demands {
        known,
        count: _,
        lines,
        waived,
    } = all;
    drop(known);
    PolicyStands {
        is_wide: true,
        lines,
        waived,
    }
}

/// What the lines of a policy stand for over a wiring after whose lines this is known: the facts
/// that they forbid, expect and waive, or why the first line that is refused is.
pub fn stand_policy(
    alloc: Global,
    known: Known,
    lines: &[WidePolicyLine],
) -> Result<PolicyStands, OrMemory<StandFault>>
    ensures exact { Gives (λ stands. stands) result (policy_stands known lines.now) }
{
    let mut so_far = Demands::nothing(alloc, known);
    for line in lines {
        match so_far.add_line(alloc, line) {
            Ok(()) => {}
            Err(refusal) => {
                drop(so_far);
                return Err(refusal);
            }
        }
    }
    Ok(stands(so_far))
}
