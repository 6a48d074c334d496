//! The verdict on a policy: a trusted task that another could rewrite, and the lines that are
//! broken, each with a chain.

ghost use Rattle.std.specs.Prelude.{◌≡◌, true, false, map, IfOk, IfSome, OnOk};
ghost use Rattle.std.specs.List.{All};
ghost use Rattle.mrc_facts.specs.Sets.{has};
ghost use Rattle.mrc_model.specs.Rules.{IsLeast};
ghost use Rattle.mrc_wiring.specs.Table.{wiring_of};
ghost use Rattle.mrc_check.specs.Trusted.{IsExposed};
ghost use Rattle.mrc_why.specs.Broken as definitions;
ghost use Rattle.mrc_why.specs.Broken.{AreBroken, IsDerived, HasYes, HasNoYes, IsJudged};
ghost use Rattle.mrc_why.specs.Broken.{line_of, IsDerivedIn, IsFirstExposed, IsExposedOf};
ghost use Rattle.mrc_why.specs.Broken.{IsReached, IsFound};

use crate::derivation::Derivations;
use mrc_base::Fact;
use mrc_check::first_exposed;
use mrc_classes::Facts;
use mrc_closure::Step;
use mrc_wiring::{Claim, ForbiddenLine};
use std::alloc::{AllocError, Global};
use std::marker::Model;

/// A line of a policy that is broken, and a chain that derives what it forbids.
#[derive(Debug, Drop)]
pub struct Broken {
    line: ForbiddenLine,
    steps: Vec<Step>,
}

impl Model for Broken {
    ghost use Rattle.mrc_why.specs.Broken.{BrokenLine};

    ghost Value = { BrokenLine };

    ghost view = { λ b. record { line = b.line; steps = b.steps.items } };
}

impl Broken {
    /// The line.
    pub fn line(&self) -> &ForbiddenLine
        ensures { result.now ≡ self.now.line }
    {
        &self.line
    }

    /// The steps of the chain.
    pub fn steps(&self) -> &[Step]
        ensures { result.now ≡ self.now.steps }
    {
        self.steps.as_slice()
    }
}

/// What a line forbids.
pub fn forbidden_fact(line: &ForbiddenLine) -> Fact
    ensures { result ≡ definitions.forbidden_fact line.now }
{
    Fact::Hold {
        task: line.task,
        class: line.class,
        right: line.right,
    }
}

/// Adds the line at the end of the list, with a chain, if it is broken.
fn judge_line(
    alloc: Global,
    derivations: &mut Derivations<'_>,
    line: &ForbiddenLine,
    broken: &mut Vec<Broken>,
) -> Result<(), AllocError>
    ensures kept { derivations.new ≡ derivations.old }
    ensures judged { OnOk result
        (IsJudged derivations.old line.now broken.old.items broken.new.items) }
{
    let _least = derivations.facts();
    let Some(steps) = derivations.chain(alloc, forbidden_fact(line))? else {
        return Ok(());
    };
    broken.push(Broken { line: *line, steps })?;
    Ok(())
}

/// The lines that are broken, in their order, each with a short chain.
fn broken_lines(
    alloc: Global,
    derivations: &mut Derivations<'_>,
    lines: &[ForbiddenLine],
) -> Result<Vec<Broken>, AllocError>
    ensures kept { derivations.new ≡ derivations.old }
    ensures lines { IfOk result (λ broken. map line_of broken.items
        ≡ definitions.broken_lines (has derivations.old.facts) lines.now) }
    ensures chains { IfOk result (λ broken.
        All (IsDerivedIn derivations.old.table) broken.items) }
{
    let mut broken = Vec::new(alloc);
    for line in lines {
        judge_line(alloc, derivations, line, &mut broken)?;
    }
    Ok(broken)
}

/// A trusted task that another could rewrite, and a chain that derives the hold by which it could.
#[derive(Debug, Drop)]
pub struct Exposed {
    line: u32,
    fact: Fact,
    steps: Vec<Step>,
}

impl Model for Exposed {
    ghost use Rattle.mrc_why.specs.Broken.{ExposedTask};

    ghost Value = { ExposedTask };

    ghost view = { λ e. record { line = e.line; fact = e.fact; steps = e.steps.items } };
}

impl Exposed {
    /// The number of the first trust line about the task, counted from 1.
    pub fn line(&self) -> u32
        ensures { result ≡ self.now.line }
    {
        self.line
    }

    /// That the other task holds a send right to the trusted task's kernel port.
    pub fn fact(&self) -> Fact
        ensures { result ≡ self.now.fact }
    {
        self.fact
    }

    /// The steps of the chain.
    pub fn steps(&self) -> &[Step]
        ensures { result.now ≡ self.now.steps }
    {
        &self.steps
    }
}

/// The trusted task that another could rewrite by this hold, with a short chain.
fn exposed_by(
    alloc: Global,
    derivations: &mut Derivations<'_>,
    line: u32,
    fact: &Fact,
) -> Result<Option<Exposed>, AllocError>
    requires { IsExposed derivations.old.table (has derivations.old.facts) line fact.now }
    ensures kept { derivations.new ≡ derivations.old }
    ensures exposed { IfOk result
        (IsFirstExposed derivations.old.table (has derivations.old.facts)) }
    ensures chain { IfOk result (λ exposed.
        IfSome exposed (IsReached derivations.old.table)) }
{
    let _least = derivations.facts();
    match derivations.chain(alloc, *fact)? {
        Some(steps) => Ok(Some(Exposed {
            line,
            fact: *fact,
            steps,
        })),
        None => Ok(None),
    }
}

/// The first trusted task that another could rewrite by the least set, with a short chain.
fn exposed_task(
    alloc: Global,
    derivations: &mut Derivations<'_>,
) -> Result<Option<Exposed>, AllocError>
    ensures kept { derivations.new ≡ derivations.old }
    ensures exposed { IfOk result
        (IsFirstExposed derivations.old.table (has derivations.old.facts)) }
    ensures chain { IfOk result (λ exposed.
        IfSome exposed (IsReached derivations.old.table)) }
{
    match first_exposed(derivations.wired(), derivations.facts()) {
        Some((line, fact)) => exposed_by(alloc, derivations, line, &fact),
        None => Ok(None),
    }
}

/// What is found of a wiring and a policy.
#[derive(Debug, Drop)]
pub struct Verdict {
    /// The least set of the wiring.
    pub facts: Facts,
    /// The first trusted task that another could rewrite.
    pub exposed: Option<Exposed>,
    /// The lines of the policy that are broken, in their order.
    pub broken: Vec<Broken>,
}

impl Verdict {
    /// Whether the answer is yes: no trusted task is exposed, and no line is broken.
    pub fn is_yes(&self) -> bool
        ensures { result ≡ definitions.is_yes self.now.exposed self.now.broken.items }
    {
        self.exposed.is_none() && self.broken.is_empty()
    }
}

/// What is found of the claim, by derivations of its wiring.
fn found_by(
    alloc: Global,
    derivations: &mut Derivations<'_>,
    claim: &Claim,
) -> Result<Verdict, AllocError>
    requires table { derivations.old.table ≡ claim.now.table }
    requires least { IsLeast (wiring_of claim.now.table) (has derivations.old.facts) }
    ensures { IfOk result (λ verdict.
        IsFound claim.now verdict.facts verdict.exposed verdict.broken.items) }
{
    let exposed = exposed_task(alloc, derivations)?;
    let broken = broken_lines(alloc, derivations, claim.lines())?;
    let facts = derivations.facts().copy()?;
    Ok(Verdict {
        facts,
        exposed,
        broken,
    })
}

/// What is found of the claim.
fn found(alloc: Global, claim: &Claim) -> Result<Verdict, AllocError>
    ensures { IfOk result (λ verdict.
        IsFound claim.now verdict.facts verdict.exposed verdict.broken.items) }
{
    let mut derivations = Derivations::new(alloc, claim.wired())?;
    let verdict = found_by(alloc, &mut derivations, claim);
    drop(derivations);
    verdict
}

/// The verdict on the claim: the least set, the first trusted task that another could rewrite, and
/// the lines of the policy that are broken. The task and each line have a short chain.
pub fn verify(alloc: Global, claim: &Claim) -> Result<Verdict, AllocError>
    // The facts are the least set.
    ensures least { IfOk result (λ verdict.
        IsLeast (wiring_of claim.now.table) (has verdict.facts)) }
    // By the least set the task is the first that another could rewrite; if there is none, no task
    // could rewrite a trusted one.
    ensures exposed { IfOk result (λ verdict. IsExposedOf claim.now verdict.exposed) }
    // Its chain derives the hold by which the other could.
    ensures chain { IfOk result (λ verdict.
        IfSome verdict.exposed (IsReached claim.now.table)) }
    // The lines are those that forbid a fact of the least set, and no others.
    ensures lines { IfOk result (λ verdict. AreBroken claim.now verdict.broken.items) }
    // Each chain derives what its line forbids.
    ensures chains { IfOk result (λ verdict. All (IsDerived claim.now) verdict.broken.items) }
    // If there is no such task and no such line, the least set is accepted.
    ensures yes { IfOk result (λ verdict.
        definitions.is_yes verdict.exposed verdict.broken.items ≡ true → HasYes claim.now) }
    // Else no set is.
    ensures no { IfOk result (λ verdict.
        definitions.is_yes verdict.exposed verdict.broken.items ≡ false → HasNoYes claim.now) }
{
    let verdict = found(alloc, claim)?;
    Ok(verdict)
}
