//! What `graph` answers of the facts of a certificate, of those of the least set, or of a chain.

ghost use Rattle.std.specs.Prelude.{◌≡◌, List, ℕ, Option, Some, None, IfOk, IfSome, IfNone};
ghost use Rattle.std.specs.Prelude.{filter, map};
ghost use Rattle.std.specs.Option.{option_map};
ghost use Rattle.mrc_answer.specs.Drawings.{IsFound};
ghost use Rattle.mrc_answer.specs.Files.{word_of};
ghost use Rattle.mrc_answer.specs.Listed.{claim_given, claimed, without_policy, IsOfChain, IsGraph};
ghost use Rattle.mrc_check.specs.Texts.{meaningless};
ghost use Rattle.mrc_closure.specs.Chains.{IsChain};
ghost use Rattle.mrc_closure.specs.declared.chains.Step.{Step};
ghost use Rattle.mrc_draw.specs.Filters.{is_drawn};
ghost use Rattle.mrc_interface.specs.Reading.{GivesAs};
ghost use Rattle.mrc_model.specs.Rules.{Least};
ghost use Rattle.mrc_wiring.specs.Table.{wiring_of};

use crate::answers::{Answer, Drawing, Undrawn};
use crate::facts::word_fault;
use crate::faults::{Fault, WordFault};
use crate::files::{Files, Texts};
use crate::given::facts_given;
use mrc_base::{Fact, OrMemory};
use mrc_check::{CaseFault, Stated, System};
use mrc_draw::{Filter, drawn_facts, filter_of, set_of};
use mrc_rows::Facts;
use mrc_stand_for::Several;
use mrc_why::{Derivations, Step};
use mrc_wide_policy::PolicyStands;
use mrc_wiring::{Claim, Wired};
use mrc_words::fact_named;
use std::alloc::{AllocError, Global};

/// What there is to draw of a wiring.
#[derive(Drop)]
enum Found {
    /// These facts.
    Facts(Facts),
    /// Nothing: no chain derives the fact.
    Underived(Fact),
    /// Nothing: the certificate has other numbers.
    OtherCounts,
    /// Nothing: the bytes of the certificate encode none.
    Meaningless(CaseFault),
    /// Nothing: the word of an option names nothing.
    BadWord(WordFault),
}

/// Those of the facts that are asked for, or the holds among them.
fn chosen(alloc: Global, facts: Facts, asked: &Filter, holds: bool) -> Result<Facts, AllocError>
    ensures { IfOk result (λ drawn. drawn ≡ filter (is_drawn asked.now holds) facts) }
{
    let drawn = drawn_facts(alloc, &facts, asked, holds);
    drop(facts);
    drawn
}

/// A chain that derives the fact.
fn short_chain(alloc: Global, wired: &Wired, fact: Fact) -> Result<Option<Vec<Step>>, AllocError>
    ensures some { IfOk result (λ chain.
        IfSome chain (λ steps. IsChain (wiring_of wired.now) fact steps.items)) }
    ensures none { IfOk result (λ chain.
        IfNone chain (Least (wiring_of wired.now) fact → ⊥)) }
{
    let mut derivations = Derivations::new(alloc, wired)?;
    let found = derivations.chain(alloc, fact);
    drop(derivations);
    found
}

/// What the steps conclude.
fn step_facts(alloc: Global, steps: &[Step]) -> Result<Vec<Fact>, AllocError>
    ensures { IfOk result (λ facts. facts.items ≡ map (λ (s : Step). s.fact) steps.now) }
{
    let mut facts = Vec::new(alloc);
    for step in steps {
        facts.push(step.fact)?;
    }
    Ok(facts)
}

/// The facts of a chain that derives the fact.
fn chain_facts(alloc: Global, wired: &Wired, fact: Fact) -> Result<Option<Facts>, AllocError>
    ensures some { IfOk result (λ set. IfSome set (IsOfChain wired.now fact)) }
    ensures none { IfOk result (λ set. IfNone set (Least (wiring_of wired.now) fact → ⊥)) }
{
    match short_chain(alloc, wired, fact)? {
        Some(steps) => {
            let facts = step_facts(alloc, steps.as_slice())?;
            let set = set_of(alloc, facts.as_slice())?;
            Ok(Some(set))
        }
        None => Ok(None),
    }
}

/// What there is to draw of the fact of this text: a chain that derives it.
fn chain_found(
    alloc: Global,
    wired: &Wired,
    text: &str,
    task: Option<&str>,
    holds: bool,
) -> Result<Found, AllocError>
    ensures { (certificate : Option (List ℕ)) → IfOk result
        (IsFound (Some text.now) (word_of task.entry) holds certificate wired.now) }
{
    let Some(fact) = fact_named(wired, text) else {
        return Ok(Found::BadWord(WordFault::BadFact));
    };
    match filter_of(wired, task, None, None) {
        Ok(asked) => match chain_facts(alloc, wired, fact)? {
            Some(facts) => Ok(Found::Facts(chosen(alloc, facts, &asked, holds)?)),
            None => Ok(Found::Underived(fact)),
        },
        Err(fault) => Ok(Found::BadWord(word_fault(fault))),
    }
}

/// What there is to draw of a certificate, if it is given, and else of the least set.
fn facts_found(
    alloc: Global,
    wired: &Wired,
    texts: &Texts,
    task: Option<&str>,
    holds: bool,
) -> Result<Found, AllocError>
    ensures { IfOk result
        (IsFound None (word_of task.entry) holds texts.now.certificate wired.now) }
{
    match facts_given(alloc, wired, texts) {
        Ok(facts) => match filter_of(wired, task, None, None) {
            Ok(asked) => match facts {
                Some(facts) => Ok(Found::Facts(chosen(alloc, facts, &asked, holds)?)),
                None => Ok(Found::OtherCounts),
            },
            Err(fault) => Ok(Found::BadWord(word_fault(fault))),
        },
        Err(OrMemory::Fault(fault)) => Ok(Found::Meaningless(fault)),
        Err(OrMemory::Memory) => Err(AllocError),
    }
}

/// What there is to draw: facts, or the chain of a fact that is given.
fn found_of(
    alloc: Global,
    wired: &Wired,
    texts: &Texts,
    fact: Option<&str>,
    task: Option<&str>,
    holds: bool,
) -> Result<Found, AllocError>
    ensures { IfOk result (IsFound (word_of fact.entry) (word_of task.entry) holds
        texts.now.certificate wired.now) }
{
    match fact {
        Some(text) => chain_found(alloc, wired, text, task, holds),
        None => facts_found(alloc, wired, texts, task, holds),
    }
}

/// The system of which nothing is demanded.
fn without_policy(alloc: Global, system: System) -> Stated
    ensures { result ≡ without_policy system }
{
    let System {
        lines,
        known,
        wired,
    } = system;
    drop(known);
    Stated {
        lines,
        claim: Claim::over(wired, Vec::new(alloc)),
        stands: PolicyStands {
            is_wide: false,
            lines: Several::empty(alloc),
            waived: Several::empty(alloc),
        },
        demands: Vec::new(alloc),
    }
}

/// The system with what a policy forbids in it: nothing, if none is given.
fn claim_given(
    alloc: Global,
    policy: &Option<Vec<u8>>,
    texts: &Texts,
    system: System,
) -> Result<Stated, OrMemory<CaseFault>>
    ensures { GivesAs (λ stated. stated) meaningless result
        (claim_given (option_map (λ bytes. bytes.items) policy.now) texts.now system) }
{
    let Some(_policy) = policy else {
        return Ok(without_policy(alloc, system));
    };
    match system.claim(alloc, &texts.asked_policy()) {
        Ok(stated) => Ok(stated),
        Err((_, refusal)) => Err(refusal),
    }
}

/// What MIG files, a wiring and a policy mean, if one is given; or the first of them that has no
/// meaning.
fn claimed(alloc: Global, texts: &Texts) -> Result<Stated, OrMemory<CaseFault>>
    ensures { GivesAs (λ stated. stated) meaningless result (claimed texts.now) }
{
    let system = System::read(alloc, texts.defs.as_slice(), texts.wiring.as_slice())?;
    claim_given(alloc, &texts.policy, texts, system)
}

/// What is drawn: facts, or the chain of a fact that is given; of the holds of a task, if its name
/// is given, and of holds alone, if these are asked for.
pub fn graphed<'a>(
    alloc: Global,
    files: &Files<'_>,
    fact: Option<&str>,
    task: Option<&str>,
    holds: bool,
) -> Result<Answer<'a>, AllocError>
    ensures right { IfOk result
        (IsGraph (word_of fact.entry) (word_of task.entry) holds files.now) }
{
    let texts = &files.texts;
    let stated = match claimed(alloc, texts) {
        Ok(stated) => stated,
        Err(OrMemory::Fault(fault)) => return Ok(Answer::Fault(Fault::Meaning(fault))),
        Err(OrMemory::Memory) => return Err(AllocError),
    };
    match found_of(alloc, stated.claim.wired(), texts, fact, task, holds) {
        Ok(Found::Facts(facts)) => Ok(Answer::Drawing(Drawing { stated, facts })),
        Ok(Found::Underived(fact)) => Ok(Answer::NoDrawing(Undrawn { stated, fact })),
        Ok(Found::OtherCounts) => {
            drop(stated);
            Ok(Answer::OtherCounts)
        }
        Ok(Found::Meaningless(fault)) => {
            drop(stated);
            Ok(Answer::Fault(Fault::Meaning(fault)))
        }
        Ok(Found::BadWord(word)) => {
            drop(stated);
            Ok(Answer::Fault(Fault::Word(word)))
        }
        Err(AllocError) => {
            drop(stated);
            Err(AllocError)
        }
    }
}
