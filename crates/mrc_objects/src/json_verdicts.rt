//! The verdicts of `verify` and `check` as objects.

ghost use Rattle.std.specs.Prelude.{◌≡◌, ◌==◌, IfSome, None, true};

use crate::common::{Common, common_of, unwaived};
use crate::json::{Making, Reason, SCHEMA, json_text, short_text};
use crate::json_chains::{StepObject, rule_word, step_objects};
use crate::json_facts::{FactObject, fact_object};
use crate::line_names::LineNames;
use crate::lines::{TextLines, lines_on};
use mrc_base::Fact;
use mrc_check::{Demand, Stated, Why};
use mrc_why::{Broken, Exposed, Sources, Step, Verdict, forbidden_fact};
use mrc_wide_policy::{PolicyStands, Stance};
use mrc_wiring::{ForbiddenLine, Wired};
use serde::Serialize;
use std::alloc::{AllocError, Global};

/// What is broken: the number of a line, its name and its text, and the fact that a chain derives.
#[derive(Drop, Serialize)]
struct Breach<'a, 'b, 'c> {
    fact: FactObject,
    line: u32,
    name: Option<&'c str>,
    steps: Vec<StepObject<'a>>,
    text: &'b str,
}

/// A fact that is expected and lacking: the number of its line, its name and its text.
#[derive(Drop, Serialize)]
struct UnmetFact<'a> {
    fact: FactObject,
    line: u32,
    name: Option<&'a str>,
    text: &'a str,
}

/// A fact that is waived, and why.
#[derive(Drop, Serialize)]
struct WaivedFact<'a> {
    because: &'a str,
    fact: FactObject,
    line: u32,
    name: Option<&'a str>,
    text: &'a str,
}

/// The facts that are expected and lacking, and those that are waived.
#[derive(Drop)]
struct ToldFacts<'a> {
    unmet: Vec<UnmetFact<'a>>,
    waived: Vec<WaivedFact<'a>>,
}

/// A fact, and how many chains have it.
#[derive(Drop, Serialize)]
struct Shared {
    fact: FactObject,
    lines: usize,
}

/// A policy that is broken.
#[derive(Drop, Serialize)]
struct BrokenAnswer<'a, 'b, 'c> {
    answer: &'static str,
    broken: Vec<Breach<'a, 'b, 'c>>,
    command: &'c str,
    common: Option<Shared>,
    exposed: Option<Breach<'a, 'b, 'c>>,
    notices: Vec<&'c str>,
    schema: u32,
    unmet: Vec<UnmetFact<'c>>,
    waived: Vec<WaivedFact<'c>>,
}

/// A yes of `verify`, and what is waived.
#[derive(Drop, Serialize)]
struct AllowedAnswer<'a> {
    answer: &'static str,
    command: &'a str,
    notices: Vec<&'a str>,
    schema: u32,
    unmet: Vec<UnmetFact<'a>>,
    waived: Vec<WaivedFact<'a>>,
}

/// Whether the demand is asked for: all are, or those of one line.
pub fn is_asked(only: Option<u32>, demand: &Demand) -> bool
    ensures all { only ≡ None → result ≡ true }
    ensures one { IfSome only (λ number. result ≡ (demand.now.holding.line == number)) }
{
    match only {
        None => true,
        Some(number) => demand.holding.line == number,
    }
}

/// Whether the line is asked for: all are, or those of one number.
pub(crate) fn is_asked_line(only: Option<u32>, line: &ForbiddenLine) -> bool {
    match only {
        None => true,
        Some(number) => line.line == number,
    }
}

/// A yes of `verify` with these facts, and with what goes to standard error.
fn allowed_json<'a>(making: &Making<'a>, told: ToldFacts<'a>) -> Result<String, AllocError> {
    let ToldFacts { unmet, waived } = told;
    let answer = AllowedAnswer {
        answer: "YES",
        command: making.command,
        notices: lines_on(making.alloc, making.notices)?,
        schema: SCHEMA,
        unmet,
        waived,
    };
    json_text(making.alloc, &answer)
}

/// A yes of a command, with what goes to standard error; of `verify` with nothing that is told.
pub fn yes_json(making: &Making<'_>) -> Result<String, AllocError> {
    if making.command != "verify" {
        return short_text(making, "YES", true, None);
    }
    let none = ToldFacts {
        unmet: Vec::new(making.alloc),
        waived: Vec::new(making.alloc),
    };
    allowed_json(making, none)
}

/// What is broken, by the number of its line, the line's name and text, and the fact of a chain,
/// whose steps are printed if they are asked for.
fn breach_of<'a, 'b, 'c>(
    alloc: Global,
    sources: &Sources<'a>,
    with_steps: bool,
    (line, name, text): (u32, Option<&'c str>, &'b str),
    (fact, chain): (Fact, &[Step]),
) -> Result<Breach<'a, 'b, 'c>, AllocError> {
    let printed = if with_steps { chain } else { &[] };
    Ok(Breach {
        fact: fact_object(alloc, sources.wired(), fact)?,
        line,
        name,
        steps: step_objects(alloc, sources, printed)?,
        text,
    })
}

/// The broken lines that are asked for and not waived, in their order.
fn broken_lines<'a, 'b, 'c>(
    making: &Making<'b>,
    sources: &Sources<'a>,
    (with_steps, only): (bool, Option<u32>),
    judged: Judged<'_, 'c>,
) -> Result<Vec<Breach<'a, 'b, 'c>>, AllocError> {
    let alloc = making.alloc;
    let policy = TextLines::of(alloc, making.policy)?;
    let mut breaches = Vec::new(alloc);
    for one in judged.broken {
        if is_asked_line(only, one.line()) {
            let number = one.line().line;
            let line = (number, judged.names.name(number), policy.line(number));
            let chain = (forbidden_fact(one.line()), one.steps());
            breaches.push(breach_of(alloc, sources, with_steps, line, chain)?)?;
        }
    }
    Ok(breaches)
}

/// The trusted task that another could rewrite, also if one line of the policy is asked for.
fn exposed_task<'a, 'b, 'c>(
    making: &Making<'b>,
    sources: &Sources<'a>,
    with_steps: bool,
    exposed: &Option<Exposed>,
) -> Result<Option<Breach<'a, 'b, 'c>>, AllocError> {
    let Some(exposed) = exposed else {
        return Ok(None);
    };
    let wiring = TextLines::of(making.alloc, making.wiring)?;
    let line = (exposed.line(), None, wiring.line(exposed.line()));
    let chain = (exposed.fact(), exposed.steps());
    Ok(Some(breach_of(making.alloc, sources, with_steps, line, chain)?))
}

/// A fact that is expected and lacking.
fn unmet_fact<'a>(
    alloc: Global,
    wired: &Wired,
    (names, policy): (&LineNames<'a>, &TextLines<'a>),
    demand: &Demand,
) -> Result<UnmetFact<'a>, AllocError> {
    let line = demand.holding.line;
    Ok(UnmetFact {
        fact: fact_object(alloc, wired, forbidden_fact(&demand.holding))?,
        line,
        name: names.name(line),
        text: policy.line(line),
    })
}

/// A fact that is waived by the line of a number.
fn waived_fact<'a>(
    alloc: Global,
    wired: &Wired,
    (names, policy): (&LineNames<'a>, &TextLines<'a>),
    demand: &Demand,
    waiver: u32,
) -> Result<WaivedFact<'a>, AllocError> {
    let line = demand.holding.line;
    Ok(WaivedFact {
        because: names.reason(waiver),
        fact: fact_object(alloc, wired, forbidden_fact(&demand.holding))?,
        line,
        name: names.name(line),
        text: policy.line(line),
    })
}

/// The facts that are lacking and those that are waived, as far as they are asked for.
fn told_facts<'a>(
    making: &Making<'a>,
    wired: &Wired,
    only: Option<u32>,
    stands: &'a PolicyStands,
    told: &[Demand],
) -> Result<ToldFacts<'a>, AllocError> {
    let alloc = making.alloc;
    let names = LineNames::of(alloc, stands)?;
    let policy = TextLines::of(alloc, making.policy)?;
    let mut unmet = Vec::new(alloc);
    let mut waived = Vec::new(alloc);
    for demand in told {
        if is_asked(only, demand) {
            match demand.stance {
                Stance::Forbidden => {}
                Stance::Expected => {
                    unmet.push(unmet_fact(alloc, wired, (&names, &policy), demand)?)?
                }
                Stance::Waived(waiver) => {
                    waived.push(waived_fact(alloc, wired, (&names, &policy), demand, waiver)?)?
                }
            }
        }
    }
    Ok(ToldFacts { unmet, waived })
}

/// What the chains of these lines have in common, unless the lines of one number are asked for.
fn shared_by(
    alloc: Global,
    only: Option<u32>,
    wired: &Wired,
    broken: &[&Broken],
) -> Result<Option<Shared>, AllocError> {
    if only.is_some() {
        return Ok(None);
    }
    let Some(Common { fact, chains }) = common_of(alloc, wired, broken)? else {
        return Ok(None);
    };
    Ok(Some(Shared {
        fact: fact_object(alloc, wired, fact)?,
        lines: chains,
    }))
}

/// What is found of a policy.
#[derive(Clone, Copy)]
struct Judged<'a, 'c> {
    broken: &'a [&'a Broken],
    names: &'a LineNames<'c>,
}

/// A policy that is broken: the broken lines that are asked for, all or those of one number
/// (`only`), with the steps of their chains or without; what the chains of all have in common; the
/// trusted task that another could rewrite; what is expected and lacking; and what is waived.
pub fn broken_json(
    making: &Making<'_>,
    stated: &Stated,
    with_steps: bool,
    only: Option<u32>,
    verdict: &Verdict,
    told: &[Demand],
) -> Result<String, AllocError> {
    let alloc = making.alloc;
    let wired = stated.claim.wired();
    let sources = Sources::new(alloc, wired, stated.lines.as_slice())?;
    let names = LineNames::of(alloc, &stated.stands)?;
    let lines = unwaived(alloc, told, verdict.broken.as_slice())?;
    let judged = Judged {
        broken: &lines,
        names: &names,
    };
    let ToldFacts { unmet, waived } = told_facts(making, wired, only, &stated.stands, told)?;
    let answer = BrokenAnswer {
        answer: "NO",
        broken: broken_lines(making, &sources, (with_steps, only), judged)?,
        command: making.command,
        common: shared_by(alloc, only, wired, &lines)?,
        exposed: exposed_task(making, &sources, with_steps, &verdict.exposed)?,
        notices: lines_on(alloc, making.notices)?,
        schema: SCHEMA,
        unmet,
        waived,
    };
    json_text(alloc, &answer)
}

/// A yes besides what is waived, as far as it is asked for.
pub fn waived_json(
    making: &Making<'_>,
    stated: &Stated,
    only: Option<u32>,
    told: &[Demand],
) -> Result<String, AllocError> {
    if making.command != "verify" {
        return yes_json(making);
    }
    let wired = stated.claim.wired();
    let told = told_facts(making, wired, only, &stated.stands, told)?;
    allowed_json(making, told)
}

/// A reason that is a kind and a line alone.
fn reason_at(kind: &'static str, line: Option<u32>) -> Reason {
    Reason {
        fact: None,
        kind,
        line,
        rule: None,
    }
}

/// A reason for which a certificate is refused.
fn reason(alloc: Global, wired: &Wired, why: Why) -> Result<Reason, AllocError> {
    let (fact, mut reason) = match why {
        Why::Counts => return Ok(reason_at("counts", None)),
        Why::Forbidden(line) => return Ok(reason_at("forbidden", Some(line))),
        Why::Trusted(line, fact) => (fact, reason_at("trusted", Some(line))),
        Why::MissingFirst(fact) => (fact, reason_at("missing", None)),
        Why::NotClosed(rule, fact) => {
            let mut reason = reason_at("not closed", None);
            reason.rule = Some(rule_word(alloc, rule)?);
            (fact, reason)
        }
    };
    reason.fact = Some(fact_object(alloc, wired, fact)?);
    Ok(reason)
}

/// A certificate that a command refuses, with the reason and what goes to standard error.
pub fn reason_json(making: &Making<'_>, wired: &Wired, why: Why) -> Result<String, AllocError> {
    let reason = reason(making.alloc, wired, why)?;
    short_text(making, "NO", true, Some(reason))
}

/// That a certificate whose facts a command prints has other numbers than the wiring.
pub fn counts_json(making: &Making<'_>) -> Result<String, AllocError> {
    short_text(making, "NO", false, Some(reason_at("counts", None)))
}
