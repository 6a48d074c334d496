//! What is found of a policy, as results with their chains step by step.

use crate::common::unwaived;
use crate::json_verdicts::{is_asked, is_asked_line};
use crate::line_names::LineNames;
use crate::sarif_objects::{
    CodeFlow, EXPECTED, FORBIDDEN, FlowLocation, Location, Message, Region, ResultObject, Rule,
    Suppression, TRUSTED, ThreadFlow, location_of,
};
use crate::sarif_places::{Place, Placed, source_place};
use mrc_base::Fact;
use mrc_check::Demand;
use mrc_closure::Step;
use mrc_why::{Source, Verdict, forbidden_fact, is_waived, places_text, source_text};
use mrc_wide_policy::Stance;
use mrc_words::fact_text;
use std::alloc::{AllocError, Global};

/// The location of a line, and what is at it.
fn line_location(
    placed: &Placed<'_>,
    place: Place<'_>,
    message: Option<Message>,
) -> Result<Location, AllocError> {
    let region = Region {
        start_column: None,
        start_line: place.line,
    };
    location_of(placed.alloc, place.file, Some(region), message)
}

/// The text of a step, as in the lines of a chain.
fn step_text(
    placed: &Placed<'_>,
    number: usize,
    step: &Step,
    source: Option<Source<'_>>,
) -> Result<String, AllocError> {
    let alloc = placed.alloc;
    let rule = step.rule.number();
    let fact = fact_text(alloc, placed.sources.wired(), step.fact)?;
    let from = places_text(alloc, step.premises)?;
    let by = source_text(alloc, source)?;
    format!(in alloc; "{number} K{rule} {fact}{from}{by}")
}

/// The step of this number of a chain, at its own place, or else at that of the result.
fn step_location(
    placed: &Placed<'_>,
    place: Place<'_>,
    chain: &[Step],
    (number, step): (usize, &Step),
) -> Result<FlowLocation, AllocError> {
    let source = placed.sources.source(chain, step);
    let own = source_place(placed, source)?.unwrap_or(place);
    let text = step_text(placed, number, step, source)?;
    let location = line_location(placed, own, Some(Message { text }))?;
    Ok(FlowLocation { location })
}

/// What is found by a rule at this place: the fact that can come about, and the steps that lead
/// there.
fn result_object(
    placed: &Placed<'_>,
    rule: &Rule,
    place: Place<'_>,
    (fact, chain): (Fact, &[Step]),
    suppresses: bool,
) -> Result<ResultObject, AllocError> {
    let alloc = placed.alloc;
    let locations = chain
        .iter()
        .enumerate()
        .map(|step| step_location(placed, place, chain, step))
        .try_collect(alloc)?;
    let mut text = fact_text(alloc, placed.sources.wired(), fact)?;
    text.push_str(rule.behind_fact)?;
    let thread_flows = (ThreadFlow { locations },);
    Ok(ResultObject {
        code_flows: Some((CodeFlow { thread_flows },)),
        level: "error",
        locations: (line_location(placed, place, None)?,),
        message: Message { text },
        rule_id: rule.id,
        rule_index: rule.index,
        suppressions: if suppresses {
            Some(Vec::new(alloc))
        } else {
            None
        },
    })
}

/// That a result is let pass for this reason: nothing, if there is none.
fn suppressions_by(alloc: Global, reason: Option<&str>) -> Result<Vec<Suppression>, AllocError> {
    let mut suppressions = Vec::new(alloc);
    if let Some(reason) = reason {
        suppressions.push(Suppression {
            justification: String::from_str(alloc, reason)?,
            kind: "external",
        })?;
    }
    Ok(suppressions)
}

/// A fact that is told of a line without a chain: one that is waived, for this reason, or one that
/// is expected and lacking.
fn told_object(
    placed: &Placed<'_>,
    rule: &Rule,
    place: Place<'_>,
    fact: Fact,
    reason: Option<&str>,
    suppresses: bool,
) -> Result<ResultObject, AllocError> {
    let alloc = placed.alloc;
    let mut text = fact_text(alloc, placed.sources.wired(), fact)?;
    text.push_str(rule.behind_fact)?;
    let suppressions = if suppresses {
        Some(suppressions_by(alloc, reason)?)
    } else {
        None
    };
    Ok(ResultObject {
        code_flows: None,
        level: "error",
        locations: (line_location(placed, place, None)?,),
        message: Message { text },
        rule_id: rule.id,
        rule_index: rule.index,
        suppressions,
    })
}

/// All that is found and asked for: the trusted task, at its line of the wiring, unless one line is
/// asked for; then the broken lines, each at this line of the policy; and then what is waived, and
/// what is expected and lacking.
pub(crate) fn result_objects(
    placed: &Placed<'_>,
    only: Option<u32>,
    verdict: &Verdict,
    told: &[Demand],
    names: &LineNames<'_>,
) -> Result<Vec<ResultObject>, AllocError> {
    let mut objects = Vec::new(placed.alloc);
    let suppresses = told
        .iter()
        .any(|demand| is_waived(demand) && is_asked(only, demand));
    if let (None, Some(exposed)) = (only, &verdict.exposed) {
        let file = placed.names.wiring;
        let line = exposed.line();
        let place = Place { file, line };
        let chain = (exposed.fact(), exposed.steps());
        objects.push(result_object(placed, &TRUSTED, place, chain, suppresses)?)?;
    }
    let file = placed.names.policy.unwrap_or("");
    for broken in &unwaived(placed.alloc, told, verdict.broken.as_slice())? {
        if is_asked_line(only, broken.line()) {
            let line = broken.line().line;
            let place = Place { file, line };
            let chain = (forbidden_fact(broken.line()), broken.steps());
            objects.push(result_object(placed, &FORBIDDEN, place, chain, suppresses)?)?;
        }
    }
    for demand in told {
        let line = demand.holding.line;
        let place = Place { file, line };
        let fact = forbidden_fact(&demand.holding);
        match demand.stance {
            _ if !is_asked(only, demand) => {}
            Stance::Forbidden => {}
            Stance::Waived(waiver) => {
                let reason = Some(names.reason(waiver));
                objects.push(told_object(placed, &FORBIDDEN, place, fact, reason, suppresses)?)?
            }
            Stance::Expected => {
                objects.push(told_object(placed, &EXPECTED, place, fact, None, suppresses)?)?
            }
        }
    }
    Ok(objects)
}
