//! The objects of answers.

use crate::faults::{fault_parts, unwritten_parts};
use crate::mig_texts::mig_json;
use mrc_answer::{Answer, MigEnd, MigTexts, WasRead};
use mrc_objects::{
    Making, attacks_json, broken_json, chain_json, counts_json, facts_json, fault_json, graph_json,
    mends_json, none_json, promises_json, reason_json, slots_json, undrawn_json, waived_json,
    yes_json,
};
use mrc_place::Hint;
use std::alloc::{AllocError, Global};

/// The object of MIG files that were mig_text, or of the one that did not take all its bytes.
fn mig_answer_object(
    making: &Making<'_>,
    mig_texts: &MigTexts<'_>,
    hint: &Hint,
) -> Result<String, AllocError> {
    let alloc = making.alloc;
    if let MigEnd::Refused(unwritten) = &mig_texts.end {
        let parts = unwritten_parts(alloc, unwritten)?;
        return fault_json(alloc, making.command, &parts, hint);
    }
    let written = matches!(mig_texts.end, MigEnd::Written);
    mig_json(alloc, written, mig_texts.texts.as_slice())
}

/// The object of facts, of drawings, and of what is asked of a system alone: nothing of answers
/// that are printed as they are made. A certificate is made for people alone.
fn listing_object(making: &Making<'_>, answer: &Answer<'_>) -> Result<String, AllocError> {
    let alloc = making.alloc;
    match answer {
        Answer::Chain(explained) => {
            let steps = explained.chain.steps();
            chain_json(alloc, &explained.system, explained.fact, steps)
        }
        Answer::NoChain(none) => none_json(alloc, &none.system.wired, none.fact),
        Answer::Facts(listed) => facts_json(alloc, &listed.wired, &listed.filter, &listed.facts),
        Answer::OtherCounts => counts_json(making),
        Answer::Drawing(drawing) => {
            let claim = &drawing.stated.claim;
            graph_json(alloc, claim.wired(), &drawing.facts, claim.lines())
        }
        Answer::NoDrawing(none) => undrawn_json(alloc, none.stated.claim.wired(), none.fact),
        Answer::Slots(system) => slots_json(alloc, system),
        Answer::Promises(system) => promises_json(alloc, system.lines.as_slice()),
        _ => Ok(String::new(alloc)),
    }
}

/// The object of an answer, by what was read.
pub(crate) fn answer_json(
    making: &Making<'_>,
    brief: bool,
    read: &WasRead<'_>,
    answer: &Answer<'_>,
    hint: &Hint,
) -> Result<String, AllocError> {
    match answer {
        Answer::Yes => yes_json(making),
        Answer::Broken(broken) if making.command != "verify" => {
            attacks_json(making, broken.stated.claim.wired(), &[])
        }
        Answer::Broken(broken) => {
            let told = broken.told.as_slice();
            broken_json(
                making,
                &broken.stated,
                !brief,
                broken.only,
                &broken.verdict,
                told,
            )
        }
        Answer::Refused(refused) => reason_json(making, refused.claim.wired(), refused.why),
        Answer::Attacks(attacked) => {
            let wired = attacked.stated.claim.wired();
            attacks_json(making, wired, attacked.found.as_slice())
        }
        Answer::Waived(judged) => {
            waived_json(making, &judged.stated, judged.only, judged.told.as_slice())
        }
        Answer::Mends(answer) => mends_json(making, answer),
        Answer::Mig(mig_texts) => mig_answer_object(making, mig_texts, hint),
        Answer::Fault(fault) => {
            let parts = fault_parts(making.alloc, read, fault)?;
            fault_json(making.alloc, making.command, &parts, hint)
        }
        answer => listing_object(making, answer),
    }
}
