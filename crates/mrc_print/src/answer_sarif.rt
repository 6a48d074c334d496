//! The logs of answers.

use crate::faults::fault_parts;
use crate::reading::{defs_texts, names_of};
use mrc_answer::{Answer, JudgedPolicy, WasRead};
use mrc_objects::{Placed, broken_sarif, fault_sarif, yes_sarif};
use mrc_place::Hint;
use mrc_why::Sources;
use std::alloc::{AllocError, Global};

/// The log of what is found of a policy, with this status.
fn judged_log(
    alloc: Global,
    read: &WasRead<'_>,
    broken: &JudgedPolicy,
    status: u8,
    errors: &str,
) -> Result<String, AllocError> {
    let Some(names) = names_of(read) else {
        return Ok(String::new(alloc));
    };
    let stated = &broken.stated;
    let sources = Sources::new(alloc, stated.claim.wired(), stated.lines.as_slice())?;
    let placed = Placed {
        alloc,
        names,
        texts: defs_texts(read),
        sources: &sources,
    };
    let told = (&stated.stands, broken.told.as_slice());
    broken_sarif(
        &placed,
        (broken.only, status),
        &broken.verdict,
        told,
        errors,
    )
}

/// The log of an answer of `verify`: nothing of other answers.
pub(crate) fn answer_sarif(
    alloc: Global,
    read: &WasRead<'_>,
    answer: &Answer<'_>,
    errors: &str,
    hint: &Hint,
) -> Result<String, AllocError> {
    match answer {
        Answer::Yes => yes_sarif(alloc, errors),
        Answer::Broken(broken) => judged_log(alloc, read, broken, 1, errors),
        Answer::Waived(judged) => judged_log(alloc, read, judged, 0, errors),
        Answer::Fault(fault) => {
            let parts = fault_parts(alloc, read, fault)?;
            fault_sarif(alloc, &parts, hint)
        }
        _ => Ok(String::new(alloc)),
    }
}
