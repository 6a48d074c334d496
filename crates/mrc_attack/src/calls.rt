//! Calls as lines of a script. What is printed here is read again and judged.

use crate::actions::Action;
use crate::printing::Listing;
use crate::run::Run;
use mrc_base::TaskId;
use mrc_report::call_text;
use mrc_words::task_word;
use std::alloc::AllocError;

/// The call of an action and its parameters, if the names that it needs are there.
fn action_words(run: &Run<'_>, action: &Action) -> Result<Option<String>, AllocError> {
    let Some(call) = run.call_of(action)? else {
        return Ok(None);
    };
    let words = call_text(run.alloc, &call);
    drop(call);
    Ok(Some(words?))
}

/// The calls that do the actions, as lines of a script; nothing if one can't be done.
pub(crate) fn script_text(
    run: &mut Run<'_>,
    listing: Listing,
    actions: &[Action],
) -> Result<Option<String>, AllocError> {
    let (alloc, blanks) = (run.alloc, listing.blanks());
    let mut text = String::new(alloc);
    for action in actions {
        let Some(words) = action_words(run, action)? else {
            return Ok(None);
        };
        let task = task_word(alloc, run.wired, TaskId(u32::from(action.task)))?;
        text.push_str(format!(in alloc; "{blanks}{task} {words}\n")?.as_str())?;
        let _is_done = run.act(action)?;
    }
    Ok(Some(text))
}
