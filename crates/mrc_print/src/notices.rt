//! What is told besides an answer, as lines.

ghost use Rattle.std.specs.Prelude.{◌≡◌, ◌++◌, false, [], All, IfOk, None, map, string_bytes};
ghost use Rattle.mrc_dead.specs.Dead.{no_dead_parts};
ghost use Rattle.mrc_print.specs.Silence.{HasNoNames, AreNone};

use crate::dead_notices::{Printed, dead_text};
use crate::reading::{defs_name, policy_name, wiring_name};
use mrc_answer::{
    Answer, Answered, DemandNotices, LeakyLine, Notices, Notification, PlainLine, Reply, WasRead,
};
use mrc_base::{ClassId, PortRight, TaskId};
use mrc_command::shown;
use mrc_wiring::{Wired, kind_word};
use mrc_words::{class_word, right_word, task_word};
use std::alloc::{AllocError, Global};

/// So many lines are printed at most of a kind.
pub(crate) const MOST_LINES: usize = 10;

/// What is said of a MIG file that an older `mig` has cut.
pub(crate) const CUT_BEFORE: &str = "cut by an older mig: make it anew";

/// The line of a notice.
pub(crate) fn line_of(alloc: Global, place: &str, text: &str) -> Result<String, AllocError>
    ensures { IfOk result (λ line. string_bytes line ≡ [] → ⊥) }
{
    let place = shown(alloc, place)?;
    format!(in alloc; "machcheck: {place}: {text}\n")
}

/// Three texts, one behind the other.
pub(crate) fn joined(alloc: Global, one: &str, two: &str, three: &str) -> Result<String, AllocError>
    ensures { IfOk result (λ text. string_bytes text ≡ one.now ++ (two.now ++ three.now)) }
{
    format!(in alloc; "{one}{two}{three}")
}

/// How many routines that carry rights are not in the model, and their names.
pub(crate) fn carriers_text(alloc: Global, names: &[String]) -> Result<String, AllocError> {
    let count = names.len();
    let words = if count == 1 {
        " routine that carries rights is not in the model: "
    } else {
        " routines that carry rights are not in the model: "
    };
    let list = names.join(alloc, ", ")?;
    format!(in alloc; "{count}{words}{list}")
}

/// The line of a file from which these routines are left out: none, if there are none.
fn dropped_line(alloc: Global, file: &str, names: &[String]) -> Result<String, AllocError>
    ensures { IfOk result (λ line. string_bytes line ≡ [] → map string_bytes names.now ≡ []) }
{
    if names.is_empty() {
        return Ok(String::new(alloc));
    }
    let text = carriers_text(alloc, names)?;
    line_of(alloc, file, text.as_str())
}

/// A line for each file from which routines are left out that may carry rights.
fn dropped_lines(
    alloc: Global,
    read: &WasRead<'_>,
    left_out: &[Vec<String>],
) -> Result<String, AllocError>
    ensures { IfOk result (λ text. string_bytes text ≡ []
        → All HasNoNames (map (λ names. map string_bytes names.items) left_out.now)) }
{
    let mut text = String::new(alloc);
    for (number, names) in left_out.iter().enumerate() {
        let line = dropped_line(alloc, defs_name(read, number), names.as_slice())?;
        text.push_str(line.as_str())?;
    }
    Ok(text)
}

/// The line of a MIG file of this number, which an older `mig` has cut.
fn cut_line(alloc: Global, read: &WasRead<'_>, number: usize) -> Result<String, AllocError>
    ensures { IfOk result (λ line. string_bytes line ≡ [] → ⊥) }
{
    line_of(alloc, defs_name(read, number), CUT_BEFORE)
}

/// A line for each of these MIG files, which an older `mig` has cut.
fn each_cut_line(alloc: Global, read: &WasRead<'_>, cut: &[usize]) -> Result<String, AllocError> {
    let mut text = String::new(alloc);
    for number in cut {
        let line = cut_line(alloc, read, *number)?;
        text.push_str(line.as_str())?;
    }
    Ok(text)
}

/// The same: nothing only of no file.
#[tactic(auto, using(crate::proofs::EmptyLaws::first_empty))]
fn cut_lines(alloc: Global, read: &WasRead<'_>, cut: &[usize]) -> Result<String, AllocError>
    ensures { IfOk result (λ text. string_bytes text ≡ [] → cut.now ≡ []) }
{
    match cut {
        [] => Ok(String::new(alloc)),
        [first, others @ ..] => {
            let line = cut_line(alloc, read, *first)?;
            let others = each_cut_line(alloc, read, others)?;
            joined(alloc, line.as_str(), others.as_str(), "")
        }
    }
}

/// The lines of MIG files: from which routines are left out that may carry rights, and which an
/// older `mig` has cut.
#[tactic(auto, using(crate::proofs::EmptyLaws::first_empty, crate::proofs::EmptyLaws::rest_empty))]
fn defs_lines(
    alloc: Global,
    read: &WasRead<'_>,
    left_out: &[Vec<String>],
    cut: &[usize],
) -> Result<String, AllocError>
    ensures left_out { IfOk result (λ text. string_bytes text ≡ []
        → All HasNoNames (map (λ names. map string_bytes names.items) left_out.now)) }
    ensures cut { IfOk result (λ text. string_bytes text ≡ [] → cut.now ≡ []) }
{
    let dropped = dropped_lines(alloc, read, left_out)?;
    let cut = cut_lines(alloc, read, cut)?;
    joined(alloc, dropped.as_str(), cut.as_str(), "")
}

/// The line of a routine of notifications, if there is one.
fn notification_line(
    alloc: Global,
    read: &WasRead<'_>,
    notification: &Option<Notification>,
) -> Result<String, AllocError>
    ensures { IfOk result (λ line. string_bytes line ≡ [] → notification.now ≡ None) }
{
    let Some(Notification { file, routine }) = notification else {
        return Ok(String::new(alloc));
    };
    let text = format!(in alloc;
        "{routine}: notifications of no senders and of dead names are not in the model"
    )?;
    line_of(alloc, defs_name(read, *file), text.as_str())
}

/// The line of a policy that forbids nothing, if it is one.
fn empty_line(alloc: Global, policy: &str, is_empty: bool) -> Result<String, AllocError>
    ensures { IfOk result (λ line. string_bytes line ≡ [] → is_empty ≡ false) }
{
    if is_empty {
        line_of(alloc, policy, "forbids nothing")
    } else {
        Ok(String::new(alloc))
    }
}

/// A line about a line of the policy.
fn line_at(alloc: Global, policy: &str, number: usize, text: &str) -> Result<String, AllocError>
    ensures { IfOk result (λ line. string_bytes line ≡ [] → ⊥) }
{
    let place = format!(in alloc; "{policy}:{number}")?;
    line_of(alloc, place.as_str(), text)
}

/// Of so many lines, the line that prints how many are not printed, if some are not.
fn more_line(
    alloc: Global,
    policy: &str,
    one: &str,
    many: &str,
    count: usize,
) -> Result<String, AllocError> {
    if count <= MOST_LINES {
        return Ok(String::new(alloc));
    }
    if count == MOST_LINES + 1 {
        return line_of(alloc, policy, one);
    }
    let more = count - MOST_LINES;
    let text = format!(in alloc; "{more}{many}")?;
    line_of(alloc, policy, text.as_str())
}

/// The name of a task; its number, if there is no wiring.
fn task_text(alloc: Global, wired: Option<&Wired>, task: TaskId) -> Result<String, AllocError> {
    match wired {
        Some(wired) => task_word(alloc, wired, task),
        None => format!(in alloc; "task {}", task.0),
    }
}

/// The words of a class; its number, if there is no wiring.
fn class_text(alloc: Global, wired: Option<&Wired>, class: ClassId) -> Result<String, AllocError> {
    match wired {
        Some(wired) => class_word(alloc, wired, class),
        None => format!(in alloc; "class {}", class.0),
    }
}

/// The words of kinds, with a comma and a blank between each two.
fn kinds_text(alloc: Global, kinds: &[u8]) -> Result<String, AllocError> {
    let words: Vec<&str> = kinds.iter().map(|kind| kind_word(*kind)).collect(alloc)?;
    words.join(alloc, ", ")
}

/// The words of rights, with an `and` between each two.
fn rights_text(alloc: Global, rights: &[PortRight]) -> Result<String, AllocError> {
    let words: Vec<&str> = rights
        .iter()
        .map(|right| right_word(*right))
        .collect(alloc)?;
    words.join(alloc, " and ")
}

/// The line of a line that names births without a kind.
fn plain_line(
    alloc: Global,
    wired: Option<&Wired>,
    policy: &str,
    plain: &PlainLine,
) -> Result<String, AllocError>
    ensures { IfOk result (λ line. string_bytes line ≡ [] → ⊥) }
{
    let task = task_text(alloc, wired, plain.task())?;
    let kinds = kinds_text(alloc, plain.kinds())?;
    let text = format!(in alloc; "births {task} is kind 0 alone; {task} has kinds {kinds}")?;
    line_at(alloc, policy, plain.number(), text.as_str())
}

/// The first lines that name births without a kind, and how many more there are.
#[tactic(auto, using(crate::proofs::EmptyLaws::first_empty, crate::proofs::EmptyLaws::rest_empty))]
fn plain_lines(
    alloc: Global,
    wired: Option<&Wired>,
    policy: &str,
    plain: &[PlainLine],
) -> Result<String, AllocError>
    ensures { IfOk result (λ text. string_bytes text ≡ [] → plain.now ≡ []) }
{
    let Some((first, further)) = plain.split_first() else {
        return Ok(String::new(alloc));
    };
    let first = plain_line(alloc, wired, policy, first)?;
    let further: String = further
        .iter()
        .take(MOST_LINES - 1)
        .map(|one| plain_line(alloc, wired, policy, one))
        .try_collect(alloc)?;
    let more = more_line(
        alloc,
        policy,
        "1 more line names births that are kind 0 alone",
        " more lines name births that are kind 0 alone",
        plain.len(),
    )?;
    joined(alloc, first.as_str(), further.as_str(), more.as_str())
}

/// The line of a line that holds while another right may be held.
fn leaky_line(
    alloc: Global,
    wired: Option<&Wired>,
    policy: &str,
    leaky: &LeakyLine,
) -> Result<String, AllocError>
    ensures { IfOk result (λ line. string_bytes line ≡ [] → ⊥) }
{
    let line = leaky.line();
    let task = task_text(alloc, wired, TaskId(u32::from(line.task)))?;
    let class = class_text(alloc, wired, line.class)?;
    let rights = rights_text(alloc, leaky.rights())?;
    let text = format!(in alloc; "holds, but {task} may hold {class} {rights}")?;
    line_at(alloc, policy, line.line as usize, text.as_str())
}

/// The first lines that hold while another right may be held, and how many more there are.
#[tactic(auto, using(crate::proofs::EmptyLaws::first_empty, crate::proofs::EmptyLaws::rest_empty))]
fn leaky_lines(
    alloc: Global,
    wired: Option<&Wired>,
    policy: &str,
    leaky: &[LeakyLine],
) -> Result<String, AllocError>
    ensures { IfOk result (λ text. string_bytes text ≡ [] → leaky.now ≡ []) }
{
    let Some((first, further)) = leaky.split_first() else {
        return Ok(String::new(alloc));
    };
    let first = leaky_line(alloc, wired, policy, first)?;
    let further: String = further
        .iter()
        .take(MOST_LINES - 1)
        .map(|one| leaky_line(alloc, wired, policy, one))
        .try_collect(alloc)?;
    let more = more_line(
        alloc,
        policy,
        "1 more line holds, but another right on its class may be held",
        " more lines hold, but another right on their class may be held",
        leaky.len(),
    )?;
    joined(alloc, first.as_str(), further.as_str(), more.as_str())
}

/// The line of the tasks that the wiring trusts, if there are some.
fn trusted_line(alloc: Global, file: &str, names: &[String]) -> Result<String, AllocError>
    ensures { IfOk result (λ line. string_bytes line ≡ [] → map string_bytes names.now ≡ []) }
{
    if names.is_empty() {
        return Ok(String::new(alloc));
    }
    let list = names.join(alloc, ", ")?;
    let text = format!(in alloc; "trusted: {list}")?;
    line_of(alloc, file, text.as_str())
}

/// The line of a policy that expects nothing, if it is one.
fn expects_line(alloc: Global, policy: &str, expects_nothing: bool) -> Result<String, AllocError>
    ensures { IfOk result (λ line. string_bytes line ≡ [] → expects_nothing ≡ false) }
{
    if expects_nothing {
        line_of(alloc, policy, "expects nothing")
    } else {
        Ok(String::new(alloc))
    }
}

/// The first lines that waive nothing, and how many more there are.
#[tactic(auto, using(crate::proofs::EmptyLaws::first_empty, crate::proofs::EmptyLaws::rest_empty))]
fn idle_lines(alloc: Global, policy: &str, idle: &[u32]) -> Result<String, AllocError>
    ensures { IfOk result (λ text. string_bytes text ≡ [] → idle.now ≡ []) }
{
    let Some((first, further)) = idle.split_first() else {
        return Ok(String::new(alloc));
    };
    let first = line_at(alloc, policy, *first as usize, "waives nothing")?;
    let further: String = further
        .iter()
        .take(MOST_LINES - 1)
        .map(|one| line_at(alloc, policy, *one as usize, "waives nothing"))
        .try_collect(alloc)?;
    let more = more_line(
        alloc,
        policy,
        "1 more line waives nothing",
        " more lines waive nothing",
        idle.len(),
    )?;
    joined(alloc, first.as_str(), further.as_str(), more.as_str())
}

/// The line of facts that are expected and not judged, if there are some.
fn unjudged_line(alloc: Global, policy: &str, count: usize) -> Result<String, AllocError>
    ensures { IfOk result (λ line. string_bytes line ≡ [] → count ≡ 0) }
{
    match count {
        0 => Ok(String::new(alloc)),
        1 => line_of(alloc, policy, "1 expected fact is not judged: use verify"),
        count => {
            let text = format!(in alloc; "{count} expected facts are not judged: use verify")?;
            line_of(alloc, policy, text.as_str())
        }
    }
}

/// What is told of a policy of version 3.
#[tactic(auto, using(crate::proofs::EmptyLaws::first_empty, crate::proofs::EmptyLaws::rest_empty))]
fn demand_lines(alloc: Global, policy: &str, demands: &DemandNotices) -> Result<String, AllocError>
    ensures expects { IfOk result (λ text.
        string_bytes text ≡ [] → demands.now.expects_nothing ≡ false) }
    ensures idle { IfOk result (λ text. string_bytes text ≡ [] → demands.now.idle ≡ []) }
    ensures unjudged { IfOk result (λ text. string_bytes text ≡ [] → demands.now.unjudged ≡ 0) }
{
    let expects = expects_line(alloc, policy, demands.expects_nothing)?;
    let idle = idle_lines(alloc, policy, demands.idle.as_slice())?;
    let unjudged = unjudged_line(alloc, policy, demands.unjudged)?;
    joined(alloc, expects.as_str(), idle.as_str(), unjudged.as_str())
}

/// The lines that name parts of the wiring, and those of a policy of version 3.
#[tactic(auto, using(crate::proofs::EmptyLaws::first_empty, crate::proofs::EmptyLaws::rest_empty))]
fn named_lines(
    alloc: Global,
    read: &WasRead<'_>,
    wired: Option<&Wired>,
    notices: &Notices,
) -> Result<String, AllocError>
    ensures plain { IfOk result (λ text. string_bytes text ≡ [] → notices.now.plain ≡ []) }
    ensures leaky { IfOk result (λ text. string_bytes text ≡ [] → notices.now.leaky ≡ []) }
    ensures dead { IfOk result (λ text.
        string_bytes text ≡ [] → notices.now.dead ≡ no_dead_parts) }
    ensures expects { IfOk result (λ text.
        string_bytes text ≡ [] → notices.now.demands.expects_nothing ≡ false) }
    ensures idle { IfOk result (λ text. string_bytes text ≡ [] → notices.now.demands.idle ≡ []) }
    ensures unjudged { IfOk result (λ text.
        string_bytes text ≡ [] → notices.now.demands.unjudged ≡ 0) }
{
    let policy = policy_name(read);
    let plain = plain_lines(alloc, wired, policy, notices.plain.as_slice())?;
    let leaky = leaky_lines(alloc, wired, policy, notices.leaky.as_slice())?;
    let demands = demand_lines(alloc, policy, &notices.demands)?;
    let dead = dead_text(alloc, &Printed { read, wired }, &notices.dead)?;
    let last = joined(alloc, demands.as_str(), dead.as_str(), "")?;
    joined(alloc, plain.as_str(), leaky.as_str(), last.as_str())
}

/// The wiring of an answer: that of its system, or that of its notices.
fn wired_of<'a>(reply: &'a Reply<'_>) -> Option<&'a Wired> {
    match &reply.answer {
        Answer::Broken(broken) => Some(broken.stated.claim.wired()),
        Answer::Waived(judged) => Some(judged.stated.claim.wired()),
        Answer::Attacks(attacked) => Some(attacked.stated.claim.wired()),
        _ => reply.notices.wired.as_ref(),
    }
}

/// What is told besides an answer: a line for each notice, but ten lines of a kind at most, and how
/// many more there are.
#[tactic(auto, using(crate::proofs::EmptyLaws::first_empty, crate::proofs::EmptyLaws::rest_empty))]
pub(crate) fn notices_text(alloc: Global, answered: &Answered<'_>) -> Result<String, AllocError>
    ensures told { IfOk result (λ text.
        string_bytes text ≡ [] → AreNone answered.now.reply.notices) }
{
    let read = &answered.read;
    let notices = &answered.reply.notices;
    let left_out = notices.left_out.as_slice();
    let dropped = defs_lines(alloc, read, left_out, notices.cut_before.as_slice())?;
    let notification = notification_line(alloc, read, &notices.notification)?;
    let empty = empty_line(alloc, policy_name(read), notices.is_empty_policy)?;
    let wired = wired_of(&answered.reply);
    let named = named_lines(alloc, read, wired, notices)?;
    let trusted = trusted_line(alloc, wiring_name(read), notices.trusted.as_slice())?;
    let named = joined(alloc, empty.as_str(), named.as_str(), trusted.as_str())?;
    joined(
        alloc,
        dropped.as_str(),
        notification.as_str(),
        named.as_str(),
    )
}
