//! What is told besides an answer, gathered of files.

ghost use Rattle.std.specs.Prelude.{◌≡◌, ◌&&◌, ◌++◌, [], ◌∷◌, not, map, IfOk, OnOk, Some};
ghost use Rattle.std.specs.Prelude.{string_bytes};
ghost use Rattle.std.specs.Option.{option_map};
ghost use Rattle.mrc_facts.specs.Sets.{has};
ghost use Rattle.mrc_model.specs.Rules.{IsLeast};
ghost use Rattle.mrc_wiring.specs.Table.{wiring_of};
ghost use Rattle.mrc_words.specs.Words.{task_word};
ghost use Rattle.mrc_interface.specs.Left.{carriers, is_old_cut};
ghost use Rattle.mrc_answer.specs.Notices.{AreNotices, AreWaivedNotices, AreYesNotices};
ghost use Rattle.mrc_answer.specs.Notices.{notices_from, notices_of, is_empty};
ghost use Rattle.mrc_answer.specs.Files.{given};
ghost use Rattle.mrc_answer.specs.PlainLines as definitions;
ghost use Rattle.mrc_answer.specs.Notices.{left_out, number_if, cut_before};
ghost use Rattle.mrc_answer.specs.Notices.{left_out_alone, left_out_and_trusted};
ghost use Rattle.mrc_answer.specs.Notices.{is_notification, notification_in, notification_from};
ghost use Rattle.mrc_answer.specs.Notices.{is_trusted, name_if, trusted_names};

use crate::demands::{demand_notices, expected_facts};
use crate::files::Files;
use crate::leaky_lines::leaky_lines;
use crate::notices::{DemandNotices, Notices, Notification};
use crate::plain_lines::{PlainLine, plain_lines};
use mrc_base::TaskId;
use mrc_check::Stated;
use mrc_dead::{DeadParts, dead_parts};
use mrc_forms::{Form, Interface, MessageKind};
use mrc_interface::{carriers, is_old_cut};
use mrc_rows::Facts;
use mrc_wiring::{Claim, ForbiddenLine, TrustedLine, Wired};
use mrc_wiring_text::WiringLine;
use mrc_words::task_word;
use std::alloc::{AllocError, Global};

/// Adds the routines that may carry rights and are left out of a MIG file of these bytes.
fn add_left_out(alloc: Global, left: &mut Vec<Vec<String>>, bytes: &[u8]) -> Result<(), AllocError>
    ensures { OnOk result (map (λ names. map string_bytes names.items) left.new.items
        ≡ map (λ names. map string_bytes names.items) left.old.items
        ++ (carriers bytes.now ∷ [])) }
{
    let names = carriers(alloc, bytes)?;
    left.push(names)?;
    Ok(())
}

/// Of each MIG file, which has these bytes, the routines that may carry rights and are left out.
#[tactic(auto, using(crate::proofs::NoticeLaws::left_more, crate::proofs::NoticeLaws::left_end))]
fn left_out(alloc: Global, defs: &[Vec<u8>]) -> Result<Vec<Vec<String>>, AllocError>
    ensures { IfOk result (λ left. map (λ names. map string_bytes names.items) left.items
        ≡ left_out (map (λ text. text.items) defs.now)) }
{
    let mut left = Vec::new(alloc);
    for bytes in defs {
        add_left_out(alloc, &mut left, bytes.as_slice())?;
    }
    Ok(left)
}

/// Adds the number of a MIG file of these bytes, if an older `mig` has cut it.
fn add_cut(
    alloc: Global,
    cut: &mut Vec<usize>,
    number: usize,
    bytes: &[u8],
) -> Result<(), AllocError>
    ensures { OnOk result (cut.new.items
        ≡ cut.old.items ++ number_if (is_old_cut bytes.now) number) }
{
    if is_old_cut(alloc, bytes)? {
        cut.push(number)?;
    }
    Ok(())
}

/// Which of the MIG files, which have these bytes, an older `mig` has cut, by their numbers.
#[tactic(auto, using(crate::proofs::NoticeLaws::cut_more, crate::proofs::NoticeLaws::cut_end))]
fn cut_before(alloc: Global, defs: &[Vec<u8>]) -> Result<Vec<usize>, AllocError>
    ensures { IfOk result (λ cut. cut.items ≡ cut_before (map (λ text. text.items) defs.now)) }
{
    let mut cut = Vec::new(alloc);
    for (number, bytes) in defs.iter().enumerate() {
        add_cut(alloc, &mut cut, number, bytes.as_slice())?;
    }
    Ok(cut)
}

/// Whether a routine of this name asks for a notification of no senders or of a dead name, or is
/// one.
fn is_notification(name: &str) -> bool
    ensures { result ≡ is_notification name.now }
{
    name == "mach_port_request_notification"
        || name == "mach_notify_no_senders"
        || name == "mach_notify_dead_name"
}

/// The request of the first such routine of an interface.
fn notification_in(interface: &Interface) -> Option<&Form>
    ensures { option_map (λ form. form.now) result ≡ notification_in interface.now }
{
    for row in interface.rows() {
        if let Some(form) = row.form(MessageKind::Request) {
            if is_notification(form.name()) {
                return Some(form);
            }
        }
    }
    None
}

/// The MIG file of this number, with its routine that has this request.
fn notification_of(alloc: Global, file: usize, form: &Form) -> Result<Notification, AllocError>
    ensures { IfOk result (λ found. found ≡ record { file = file; routine = form.now.name }) }
{
    let routine = String::from_str(alloc, form.name())?;
    Ok(Notification { file, routine })
}

/// The first of the MIG files that has such a routine, of those that have these interfaces.
fn notification(alloc: Global, interfaces: &[Interface]) -> Result<Option<Notification>, AllocError>
    ensures { IfOk result (λ found. found ≡ notification_from 0 interfaces.now) }
{
    for (number, interface) in interfaces.iter().enumerate() {
        if let Some(form) = notification_in(interface) {
            let found = notification_of(alloc, number, form)?;
            return Ok(Some(found));
        }
    }
    Ok(None)
}

/// Whether one of the lines trusts the task of this number.
fn is_trusted(lines: &[TrustedLine], task: u16) -> bool
    ensures { result ≡ is_trusted lines.now task }
{
    lines.iter().any(|line| line.task == task)
}

/// Adds the name of the task of this number, if a line of the wiring trusts it.
fn add_name(
    alloc: Global,
    names: &mut Vec<String>,
    wired: &Wired,
    task: u16,
) -> Result<(), AllocError>
    ensures { OnOk result (map string_bytes names.new.items ≡ map string_bytes names.old.items
        ++ name_if (is_trusted wired.now.trusts task) (task_word wired.now task)) }
{
    if is_trusted(wired.trusts(), task) {
        names.push(task_word(alloc, wired, TaskId(u32::from(task)))?)?;
    }
    Ok(())
}

/// The names of the tasks that lines of the wiring trust, in the order of the tasks' numbers.
#[tactic(auto, using(crate::proofs::NoticeLaws::name_more, crate::proofs::NoticeLaws::names_end))]
fn trusted_names(alloc: Global, wired: &Wired) -> Result<Vec<String>, AllocError>
    ensures { IfOk result (λ names. map string_bytes names.items ≡ trusted_names wired.now) }
{
    let mut names = Vec::new(alloc);
    for task in 0..wired.tasks() {
        add_name(alloc, &mut names, wired, task)?;
    }
    Ok(names)
}

/// Whether no line forbids anything, and nothing is waived.
fn is_empty_policy(lines: &[ForbiddenLine], waives: bool) -> bool
    ensures { result ≡ (is_empty lines.now && not waives) }
{
    lines.is_empty() && !waives
}

/// Of each MIG file of these, the routines that may carry rights and are left out.
fn left_out_of(alloc: Global, files: &Files<'_>) -> Result<Vec<Vec<String>>, AllocError>
    ensures { IfOk result (λ left. map (λ names. map string_bytes names.items) left.items
        ≡ left_out files.now.texts.defs) }
{
    left_out(alloc, files.texts.defs.as_slice())
}

/// Which MIG files of these an older `mig` has cut, by their numbers.
fn cut_before_of(alloc: Global, files: &Files<'_>) -> Result<Vec<usize>, AllocError>
    ensures { IfOk result (λ cut. cut.items ≡ cut_before files.now.texts.defs) }
{
    cut_before(alloc, files.texts.defs.as_slice())
}

/// The lines of the policy of these files that name births without a kind, of a task that has
/// births of further kinds.
fn plain_lines_of(
    alloc: Global,
    files: &Files<'_>,
    wired: &Wired,
) -> Result<Vec<PlainLine>, AllocError>
    ensures { IfOk result (λ plain. plain.items
        ≡ definitions.plain_lines wired.now (given files.now.texts.policy)) }
{
    plain_lines(alloc, wired, files.texts.policy())
}

/// What is told of files, these lines of their wiring, their claim and what the policy demands by
/// these facts, besides an answer with which these tasks are told as trusted.
fn notices_by(
    alloc: Global,
    files: &Files<'_>,
    lines: &[WiringLine],
    claim: &Claim,
    demands: DemandNotices,
    facts: &Facts,
    trusted: Vec<String>,
) -> Result<Notices, AllocError>
    ensures { IfOk result (λ notices. notices
        ≡ record (notices_from files.now lines.now claim.now demands (has facts.now)) {
          trusted = map string_bytes trusted.items;
        }) }
{
    let wired = claim.wired();
    let left_out = left_out_of(alloc, files)?;
    let cut_before = cut_before_of(alloc, files)?;
    let notification = notification(alloc, wired.interfaces())?;
    let plain = plain_lines_of(alloc, files, wired)?;
    let leaky = leaky_lines(alloc, facts, claim.lines())?;
    let dead = dead_parts(alloc, wired, lines, facts)?;
    Ok(Notices {
        left_out,
        cut_before,
        notification,
        is_empty_policy: is_empty_policy(claim.lines(), demands.waives),
        demands,
        plain,
        leaky,
        dead,
        trusted,
        wired: None,
    })
}

/// The same of files that mean this.
fn notices_with(
    alloc: Global,
    files: &Files<'_>,
    stated: &Stated,
    facts: &Facts,
    trusted: Vec<String>,
) -> Result<Notices, AllocError>
    ensures { IfOk result (λ notices. notices
        ≡ record (notices_of files.now stated.now (has facts.now)) {
          trusted = map string_bytes trusted.items;
        }) }
{
    let demands = demand_notices(alloc, stated, facts)?;
    let lines = stated.lines.as_slice();
    notices_by(alloc, files, lines, &stated.claim, demands, facts, trusted)
}

/// What is told besides a no of files and what they mean, by the least set of its wiring.
pub(crate) fn notices(
    alloc: Global,
    files: &Files<'_>,
    stated: &Stated,
    facts: &Facts,
) -> Result<Notices, AllocError>
    requires { IsLeast (wiring_of stated.now.claim.table) (has facts.now) }
    ensures { IfOk result (AreNotices files.now stated.now) }
{
    notices_with(alloc, files, stated, facts, Vec::new(alloc))
}

/// The wiring alone.
fn into_wired(stated: Stated) -> Wired
    ensures { result ≡ stated.claim.table }
{
    let Stated {
        lines,
        claim,
        stands,
        demands,
    } = stated;
    drop((lines, stands, demands));
    claim.into_wired()
}

/// The same with this wiring.
fn with_wired(notices: Notices, wired: Wired) -> Notices
    ensures { result ≡ record notices { wired = Some wired } }
{
    let Notices {
        left_out,
        cut_before,
        notification,
        is_empty_policy,
        demands,
        plain,
        leaky,
        dead,
        trusted,
        wired: none,
    } = notices;
    drop(none);
    Notices {
        left_out,
        cut_before,
        notification,
        is_empty_policy,
        demands,
        plain,
        leaky,
        dead,
        trusted,
        wired: Some(wired),
    }
}

/// What is told besides a yes, without the wiring.
fn trusted_notices(
    alloc: Global,
    files: &Files<'_>,
    stated: &Stated,
    facts: &Facts,
) -> Result<Notices, AllocError>
    ensures { IfOk result (λ notices. notices
        ≡ record (notices_of files.now stated.now (has facts.now)) {
          trusted = trusted_names stated.now.claim.table;
        }) }
{
    let trusted = trusted_names(alloc, stated.claim.wired())?;
    notices_with(alloc, files, stated, facts, trusted)
}

/// What is told besides a yes that waives, by the least set of its wiring.
pub(crate) fn waived_notices(
    alloc: Global,
    files: &Files<'_>,
    stated: &Stated,
    facts: &Facts,
) -> Result<Notices, AllocError>
    requires { IsLeast (wiring_of stated.now.claim.table) (has facts.now) }
    ensures { IfOk result (AreWaivedNotices files.now stated.now) }
{
    trusted_notices(alloc, files, stated, facts)
}

/// What is told besides a yes of files and what they mean, by the least set of its wiring.
pub(crate) fn yes_notices(
    alloc: Global,
    files: &Files<'_>,
    stated: Stated,
    facts: &Facts,
) -> Result<Notices, AllocError>
    requires { IsLeast (wiring_of stated.claim.table) (has facts.now) }
    ensures { IfOk result (AreYesNotices files.now stated) }
{
    match trusted_notices(alloc, files, &stated, facts) {
        Ok(notices) => Ok(with_wired(notices, into_wired(stated))),
        Err(error) => {
            drop(stated);
            Err(error)
        }
    }
}

/// What is told besides the answer to a certificate, with which these tasks are told as trusted.
fn check_notices(
    alloc: Global,
    files: &Files<'_>,
    trusted: Vec<String>,
) -> Result<Notices, AllocError>
    ensures { IfOk result (λ notices. notices ≡ record (left_out_alone files.now) {
      trusted = map string_bytes trusted.items;
    }) }
{
    let left_out = left_out_of(alloc, files)?;
    let cut_before = cut_before_of(alloc, files)?;
    let unjudged = expected_facts(alloc, &files.texts)?;
    Ok(Notices {
        left_out,
        cut_before,
        notification: None,
        is_empty_policy: false,
        demands: DemandNotices {
            waives: false,
            expects_nothing: false,
            idle: Vec::new(alloc),
            unjudged,
        },
        plain: Vec::new(alloc),
        leaky: Vec::new(alloc),
        dead: DeadParts::none(alloc),
        trusted,
        wired: None,
    })
}

/// What is told besides the reason why a certificate is refused.
pub(crate) fn refused_notices(alloc: Global, files: &Files<'_>) -> Result<Notices, AllocError>
    ensures { IfOk result (λ notices. notices ≡ left_out_alone files.now) }
{
    check_notices(alloc, files, Vec::new(alloc))
}

/// What is told besides a certificate that is accepted for this wiring.
pub(crate) fn accepted_notices(
    alloc: Global,
    files: &Files<'_>,
    wired: &Wired,
) -> Result<Notices, AllocError>
    ensures { IfOk result (λ notices. notices ≡ left_out_and_trusted files.now wired.now) }
{
    let trusted = trusted_names(alloc, wired)?;
    check_notices(alloc, files, trusted)
}
