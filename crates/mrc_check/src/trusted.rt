//! Whether another task could rewrite a trusted task.

ghost use Rattle.std.specs.Prelude.{◌≡◌, ◌<◌, ℕ, IfSome, IfNone};
ghost use Rattle.mrc_base.specs.declared.Fact.{Fact};
ghost use Rattle.mrc_base.specs.declared.PortRight.{PortRight};
ghost use Rattle.mrc_facts.specs.Sets.{has};
ghost use Rattle.mrc_model.specs.Wiring.{kernel_class};
ghost use Rattle.mrc_wiring.specs.Table.{wiring_of};
ghost use Rattle.mrc_check.specs.Trusted.{is_bound, may_rewrite, AreSecure, IsExposed};
ghost use Rattle.mrc_check.specs.Trusted.{IsFirstRewriter, IsSecure};

use mrc_base::{ClassId, Fact, PortRight, TaskId};
use mrc_classes::Facts;
use mrc_model::Verb;
use mrc_wiring::Wired;

/// Whether lines limit both what tasks of the class take and what they give.
fn is_bound(wired: &Wired, task: u16) -> bool
    ensures { result ≡ is_bound (wiring_of wired.now) task }
{
    let task = TaskId(u32::from(task));
    wired.is_limited(Verb::Takes, task) && wired.is_limited(Verb::Gives, task)
}

/// The hold of a task's kernel port by a task.
fn kernel_hold(wired: &Wired, of: u16, by: u16) -> Fact
    requires { of < (wiring_of wired.now).tasks }
    ensures { result ≡ Fact.Hold by (kernel_class (wiring_of wired.now) of) PortRight.Send }
{
    let _tasks = wired.tasks();
    Fact::Hold {
        task: by,
        class: ClassId(wired.ports() + of),
        right: PortRight::Send,
    }
}

/// Whether the task `by` may rewrite the task `of`.
fn may_rewrite(wired: &Wired, facts: &Facts, of: u16, by: u16) -> bool
    ensures { result ≡ may_rewrite (wiring_of wired.now) (has facts.now) of by }
{
    of < wired.tasks() && by != of && !is_bound(wired, by) && facts.has(&kernel_hold(wired, of, by))
}

/// The first task that may rewrite the task.
fn first_rewriter(wired: &Wired, facts: &Facts, task: u16) -> Option<u16>
    ensures some { IfSome result (IsFirstRewriter (wiring_of wired.now) (has facts.now) task) }
    ensures there { IfSome result (λ by. task < (wiring_of wired.now).tasks) }
    ensures none { IfNone result (IsSecure (wiring_of wired.now) (has facts.now) task) }
{
    for by in 0..wired.tasks() {
        if may_rewrite(wired, facts, task, by) {
            return Some(by);
        }
    }
    None
}

/// The number of the first trust line whose task another may rewrite, and the hold by which the
/// first of those tasks may.
pub fn first_exposed(wired: &Wired, facts: &Facts) -> Option<(u32, Fact)>
    ensures some { IfSome result
        (λ exposed. IsExposed wired.now (has facts.now) exposed.0 exposed.1) }
    ensures none { IfNone result
        (AreSecure (wiring_of wired.now) (has facts.now) wired.now.trusts) }
{
    for line in wired.trusts() {
        if let Some(by) = first_rewriter(wired, facts, line.task) {
            return Some((line.line, kernel_hold(wired, line.task, by)));
        }
    }
    None
}
