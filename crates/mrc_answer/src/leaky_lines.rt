//! The lines of a policy that hold while their task may come to hold another right on their class.

ghost use Rattle.std.specs.Prelude.{◌≡◌, ◌++◌, ℕ, IfOk, OnOk};
ghost use Rattle.std.specs.Ordering.{nat_cmp};
ghost use Rattle.std.specs.BTreeSet.{contains};
ghost use Rattle.mrc_base.specs.declared.Fact.{Fact};
ghost use Rattle.mrc_facts.specs.Sets.{has};
ghost use Rattle.mrc_answer.specs.LeakyLines as definitions;
ghost use Rattle.mrc_answer.specs.LeakyLines.{hold_of, is_forbidden, is_leak, leaks_of, leaky_line};
ghost use Rattle.mrc_answer.specs.LeakyLines.{leaky_by, all_leaky, has_broken};

use mrc_base::{Fact, PortRight};
use mrc_rows::Facts;
use mrc_why::forbidden_fact;
use mrc_wiring::ForbiddenLine;
use std::alloc::{AllocError, Global};
use std::collections::BTreeSet;
use std::marker::Model;

/// A line of a policy that holds, and the other rights on its class that its task may come to hold.
#[derive(Debug, Drop)]
pub struct LeakyLine {
    line: ForbiddenLine,
    rights: Vec<PortRight>,
}

impl Model for LeakyLine {
    ghost use Rattle.mrc_answer.specs.LeakyLines as definitions;

    ghost Value = { definitions.LeakyLine };

    ghost view = { λ l. record { line = l.line; rights = l.rights.items } };
}

impl LeakyLine {
    /// The line.
    pub fn line(&self) -> &ForbiddenLine
        ensures { result.now ≡ self.now.line }
    {
        &self.line
    }

    /// The rights, in the order of facts. There is one at least.
    pub fn rights(&self) -> &[PortRight]
        ensures { result.now ≡ self.now.rights }
    {
        self.rights.as_slice()
    }
}

/// That the line's task holds this right on the line's class.
fn hold_of(line: &ForbiddenLine, right: PortRight) -> Fact
    ensures { result ≡ hold_of line.now right }
{
    Fact::Hold {
        task: line.task,
        class: line.class,
        right,
    }
}

/// What the lines forbid.
fn forbidden_by(alloc: Global, lines: &[ForbiddenLine]) -> Result<Facts, AllocError>
    ensures { IfOk result (λ set. (f : Fact) → has set f ≡ is_forbidden lines.now f) }
{
    let mut set = Facts::new(alloc);
    for line in lines {
        let _new = set.insert(forbidden_fact(line))?;
    }
    Ok(set)
}

/// The numbers of the lines of which a fact is there.
fn broken_lines(
    alloc: Global,
    facts: &Facts,
    lines: &[ForbiddenLine],
) -> Result<BTreeSet<u32>, AllocError>
    ensures { IfOk result (λ numbers. (n : ℕ) →
        contains nat_cmp numbers n ≡ has_broken (has facts.now) lines.now n) }
{
    let mut numbers = BTreeSet::new(alloc);
    for line in lines {
        if facts.has(&forbidden_fact(line)) {
            let _new = numbers.insert(line.line)?;
        }
    }
    Ok(numbers)
}

/// Whether the line's task gets this right on the line's class, and that is not forbidden.
fn is_leak(facts: &Facts, forbidden: &Facts, line: &ForbiddenLine, right: PortRight) -> bool
    ensures { result ≡ is_leak (has facts.now) (has forbidden.now) line.now right }
{
    let hold = hold_of(line, right);
    facts.has(&hold) && !forbidden.has(&hold)
}

/// The rights on the line's class that its task gets, and that are not forbidden.
fn leaks_of(
    alloc: Global,
    facts: &Facts,
    forbidden: &Facts,
    line: &ForbiddenLine,
) -> Result<Vec<PortRight>, AllocError>
    ensures { IfOk result (λ rights. rights.items
        ≡ leaks_of (has facts.now) (has forbidden.now) line.now) }
{
    let mut rights = Vec::new(alloc);
    for right in &[PortRight::Send, PortRight::Receive, PortRight::SendOnce] {
        if is_leak(facts, forbidden, line, *right) {
            rights.push(*right)?;
        }
    }
    Ok(rights)
}

/// Puts the line with these rights at the end of the list, where it is not broken and there is
/// one.
fn push_leaky(
    is_broken: bool,
    line: &ForbiddenLine,
    rights: Vec<PortRight>,
    leaky: &mut Vec<LeakyLine>,
) -> Result<(), AllocError>
    ensures { OnOk result
        (leaky.new.items ≡ leaky.old.items ++ leaky_line is_broken line.now rights.items) }
{
    if !is_broken && !rights.is_empty() {
        leaky.push(LeakyLine {
            line: *line,
            rights,
        })?;
    }
    Ok(())
}

/// The same, with the rights by these facts and by what is forbidden; these lines are broken.
fn judge_line(
    alloc: Global,
    facts: &Facts,
    forbidden: &Facts,
    broken: &BTreeSet<u32>,
    line: &ForbiddenLine,
    leaky: &mut Vec<LeakyLine>,
) -> Result<(), AllocError>
    ensures { OnOk result (leaky.new.items
        ≡ leaky.old.items
        ++ leaky_by (has facts.now) (has forbidden.now) (contains nat_cmp broken.now) line.now) }
{
    let rights = leaks_of(alloc, facts, forbidden, line)?;
    push_leaky(broken.contains(&line.line), line, rights, leaky)
}

/// The lines that are so, in order.
fn all_leaky(
    alloc: Global,
    facts: &Facts,
    forbidden: &Facts,
    broken: &BTreeSet<u32>,
    lines: &[ForbiddenLine],
) -> Result<Vec<LeakyLine>, AllocError>
    ensures { IfOk result (λ leaky. leaky.items ≡ all_leaky (has facts.now) (has forbidden.now)
        (contains nat_cmp broken.now) lines.now) }
{
    let mut leaky = Vec::new(alloc);
    for line in lines {
        judge_line(alloc, facts, forbidden, broken, line, &mut leaky)?;
    }
    Ok(leaky)
}

/// Those of the lines that hold by these facts while their task may hold another right on their
/// class, which no line forbids: in their order, each with these rights. Of lines with one number
/// none is told where one is broken. By the least set they are the lines that hold while their task
/// may come to hold another right.
pub fn leaky_lines(
    alloc: Global,
    facts: &Facts,
    lines: &[ForbiddenLine],
) -> Result<Vec<LeakyLine>, AllocError>
    // They are these lines, and no others.
    ensures { IfOk result (λ leaky. leaky.items
        ≡ definitions.leaky_lines (has facts.now) lines.now) }
{
    let forbidden = forbidden_by(alloc, lines)?;
    let broken = broken_lines(alloc, facts, lines)?;
    let leaky = all_leaky(alloc, facts, &forbidden, &broken, lines)?;
    Ok(leaky)
}
