//! A wiring and what a policy forbids in it.

ghost use Rattle.std.specs.Prelude.{◌≡◌, ◌↔◌, IfOk, IsTrue};
ghost use Rattle.mrc_base.specs.Reading.{Gives};
ghost use Rattle.mrc_wiring.specs.Claims.{ClaimTold, forbidden, forbidden_lines};

use crate::faults::ClaimFault;
use crate::wired::Wired;
use mrc_base::{ClassId, Copies, OrMemory, PortRight, copy_all, same_all};
use mrc_wiring_text::{Forbid, PolicyLine};
use std::alloc::{AllocError, Global};
use std::marker::Model;

/// What a line of a policy forbids: that the task holds the right on a port of the class.
#[derive(Clone, Copy, Debug, PartialEq, Eq)]
pub struct ForbiddenLine {
    /// The line's number in the policy's text, from 1.
    pub line: u32,
    /// The task's number.
    pub task: u16,
    /// The right.
    pub right: PortRight,
    /// The class of ports.
    pub class: ClassId,
}

impl Copies for ForbiddenLine {
    fn copy(&self, _: Global) -> Result<ForbiddenLine, AllocError> {
        Ok(*self)
    }

    fn same(&self, other: &ForbiddenLine) -> bool {
        *self == *other
    }
}

/// A wiring, and what a policy forbids in it: what a certificate has to show.
#[derive(Debug, Drop)]
pub struct Claim {
    wired: Wired,
    lines: Vec<ForbiddenLine>,
}

impl Model for Claim {
    ghost use Rattle.mrc_wiring.specs.Claims.{Claimed};

    ghost Value = { Claimed };

    ghost view = { λ c. record { table = c.wired; lines = c.lines.items } };
}

/// The holding that a line of a policy names; or that the wiring lacks its task, its port or its kind
/// of births.
#[tactic(auto, unfolding(crate::specs::Claims::forbidden))]
pub fn forbidden(
    wired: &Wired,
    line: u32,
    says: &Forbid,
) -> Result<ForbiddenLine, OrMemory<ClaimFault>>
    ensures { Gives (λ forbids. forbids) result (forbidden wired.now line says.now) }
{
    let task = wired
        .task_named(says.task.as_str())
        .ok_or(OrMemory::Fault(ClaimFault::UnknownName(line)))?;
    let class = wired
        .class_said(&says.class)
        .ok_or(OrMemory::Fault(ClaimFault::UnknownName(line)))?;
    Ok(ForbiddenLine {
        line,
        task: task.0 as u16,
        right: says.right,
        class,
    })
}

fn forbidden_lines(
    alloc: Global,
    wired: &Wired,
    lines: &[PolicyLine],
) -> Result<Vec<ForbiddenLine>, OrMemory<ClaimFault>>
    ensures { Gives (λ forbidden. forbidden.items) result
        (forbidden_lines wired.now lines.now) }
{
    let mut forbidden_so_far = Vec::new(alloc);
    for line in lines {
        let next = forbidden(wired, line.number, &line.says)?;
        forbidden_so_far.push(next)?;
    }
    Ok(forbidden_so_far)
}

impl Claim {
    /// The claim that no task ever holds what the lines forbid. With a refusal the wiring comes
    /// back unchanged: the fault is that of the first line that names a task, a port or a kind of
    /// births that the wiring lacks.
    pub fn new(
        alloc: Global,
        wired: Wired,
        lines: &[PolicyLine],
    ) -> Result<Claim, (Wired, OrMemory<ClaimFault>)>
        ensures { ClaimTold wired result (forbidden_lines wired lines.now) }
    {
        match forbidden_lines(alloc, &wired, lines) {
            Ok(lines) => Ok(Claim { wired, lines }),
            Err(fault) => Err((wired, fault)),
        }
    }

    /// The claim that no task ever holds what these lines forbid.
    pub fn over(wired: Wired, lines: Vec<ForbiddenLine>) -> Claim
        ensures { result ≡ record { table = wired; lines = lines.items } }
    {
        Claim { wired, lines }
    }

    /// The wiring.
    pub fn wired(&self) -> &Wired
        ensures { result.now ≡ self.now.table }
    {
        &self.wired
    }

    /// The wiring by itself.
    pub fn into_wired(self) -> Wired
        ensures { result ≡ self.table }
    {
        let Claim { wired, lines: _ } = self;
        wired
    }

    /// What the policy forbids, in the order of its lines.
    pub fn lines(&self) -> &[ForbiddenLine]
        ensures { result.now ≡ self.now.lines }
    {
        self.lines.as_slice()
    }

    /// An equal claim.
    pub fn copy(&self, alloc: Global) -> Result<Claim, AllocError>
        ensures { IfOk result (λ copy. copy ≡ self.now) }
    {
        Ok(Claim {
            wired: self.wired.copy(alloc)?,
            lines: copy_all(alloc, &self.lines)?,
        })
    }

    /// Whether the claims are equal.
    pub fn same(&self, other: &Claim) -> bool
        ensures { IsTrue result ↔ (self.now ≡ other.now) }
    {
        self.wired.same(&other.wired) && same_all(&self.lines, &other.lines)
    }
}
