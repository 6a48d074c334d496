//! What policies forbid over wirings.

use crate::systems::wired_of;
use anyhow::{Result, bail};
use mrc_wiring::{Claim, ForbiddenLine, Wired};
use mrc_wiring_text::{PolicyLine, read_policy};
use mrc_words::right_word;
use std::alloc::{AllocError, Global};
use std::fmt::Write;

fn put_forbidden(out: &mut String, line: &ForbiddenLine) -> Result<(), AllocError> {
    let right = right_word(line.right);
    write!(out, "{} {} {right} {};", line.line, line.task, line.class.0)
}

/// Each line, and how many tasks there are.
fn shown(alloc: Global, claim: &Claim) -> Result<String, AllocError> {
    let mut out = String::new(alloc);
    for line in claim.lines() {
        put_forbidden(&mut out, line)?;
    }
    write!(out, "{}", claim.wired().tasks())?;
    Ok(out)
}

/// What lines forbid over a wiring; or the fault, and whether the tasks came back with it.
fn claimed(alloc: Global, wired: Wired, lines: &[PolicyLine]) -> Result<String> {
    let tasks = wired.tasks();
    match Claim::new(alloc, wired, lines) {
        Ok(claim) => Ok(shown(alloc, &claim)?),
        Err((wired, fault)) => bail!("{fault} {}", wired.tasks() == tasks),
    }
}

/// What a policy forbids over a wiring over MIG texts: each line by its number, its task, the right
/// and the class, and then how many tasks there are.
pub fn claim(alloc: Global, list: &str, wiring: &str, policy: &str) -> Result<String> {
    let lines = read_policy(alloc, policy.as_bytes())?;
    claimed(alloc, wired_of(alloc, list, wiring)?, lines.as_slice())
}
