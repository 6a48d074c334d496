//! Why a certificate is refused, as it is printed.

ghost use Rattle.std.specs.Prelude.{IfOk, string_bytes};
ghost use Rattle.mrc_print.specs.Heads.{IsNo};

use mrc_base::OrMemory;
use mrc_check::Why;
use mrc_wide_policy::{PolicySays, Quoted, read_wide_policy};
use mrc_wiring::Wired;
use mrc_words::fact_text;
use std::alloc::{AllocError, Global};

/// The name of the line of a number behind a blank, if these are the lines of a policy of version 3
/// and it has one.
fn name_word(alloc: Global, policy: &[u8], number: u32) -> Result<String, AllocError> {
    let lines = match read_wide_policy(alloc, policy) {
        Ok(lines) => lines,
        Err(OrMemory::Fault(_)) => return Ok(String::new(alloc)),
        Err(OrMemory::Memory) => return Err(AllocError),
    };
    for line in &lines {
        if let PolicySays::Forbid { name, .. } = &line.says {
            if line.number == number {
                return match name.as_ref().and_then(Quoted::as_str) {
                    Some(name) => format!(in alloc; " \"{name}\""),
                    None => Ok(String::new(alloc)),
                };
            }
        }
    }
    Ok(String::new(alloc))
}

/// The line of a reason, of a policy of this text.
pub(crate) fn reason_line(
    alloc: Global,
    wired: &Wired,
    policy: &[u8],
    why: Why,
) -> Result<String, AllocError>
    ensures { IfOk result (λ line. IsNo (string_bytes line)) }
{
    match why {
        Why::Counts => String::from_str(alloc, "NO counts\n"),
        Why::MissingFirst(fact) => {
            let fact = fact_text(alloc, wired, fact)?;
            format!(in alloc; "NO missing {fact}\n")
        }
        Why::NotClosed(rule, fact) => {
            let rule = rule.number();
            let fact = fact_text(alloc, wired, fact)?;
            format!(in alloc; "NO not closed K{rule} {fact}\n")
        }
        Why::Trusted(number, fact) => {
            let fact = fact_text(alloc, wired, fact)?;
            format!(in alloc; "NO trusted line {number} {fact}\n")
        }
        Why::Forbidden(number) => {
            let name = name_word(alloc, policy, number)?;
            format!(in alloc; "NO forbidden line {number}{name}\n")
        }
    }
}

/// What helps with a certificate of another wiring, if more is asked for: nothing of another
/// reason.
pub(crate) fn stale_note(alloc: Global, verbose: bool, why: Why) -> Result<String, AllocError> {
    if !verbose {
        return Ok(String::new(alloc));
    }
    match why {
        Why::Counts | Why::MissingFirst(_) | Why::NotClosed(_, _) => String::from_str(
            alloc,
            "machcheck: this certificate is not of this wiring: make it anew, or use verify\n",
        ),
        Why::Trusted(_, _) | Why::Forbidden(_) => Ok(String::new(alloc)),
    }
}
