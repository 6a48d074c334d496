//! Machines of systems that were checked. A call that is out of memory has to return what it took,
//! and is made once more.

ghost use Rattle.std.specs.Prelude.{◌≡◌, Err, IfOk, MatchResult, Ok};
ghost use Rattle.mrc_confine.specs.Guards.{wiring_in};
ghost use Rattle.mrc_model.specs.First.{first};

use crate::systems::SystemTexts;
use mrc_base::OrMemory;
use mrc_certificate::Draft;
use mrc_check::{Confined, PolicyText, Refused, Stated, System, Why, check};
use mrc_closure::make_alone;
use mrc_confine::Guarded;
use mrc_report::{Script, read_script};
use mrc_wiring::Claim;
use std::alloc::{AllocError, AllocFailed, Global};
use std::slice;
use std::thread::Threads;

/// Why a test ends early.
#[derive(Clone, Copy, Debug, PartialEq, Eq)]
pub enum Stop {
    /// Memory ran out in a call that is not made once more, or such a call has a fault.
    Memory,
    /// A call that was out of memory changed something.
    Changed,
    /// A call that was out of memory is refused once more.
    Again,
}

impl From<AllocError> for Stop {
    fn from(_error: AllocError) -> Stop {
        Stop::Memory
    }
}

impl<T: Drop> From<AllocFailed<T>> for Stop {
    fn from(_error: AllocFailed<T>) -> Stop {
        Stop::Memory
    }
}

/// The value, or why a test ends early.
pub fn or_stop<T, B: Drop>(answer: Result<T, B>, stop: Stop) -> Result<T, Stop>
    ensures { MatchResult answer (λ x. result ≡ Ok x) (λ _. result ≡ Err stop) }
{
    match answer {
        Ok(value) => Ok(value),
        Err(_) => Err(stop),
    }
}

/// Prints on standard error that a call of this name was out of memory.
pub fn note(rt: &impl Eprint, call: &str) {
    let _printed = eprintln!(rt; "{call}: Memory");
}

fn system_over(alloc: Global, defs: &[Vec<u8>], texts: &SystemTexts) -> Result<System, Stop> {
    or_stop(
        System::read(alloc, defs, texts.wiring.as_bytes()),
        Stop::Memory,
    )
}

/// The system of these texts.
pub fn system_of(alloc: Global, texts: &SystemTexts) -> Result<System, Stop> {
    let file = Vec::from_slice(alloc, texts.defs.as_bytes())?;
    system_over(alloc, slice::from_ref(&file), texts)
}

/// One call of `System::claim`. The system comes back if there is no claim.
fn claimed(alloc: Global, system: System, policy: &str) -> Result<Claim, System> {
    let policy = PolicyText {
        bytes: policy.as_bytes(),
        waives: false,
    };
    match system.claim(alloc, &policy) {
        Ok(
            Stated {
                lines,
                claim,
                stands,
                demands,
            },
        ) => {
            drop((lines, stands, demands));
            Ok(claim)
        }
        Err((system, why)) => {
            drop(why);
            Err(system)
        }
    }
}

/// The same, once more if memory ran out.
fn claimed_at_last<R: AllocGlobal + Eprint>(
    rt: &R,
    system: System,
    policy: &str,
) -> Result<Claim, System> {
    match claimed(rt.alloc(), system, policy) {
        Ok(claim) => Ok(claim),
        Err(back) => {
            note(rt, "System::claim");
            claimed(rt.alloc(), back, policy)
        }
    }
}

/// The claim of a system, with a policy that forbids nothing.
fn claim_of<R: AllocGlobal + Eprint>(rt: &R, texts: &SystemTexts) -> Result<Claim, Stop> {
    let system = system_of(rt.alloc(), texts)?;
    or_stop(claimed_at_last(rt, system, "policy 1\n"), Stop::Again)
}

/// A claim that was refused with its certificate.
type Unchecked = Refused<OrMemory<Why>>;

/// One call of `check`. What it was given comes back if it says no.
fn judged<R: Threads + Sync>(
    rt: &R,
    alloc: Global,
    claim: Claim,
    draft: Draft,
) -> Result<Confined, Unchecked> {
    check(rt, alloc, claim, draft)
}

/// The same, once more if memory ran out.
fn judged_at_last<R: AllocGlobal + Eprint + Threads + Sync>(
    rt: &R,
    claim: Claim,
    draft: Draft,
) -> Result<Confined, Unchecked> {
    match judged(rt, rt.alloc(), claim, draft) {
        Ok(confined) => Ok(confined),
        Err(back) => {
            note(rt, "check");
            judged(rt, rt.alloc(), back.claim, back.draft)
        }
    }
}

fn draft_of(alloc: Global, claim: &Claim) -> Result<Draft, AllocError> {
    make_alone(alloc, claim.wired())
}

/// A system, as it was checked.
pub fn confined_of<R: AllocGlobal + Eprint + Threads + Sync>(
    rt: &R,
    texts: &SystemTexts,
) -> Result<Confined, Stop> {
    let claim = claim_of(rt, texts)?;
    match draft_of(rt.alloc(), &claim) {
        Ok(draft) => or_stop(judged_at_last(rt, claim, draft), Stop::Again),
        Err(_) => {
            drop(claim);
            Err(Stop::Memory)
        }
    }
}

/// One call of `Guarded::start`. What was checked comes back if it does not start.
fn started(alloc: Global, confined: Confined) -> Result<Guarded, Confined>
    ensures { IfOk result (λ g. g.world ≡ first (wiring_in g.confined)) }
{
    Guarded::start(alloc, confined)
}

/// The same, once more if memory ran out.
fn started_at_last<R: AllocGlobal + Eprint>(rt: &R, confined: Confined) -> Result<Guarded, Confined>
    ensures { IfOk result (λ g. g.world ≡ first (wiring_in g.confined)) }
{
    match started(rt.alloc(), confined) {
        Ok(guarded) => Ok(guarded),
        Err(back) => {
            note(rt, "Guarded::start");
            started(rt.alloc(), back)
        }
    }
}

/// The machine of a system, in its first state.
pub fn machine_of<R: AllocGlobal + Eprint + Threads + Sync>(
    rt: &R,
    texts: &SystemTexts,
) -> Result<Guarded, Stop>
    ensures { IfOk result (λ g. g.world ≡ first (wiring_in g.confined)) }
{
    let confined = confined_of(rt, texts)?;
    or_stop(started_at_last(rt, confined), Stop::Again)
}

/// The script of a text, by the tasks of a system.
pub fn script_of(
    alloc: Global,
    confined: &Confined,
    text: &str,
    live: bool,
) -> Result<Script, Stop> {
    or_stop(
        read_script(alloc, confined.wired(), text, live),
        Stop::Memory,
    )
}
