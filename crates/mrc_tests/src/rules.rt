//! That the rules conclude something: a body that is always out of memory has the same contract.

use crate::starting::{Stop, system_of};
use crate::systems::TWO;
use mrc_base::{ClassId, PortRight};
use mrc_classes::{Fact, Facts, Missing, RuleName, consequences, first_rules, violation};
use mrc_wiring::Wired;
use std::alloc::{AllocError, Global};
use std::test::Fail;

/// That a task holds a send right on the ports of a class.
fn send(task: u16, class: u16) -> Fact {
    Fact::Hold {
        task,
        class: ClassId(class),
        right: PortRight::Send,
    }
}

/// How many facts are there at first.
fn count_first(alloc: Global, wired: &Wired) -> Result<usize, AllocError> {
    Ok(first_rules(alloc, wired)?.len())
}

/// How many facts follow from this one, with the known ones.
fn count_following(
    alloc: Global,
    wired: &Wired,
    known: &Facts,
    fact: Fact,
) -> Result<usize, AllocError> {
    Ok(consequences(alloc, wired, known, fact)?.len())
}

/// What two tasks have at first, what follows if the second has a send right on its births and the
/// first gets one on the kernel port of the second, and what is lacked by no facts.
fn run(alloc: Global, wired: &Wired) -> Result<(usize, usize, Option<Missing>), AllocError> {
    let first = count_first(alloc, wired)?;
    let mut known = Facts::new(alloc);
    let lack = violation(alloc, wired, &known)?;
    let _new = known.insert(send(1, 3))?;
    Ok((
        first,
        count_following(alloc, wired, &known, send(0, 1))?,
        lack,
    ))
}

/// The same of the system.
fn run_of_two(alloc: Global) -> Result<(usize, usize, Option<Missing>), Stop> {
    let system = system_of(alloc, &TWO)?;
    let answer = run(alloc, &system.wired);
    drop(system);
    Ok(answer?)
}

// At first each task has its kernel port and its births, and one the other's kernel port; then the
// two share their send rights.
#[test]
fn rules_are_run(rt: HostRuntime) -> Result<(), Fail> {
    let (first, following, lack) = run_of_two(rt.alloc())?;
    assert_eq!(rt; first, 5);
    assert_eq!(rt; following, 2);
    let missing = Missing {
        rule: RuleName::First,
        fact: send(0, 0),
    };
    assert_eq!(rt; lack, Some(missing));
    Ok(())
}
