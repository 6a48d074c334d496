//! A gate at which threads meet, and that the workers of `make` run at once.

use crate::starting::{Stop, or_stop, system_of};
use crate::systems::{NOBODY, SystemTexts, TWO};
use mrc_base::Gate;
use mrc_closure::make;
use std::sync::Wait;
use std::sync::atomic::{AtomicBool, AtomicUsize, Ordering};
use std::test::Fail;
use std::thread;
use std::thread::Threads;

/// Holds each thread until so many have entered, for so many turns at most.
#[derive(Drop)]
pub struct Meeting {
    awaited: usize,
    entered: AtomicUsize,
    gave_up: AtomicBool,
}

impl Meeting {
    /// A gate at which so many threads meet; one that is open if none does.
    pub fn of(awaited: usize) -> Meeting {
        Meeting {
            awaited,
            entered: AtomicUsize::new(0),
            gave_up: AtomicBool::new(false),
        }
    }

    /// How many have entered, or none if one of them waited in vain.
    pub fn met(&self) -> usize {
        if self.gave_up.load(Ordering::SeqCst) {
            return 0;
        }
        self.entered.load(Ordering::SeqCst)
    }
}

impl Gate for Meeting {
    fn enter(&self, _number: usize) {
        let _before = self.entered.fetch_add(1, Ordering::SeqCst);
        for _ in 0..1_000_000u32 {
            if self.entered.load(Ordering::SeqCst) >= self.awaited {
                return;
            }
            thread::yield_now();
        }
        self.gave_up.store(true, Ordering::SeqCst);
    }
}

/// How many facts five workers find, each of which enters the gate.
fn count_facts<R: AllocGlobal + Threads + Wait + Sync>(
    rt: &R,
    texts: &SystemTexts,
    gate: &Meeting,
) -> Result<usize, Stop> {
    let system = system_of(rt.alloc(), texts)?;
    let draft = or_stop(make(rt, rt.alloc(), &system.wired, 5, gate), Stop::Memory);
    drop(system);
    Ok(draft?.facts.len())
}

// Each worker enters once, also if there is no fact, and all are at work at once. Two tasks, one of
// which holds the other's kernel port, share all rights on two kernel ports and on the births of
// both.
#[test]
fn workers_are_at_work_at_once(rt: HostRuntime) -> Result<(), Fail> {
    for (texts, want) in [(NOBODY, 0), (TWO, 16)] {
        let gate = Meeting::of(5);
        assert_eq!(rt; count_facts(&rt, &texts, &gate)?, want);
        assert_eq!(rt; gate.met(), 5);
    }
    Ok(())
}
