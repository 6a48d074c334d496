//! What the lock keeps: the desk, and which seats can make no event.

ghost use Rattle.std.specs.Prelude.{◌≡◌, ◌≢◌, ◌<◌, ◌≤◌, ◌↔◌, ℕ, IfErr, IfNone, IfOk, IfSome, OnErr};
ghost use Rattle.std.specs.Prelude.{IsTrue};
ghost use Rattle.mrc_base.specs.Limits.{limit_of_seats};
ghost use Rattle.mrc_live.specs.Desks.{call_in, seat_after};
ghost use Rattle.mrc_live.specs.Waits.{AreBelow, AreInVain, FindsNone, IsBelow, IsIdle, IsInVain};
ghost use Rattle.mrc_live.specs.Waits.{noted};
ghost use Rattle.mrc_machine.specs.declared.call.Call.TheVariants.{Receive};
ghost use Rattle.mrc_machine.specs.declared.reply.Reply.TheVariants.{Refused};
ghost use Rattle.mrc_model.specs.declared.Code.TheVariants.{MachRcvTimedOut};

use crate::desk::{Desk, NotReceived, NotTaken};
use crate::finishing::PLACES;
use crate::seat::Seat;
use mrc_base::TaskId;
use mrc_machine::{Call, Reply};
use std::marker::Model;
use std::sync::Condvar;
use std::sync::ledger::Ledger;

/// Whether a seat can make an event.
#[derive(Clone, Copy, Debug, PartialEq, Eq)]
pub(crate) enum Idle {
    /// It can.
    No,
    /// It waits for a message, and would find none. An event that changes that wakes it.
    Waits {
        /// Its task.
        task: TaskId,
        /// The name that it receives from.
        name: u32,
        /// How many bytes the message may have.
        limit: u32,
    },
    /// It makes no more calls.
    Left,
}

/// What each seat sleeps on while it waits, by the numbers of the seats. They are outside the lock.
pub(crate) type Bells = [Condvar; PLACES];

/// Wakes all that wait.
pub(crate) fn ring_all(bells: &Bells) {
    for bell in bells {
        bell.notify_all();
    }
}

/// What is to be noted of a seat by now. One that waits is woken if it would go on: if it would
/// find a message or another refusal, or the journal is full.
fn by_now<L: Ledger>(desk: &Desk<L>, idle: Idle, bell: &Condvar) -> Idle
    ensures vain { IsInVain desk.now result }
    ensures below { (bound number : ℕ) → IsBelow bound number idle
        → IsBelow bound number result }
{
    match idle {
        Idle::No => Idle::No,
        Idle::Left => Idle::Left,
        Idle::Waits { task, name, limit } => {
            if desk.finds_none(task, name, limit) {
                return Idle::Waits { task, name, limit };
            }
            bell.notify_all();
            Idle::No
        }
    }
}

/// Wakes the seats that wait and would go on by now: after an event.
fn wake<L: Ledger>(desk: &Desk<L>, idle: &mut [Idle; PLACES], bound: usize, bells: &Bells)
    requires few { bound ≤ limit_of_seats }
    requires below { AreBelow bound idle.old }
    ensures vain { AreInVain desk.now idle.new }
    ensures below { AreBelow bound idle.new }
{
    for number in 0..bound {
        idle[number] = by_now(desk, idle[number], &bells[number]);
    }
}

/// What the lock keeps. Whenever it is free, each seat that waits would find no message: an event
/// can't forget to wake a seat.
#[derive(Drop)]
pub(crate) struct Office<L: Ledger> {
    pub(crate) desk: Desk<L>,
    /// By the numbers of the seats.
    pub(crate) idle: [Idle; PLACES],
    /// A seat that waits has a lower number.
    pub(crate) bound: usize,
}

impl<L: Ledger> Model for Office<L> {
    ghost use Rattle.mrc_live.specs.Waits.{AreNoted, OfficeState};

    ghost Value = { OfficeState };

    ghost view = { λ o. record {
      desk = o.desk;
      idle = o.idle;
      bound = o.bound;
    } };

    ghost invariant = { λ o. AreNoted o.desk o.idle o.bound };
}

impl<L: Ledger> Office<L> {
    /// No seat is idle.
    pub(crate) fn new(desk: Desk<L>) -> Office<L> {
        Office {
            desk,
            idle: [Idle::No; PLACES],
            bound: 0,
        }
    }

    /// Notes that a seat can make an event.
    pub(crate) fn go_on(&mut self, seat: &Seat<L>)
        ensures { self.new.desk ≡ self.old.desk }
    {
        self.idle[seat.number() as usize] = Idle::No;
    }

    /// Notes that a seat makes no more calls.
    pub(crate) fn leave(&mut self, seat: &Seat<L>) {
        self.idle[seat.number() as usize] = Idle::Left;
    }

    /// Notes that a seat waits.
    fn wait(&mut self, seat: &Seat<L>, name: u32, limit: u32)
        requires { FindsNone self.old.desk seat.now.task name limit }
    {
        let task = seat.task();
        let number = seat.number() as usize;
        if self.bound <= number {
            self.bound = number + 1;
        }
        self.idle[number] = Idle::Waits { task, name, limit };
    }

    /// Whether a seat is noted to wait.
    pub(crate) fn waits(&self, seat: &Seat<L>) -> bool {
        matches!(self.idle[seat.number() as usize], Idle::Waits { .. })
    }

    /// One call of a seat. It wakes the seats that would go on by then.
    pub(crate) fn call(
        &mut self,
        bells: &Bells,
        seat: &mut Seat<L>,
        call: Call,
    ) -> Result<Reply, NotTaken>
        ensures ok { IfOk result (λ r. seat.new ≡ seat_after seat.old call r) }
        ensures returned { IfErr result (λ fault. call_in fault ≡ call) }
        ensures err { OnErr result (seat.new ≡ seat.old) }
    {
        let reply = self.desk.take(seat, call)?;
        wake(&self.desk, &mut self.idle, self.bound, bells);
        Ok(reply)
    }

    /// One turn of a seat that waits for a message. It wakes the seats that would go on by then.
    pub(crate) fn receive(
        &mut self,
        bells: &Bells,
        seat: &mut Seat<L>,
        name: u32,
        limit: u32,
    ) -> Result<Option<Reply>, NotReceived>
        ensures ok { IfOk result (λ some. IfSome some
            (λ r. seat.new ≡ seat_after seat.old (Receive name limit) r)) }
        ensures came { IfOk result (λ some. IfSome some (λ r. r ≢ Refused MachRcvTimedOut)) }
        ensures none { IfOk result (λ some. IfNone some (seat.new ≡ seat.old)) }
        ensures err { OnErr result (seat.new ≡ seat.old) }
    {
        self.go_on(seat);
        match self.desk.take_if_any(seat, name, limit) {
            Ok(Some(reply)) => {
                wake(&self.desk, &mut self.idle, self.bound, bells);
                Ok(Some(reply))
            }
            Ok(None) => {
                self.wait(seat, name, limit);
                Ok(None)
            }
            Err(fault) => Err(fault),
        }
    }

    /// Whether no seat can make an event any more: each waits or has left.
    pub(crate) fn are_all_idle(&self) -> bool
        ensures { IsTrue result
            → ((number : ℕ) → number < self.now.desk.made → IsIdle (noted self.now.idle number)) }
    {
        for number in 0..self.desk.made() as usize {
            if self.idle[number] == Idle::No {
                return false;
            }
        }
        true
    }
}
