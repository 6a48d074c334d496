//! The server.

ghost use Rattle.std.specs.Prelude.{◌≡◌, ◌≢◌, ◌↔◌, ◌<◌, ◌≤◌, IfOk, IfErr, IfNone, IfSome, OnErr};
ghost use Rattle.std.specs.Prelude.{ℕ, OnOk, Err};
ghost use Rattle.mrc_base.specs.Limits.{limit_of_events, limit_of_parts, limit_of_seats};
ghost use Rattle.mrc_confine.specs.Guards.{wiring_in};
ghost use Rattle.mrc_live.specs.declared.desk.NotSeated.TheVariants.{NoSuchTask};
ghost use Rattle.mrc_live.specs.Desks.{seat_after, call_in, fresh};
ghost use Rattle.mrc_live.specs.Runs.{IsJournal};
ghost use Rattle.mrc_live.specs.Parts.{AllAreSeated, AreApart, EachIsItsPart, IsFinishFault};
ghost use Rattle.mrc_machine.specs.declared.call.Call.TheVariants.{Receive};
ghost use Rattle.mrc_machine.specs.declared.reply.Reply.TheVariants.{Refused};
ghost use Rattle.mrc_model.specs.First.{first};
ghost use Rattle.mrc_model.specs.declared.Code.TheVariants.{MachRcvTimedOut};

use crate::desk::{Desk, NotReceived, NotSeated, NotTaken};
use crate::event::Journal;
use crate::finishing::{FinishFault, judge};
use crate::office::{Bells, Office, ring_all};
use crate::seat::Seat;
use mrc_base::TaskId;
use mrc_check::Confined;
use mrc_confine::Guarded;
use mrc_machine::{Call, Reply};
use std::alloc::Global;
use std::array;
use std::marker::Model;
use std::sync::atomic::{AtomicBool, Ordering};
use std::sync::ledger::{Blank, Ledger};
use std::sync::{Condvar, Mutex, Wait};

/// A machine behind a lock. Contracts see what was checked, as it was passed.
#[derive(Drop)]
pub struct Live<L: Ledger> {
    office: Mutex<Office<L>>,
    /// Each seat sleeps on its own while it waits for a message: an event wakes those that would go
    /// on by then, a stop and a seat that leaves wake all. Who is woken tries again.
    bells: Bells,
    confined: Confined,
}

impl<L: Ledger> Model for Live<L> {
    ghost use Rattle.mrc_check.specs.Verdict.{Case};

    ghost Value = { Case };

    ghost view = { λ l. l.confined };
}

impl<L: Ledger> Live<L> {
    /// Puts a machine in its first state behind a lock. If memory runs out, machine and blank come
    /// back.
    pub fn new(
        alloc: Global,
        guarded: Guarded,
        limit: usize,
        blank: Blank,
    ) -> Result<Live<L>, NotOpened>
        requires limit { (1 ≤ limit) × (limit ≤ limit_of_events) }
        requires name { blank.name ≡ L.name }
        requires parts { (blank.parts ≡ L.parts) × (L.parts ≡ limit_of_parts) }
        requires first { guarded.world ≡ first (wiring_in guarded.confined) }
        ensures ok { IfOk result (λ live. live ≡ guarded.confined) }
        ensures returned { IfErr result (λ back. (back.guarded ≡ guarded) × (back.blank ≡ blank)) }
    {
        let Ok(confined) = guarded.confined().copy(alloc) else {
            return Err(NotOpened { guarded, blank });
        };
        Ok(Live {
            office: Mutex::new(Office::new(Desk::new(alloc, guarded, limit, blank))),
            bells: array::from_fn(|_| Condvar::new()),
            confined,
        })
    }

    /// What was checked, as it was passed.
    pub fn confined(&self) -> &Confined
        ensures { result.now ≡ self.now }
    {
        &self.confined
    }

    /// What was checked, by itself.
    pub fn into_confined(self) -> Confined
        ensures { result ≡ self }
    {
        let Live {
            office,
            bells,
            confined,
        } = self;
        drop((office, bells));
        confined
    }

    /// A seat for a task: for a wired one at any time, and for another once a call has made it.
    /// Refused as `NoSuchTask` exactly where the machine has no task of this number at the moment
    /// at which the lock is had; that stands at the desk, since no clause of this call can name
    /// what lies behind the lock.
    pub fn seat<R: Wait>(&self, rt: &R, task: TaskId) -> Result<Seat<L>, NotSeated>
        ensures ok { IfOk result (λ s. (s ≡ fresh s.number task) × (s.number < limit_of_seats)) }
        ensures no_such_task { result ≡ Err NoSuchTask → (wiring_in self.now).tasks ≤ task }
    {
        let wired = self.confined.wired().tasks();
        self.office.lock(rt).desk.seat(task, wired)
    }

    /// One call of a seat, as one event. The call comes back with a refusal.
    pub fn call<R: Wait>(&self, rt: &R, seat: &mut Seat<L>, call: Call) -> Result<Reply, NotTaken>
        ensures ok { IfOk result (λ r. seat.new ≡ seat_after seat.old call r) }
        ensures returned { IfErr result (λ fault. call_in fault ≡ call) }
        ensures err { OnErr result (seat.new ≡ seat.old) }
    {
        self.office.lock(rt).call(&self.bells, seat, call)
    }

    /// Waits for a message under a name, and receives it, as one event. A turn that finds none
    /// leaves no event. It waits while the reply would be MACH_RCV_TIMED_OUT: every other refusal
    /// by the machine is a reply. A full journal is reported before it waits, and after each wake.
    pub fn receive_wait<R: Wait>(
        &self,
        rt: &R,
        seat: &mut Seat<L>,
        name: u32,
        limit: u32,
    ) -> Result<Reply, NotReceived>
        ensures ok { IfOk result (λ r. seat.new ≡ seat_after seat.old (Receive name limit) r) }
        ensures came { IfOk result (λ r. r ≢ Refused MachRcvTimedOut) }
        ensures err { OnErr result (seat.new ≡ seat.old) }
    {
        let bell = &self.bells[seat.number() as usize];
        let mut office = self.office.lock(rt);
        for _ in rt.forever() {
            let waited = office.waits(seat);
            if let Some(reply) = office.receive(&self.bells, seat, name, limit)? {
                return Ok(reply);
            }
            if !waited && office.are_all_idle() {
                ring_all(&self.bells);
            }
            office = bell.wait(rt, office);
        }
        unreachable!()
    }

    /// As [`receive_wait`](Live::receive_wait), until it is stopped: `None`, and no event, once no
    /// message waits and `stop` is set, or no other seat of the server can make an event any more,
    /// because each waits or has left. In the latter case it sets `stop` itself. Who sets `stop`
    /// calls [`wake_all`](Live::wake_all) then.
    pub fn receive_until<R: Wait>(
        &self,
        rt: &R,
        seat: &mut Seat<L>,
        name: u32,
        limit: u32,
        stop: &AtomicBool,
    ) -> Result<Option<Reply>, NotReceived>
        ensures ok { IfOk result (λ some. IfSome some
            (λ r. seat.new ≡ seat_after seat.old (Receive name limit) r)) }
        ensures came { IfOk result (λ some. IfSome some (λ r. r ≢ Refused MachRcvTimedOut)) }
        ensures none { IfOk result (λ some. IfNone some (seat.new ≡ seat.old)) }
        ensures err { OnErr result (seat.new ≡ seat.old) }
    {
        let bell = &self.bells[seat.number() as usize];
        let mut office = self.office.lock(rt);
        for _ in rt.forever() {
            let received = office.receive(&self.bells, seat, name, limit)?;
            if received.is_some() {
                return Ok(received);
            }
            if stop.load(Ordering::SeqCst) || office.are_all_idle() {
                stop.store(true, Ordering::SeqCst);
                office.go_on(seat);
                ring_all(&self.bells);
                return Ok(None);
            }
            office = bell.wait(rt, office);
        }
        unreachable!()
    }

    /// Wakes all that wait for a message: each tries again, and is stopped where its `stop` is set.
    pub fn wake_all<R: Wait>(&self, rt: &R) {
        // Who has found `stop` unset waits by the time the lock is free.
        drop(self.office.lock(rt));
        ring_all(&self.bells);
    }

    /// Says that a seat makes no more calls: so none waits for a message of it. Wakes all that
    /// wait.
    pub fn leave<R: Wait>(&self, rt: &R, seat: &Seat<L>) {
        self.office.lock(rt).leave(seat);
        ring_all(&self.bells);
    }

    /// Ends the server, once the threads have returned: each seat's calls and replies are in the
    /// journal in their order, each once, and no others. With a refusal all comes back.
    pub fn finish(self, seats: Vec<Seat<L>>) -> Result<(Journal, Guarded), Unfinished<L>>
        ensures run { IfOk result (λ r. IsJournal self r.0 r.1.world) }
        ensures confined { IfOk result (λ r. r.1.confined ≡ self) }
        ensures parts { IfOk result (λ r. EachIsItsPart seats.items r.0) }
        ensures owners { IfOk result (λ r. AllAreSeated seats.items r.0) }
        ensures apart { OnOk result (AreApart seats.items) }
        // Which fault it is, by the desk that comes back.
        ensures fault { IfErr result (λ f. IsFinishFault f.server.desk self seats.items f.fault) }
        ensures returned { IfErr result
            (λ f. (f.server.shown ≡ self) × (f.seats.items ≡ seats.items)) }
    {
        let Live {
            office,
            bells,
            confined,
        } = self;
        let office = office.into_inner();
        match judge(&office.desk, &confined, seats.as_slice()) {
            None => {
                let Office { desk, idle, bound } = office;
                drop((bells, confined, seats));
                Ok(desk.into_parts())
            }
            Some(fault) => Err(Unfinished {
                fault,
                server: Unlocked {
                    office,
                    bells,
                    confined,
                },
                seats,
            }),
        }
    }
}

/// A server without its lock. Contracts see the desk, and what the server shows.
#[derive(Drop)]
pub struct Unlocked<L: Ledger> {
    office: Office<L>,
    bells: Bells,
    confined: Confined,
}

impl<L: Ledger> Model for Unlocked<L> {
    ghost use Rattle.mrc_live.specs.Desks.{ServerState};

    ghost Value = { ServerState };

    ghost view = { λ s. record { desk = s.office.desk; shown = s.confined } };
}

impl<L: Ledger> Unlocked<L> {
    /// What lay under the lock.
    pub fn desk(&self) -> &Desk<L>
        ensures { result.now ≡ self.now.desk }
    {
        &self.office.desk
    }

    /// Puts it under a lock again.
    pub fn lock(self) -> Live<L>
        ensures { result ≡ self.shown }
    {
        let Unlocked {
            office,
            bells,
            confined,
        } = self;
        Live {
            office: Mutex::new(office),
            bells,
            confined,
        }
    }
}

/// The values of a server that was not opened.
#[derive(Drop)]
pub struct NotOpened {
    /// The machine.
    pub guarded: Guarded,
    /// The blank of the ledger.
    pub blank: Blank,
}

/// A server that was not finished, with the seats that were passed to it.
#[derive(Drop)]
pub struct Unfinished<L: Ledger> {
    /// Why.
    pub fault: FinishFault,
    /// The server, with the journal as it is.
    pub server: Unlocked<L>,
    /// The seats.
    pub seats: Vec<Seat<L>>,
}
