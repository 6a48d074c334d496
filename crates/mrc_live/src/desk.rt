//! What lies under the lock.

ghost use Rattle.std.specs.Prelude.{◌≡◌, ◌≢◌, ◌↔◌, ◌<◌, ◌≤◌, [], ◌∷◌, ◌++◌, IfOk, IfErr};
ghost use Rattle.std.specs.Prelude.{IfSome, IfNone, IsNone, IsTrue, OnErr, OnOk, length, Err};
ghost use Rattle.std.specs.Prelude.{vec_len};
ghost use Rattle.std.specs.Prelude.{vec_capacity};
ghost use Rattle.mrc_base.specs.Limits.{limit_of_events, limit_of_parts, limit_of_seats};
ghost use Rattle.mrc_confine.specs.Guards.{wiring_in};
ghost use Rattle.mrc_live.specs.declared.desk.NotReceived.TheVariants as nothing;
ghost use Rattle.mrc_live.specs.declared.desk.NotSeated.TheVariants.{NoSuchTask, TooManySeats};
ghost use Rattle.mrc_live.specs.declared.desk.NotTaken.TheVariants.{JournalFull};
ghost use Rattle.mrc_live.specs.Desks.{AreAlike, desk_after, seat_after, call_in, fresh, opened};
ghost use Rattle.mrc_live.specs.Runs.{IsJournal, reply_to, world_after};
ghost use Rattle.mrc_live.specs.Waits.{FindsNone};
ghost use Rattle.mrc_machine.specs.Calls.{IsRefused, reply_of};
ghost use Rattle.mrc_machine.specs.Rooms.{Fits, size_of_call};
ghost use Rattle.mrc_machine.specs.declared.call.Call.TheVariants.{Receive};
ghost use Rattle.mrc_machine.specs.declared.reply.Reply.TheVariants.{Refused};
ghost use Rattle.mrc_model.specs.declared.Code.TheVariants.{MachRcvTimedOut};
ghost use Rattle.mrc_model.specs.First.{first};
ghost use Rattle.mrc_model.specs.Map.{get};

use crate::event::{Event, Journal, Made};
use crate::seat::Seat;
use mrc_base::TaskId;
use mrc_base::limits::SEATS;
use mrc_check::Confined;
use mrc_confine::Guarded;
use mrc_machine::{Call, Reply, Room};
use mrc_model::Code;
use std::alloc::{AllocError, Global};
use std::marker::Model;
use std::sync::ledger::{Blank, Book, Ledger, Share};

/// The guarded machine with its journal. The book's total is the number of events, so it is what
/// the shares of all seats add up to.
#[derive(Drop)]
pub struct Desk<L: Ledger> {
    alloc: Global,
    guarded: Guarded,
    events: Vec<Event>,
    limit: usize,
    made: u32,
    book: Book<L>,
    left: Share<L>,
}

impl<L: Ledger> Model for Desk<L> {
    ghost use Rattle.std.specs.Prelude.{◌≡◌};
    ghost use Rattle.mrc_live.specs.Desks.{DeskState, IsKept};

    ghost Value = { DeskState };

    ghost view = { λ d. record {
      confined = d.guarded.confined;
      world = d.guarded.world;
      events = d.events.items;
      limit = d.limit;
      made = d.made;
      total = d.book.total;
      left = d.left.parts;
    } };

    ghost invariant = { λ d.
        IsKept d.guarded d.events.items d.limit d.made d.book.total d.left.parts
        × (d.left.amount ≡ 0) };
}

/// Why there is no seat.
#[derive(Clone, Copy, Debug, PartialEq, Eq)]
pub enum NotSeated {
    /// The machine has no task of that number.
    NoSuchTask,
    /// There are 256 seats.
    TooManySeats,
}

/// Why a call was not taken, with the call.
#[derive(Debug, Drop)]
pub enum NotTaken {
    /// The journal has as many events as it may have.
    JournalFull(Call),
    /// Out of memory.
    Memory(Call),
}

/// Why nothing was received.
#[derive(Clone, Copy, Debug, PartialEq, Eq)]
pub enum NotReceived {
    /// The journal has as many events as it may have.
    JournalFull,
    /// Out of memory.
    Memory,
}

/// All that a call with its event needs: a copy of the call, and two rooms for copies of the reply.
#[derive(Drop)]
struct Rooms {
    copy: Call,
    ours: Room,
    theirs: Room,
}

/// Makes room for an event, for a seat's call, and for what they hold: of a reply, as much as this
/// call can answer in the world as it is. The spare places are named
/// by these clauses alone: a model of the desk or of the seat does not speak of them, so this is a
/// function over the fields.
fn make_ready(
    alloc: Global,
    guarded: &Guarded,
    task: TaskId,
    events: &mut Vec<Event>,
    calls: &mut Vec<Made>,
    call: &Call,
) -> Result<Rooms, AllocError>
    ensures events { events.new.items ≡ events.old.items }
    ensures calls { calls.new.items ≡ calls.old.items }
    ensures copy { IfOk result (λ r. r.copy ≡ call.now) }
    ensures ours { IfOk result (λ r. r.ours ≡ size_of_call guarded.now.world task call.now) }
    ensures theirs { IfOk result (λ r. r.theirs ≡ size_of_call guarded.now.world task call.now) }
    ensures event_room { OnOk result (vec_len events.new < vec_capacity events.new) }
    ensures call_room { OnOk result (vec_len calls.new < vec_capacity calls.new) }
{
    events.reserve(1)?;
    calls.reserve(1)?;
    let ours = guarded.room(alloc, task, call)?;
    let theirs = match guarded.room(alloc, task, call) {
        Ok(theirs) => theirs,
        Err(error) => {
            drop(ours);
            return Err(error);
        }
    };
    match call.copy(alloc) {
        Ok(copy) => Ok(Rooms { copy, ours, theirs }),
        Err(error) => {
            drop((ours, theirs));
            Err(error)
        }
    }
}

/// One step of the machine, by the world and the reply that it gives.
fn step(guarded: &mut Guarded, task: TaskId, call: &Call) -> Result<Reply, AllocError>
    ensures reply { IfOk result (λ r.
        reply_of r ≡ reply_to guarded.old.confined guarded.old.world task call.now) }
    ensures world { IfOk result (λ _.
        guarded.new.world ≡ world_after guarded.old.confined guarded.old.world task call.now) }
    ensures confined { guarded.new.confined ≡ guarded.old.confined }
    ensures fits { IfOk result (λ r. Fits (size_of_call guarded.old.world task call.now) r) }
    ensures refused { IfOk result (λ r. IsRefused r → guarded.new ≡ guarded.old) }
    ensures err { OnErr result (guarded.new ≡ guarded.old) }
{
    guarded.step(task, call)
}

/// Whether no message waited.
fn is_timed_out(reply: &Reply) -> bool
    ensures { IsTrue result ↔ (reply.now ≡ Refused MachRcvTimedOut) }
{
    matches!(reply, Reply::Refused(Code::MachRcvTimedOut))
}

/// Writes the event and the seat's call into the places that were made for them. It takes no
/// memory.
fn note(
    events: &mut Vec<Event>,
    calls: &mut Vec<Made>,
    rooms: Rooms,
    seat: u32,
    task: TaskId,
    call: Call,
    reply: &Reply,
)
    requires event_room { vec_len events.old < vec_capacity events.old }
    requires call_room { vec_len calls.old < vec_capacity calls.old }
    requires copy { rooms.copy ≡ call }
    requires ours { Fits rooms.ours reply.now }
    requires theirs { Fits rooms.theirs reply.now }
    ensures events { events.new.items ≡ events.old.items
        ++ record { seat = seat; task = task; call = call; reply = reply.now } ∷ [] }
    ensures calls { calls.new.items ≡ calls.old.items
        ++ record { call = call; reply = reply.now } ∷ [] }
{
    let Rooms { copy, ours, theirs } = rooms;
    events.push_reserved(Event {
        seat,
        task,
        call: copy,
        reply: reply.fill(ours),
    });
    calls.push_reserved(Made {
        call,
        reply: reply.fill(theirs),
    });
}

impl<L: Ledger> Desk<L> {
    /// Begins with a machine in its first state, and an empty journal.
    pub(crate) fn new(alloc: Global, guarded: Guarded, limit: usize, blank: Blank) -> Desk<L>
        requires limit { (1 ≤ limit) × (limit ≤ limit_of_events) }
        requires name { blank.name ≡ L.name }
        requires parts { (blank.parts ≡ L.parts) × (L.parts ≡ limit_of_parts) }
        requires first { guarded.world ≡ first (wiring_in guarded.confined) }
        ensures { result ≡ opened guarded limit }
    {
        let (book, left) = blank.open::<L>();
        Desk {
            alloc,
            guarded,
            events: Vec::new(alloc),
            limit,
            made: 0,
            book,
            left,
        }
    }

    /// Makes a seat for a task that the machine has now, where there are fewer than 256. The tasks
    /// below `wired` are taken to be wired, and so to be there at all times.
    pub(crate) fn seat(&mut self, task: TaskId, wired: u16) -> Result<Seat<L>, NotSeated>
        ensures ok { IfOk result (λ s. s ≡ fresh self.old.made task) }
        ensures within { IfOk result (λ s. s.number < limit_of_seats) }
        // If so many tasks are wired: exactly where the world has no task of the number.
        ensures no_such_task { wired ≤ (wiring_in self.old.confined).tasks
            → ((result ≡ Err NoSuchTask) ↔ IsNone (get self.old.world.tasks task)) }
        ensures unwired { result ≡ Err NoSuchTask → wired ≤ task }
        ensures too_many { result ≡ Err TooManySeats → self.old.made ≡ limit_of_seats }
        ensures kept { AreAlike self.old self.new }
        ensures err { OnErr result (self.new ≡ self.old) }
    {
        let is_there = self.guarded.has_task(task);
        if u32::from(wired) <= task.0 && !is_there {
            return Err(NotSeated::NoSuchTask);
        }
        if self.made >= SEATS {
            return Err(NotSeated::TooManySeats);
        }
        let share = self.left.split_off(1, 0);
        let number = self.made;
        self.made += 1;
        Ok(Seat {
            number,
            task,
            calls: Vec::new(self.alloc),
            share,
        })
    }

    /// One call of a seat: one step of the machine, and one event. The call comes back where the
    /// journal is full and where memory runs out.
    pub fn take(&mut self, seat: &mut Seat<L>, call: Call) -> Result<Reply, NotTaken>
        ensures reply { IfOk result (λ r.
            reply_of r ≡ reply_to self.old.confined self.old.world seat.old.task call) }
        ensures desk { IfOk result (λ r. self.new ≡ desk_after self.old seat.old call r) }
        ensures seat { IfOk result (λ r. seat.new ≡ seat_after seat.old call r) }
        ensures full { (result ≡ Err (JournalFull call))
            ↔ (length self.old.events ≡ self.old.limit) }
        ensures returned { IfErr result (λ fault. call_in fault ≡ call) }
        ensures err { OnErr result ((self.new ≡ self.old) × (seat.new ≡ seat.old)) }
    {
        if self.events.len() >= self.limit {
            return Err(NotTaken::JournalFull(call));
        }
        let Ok(rooms) = make_ready(
            self.alloc,
            &self.guarded,
            seat.task,
            &mut self.events,
            &mut seat.calls,
            &call,
        ) else {
            return Err(NotTaken::Memory(call));
        };
        let Ok(reply) = step(&mut self.guarded, seat.task, &call) else {
            drop(rooms);
            return Err(NotTaken::Memory(call));
        };
        self.book.add(&mut seat.share, 1);
        let (number, task) = (seat.number, seat.task);
        note(
            &mut self.events,
            &mut seat.calls,
            rooms,
            number,
            task,
            call,
            &reply,
        );
        Ok(reply)
    }

    /// As `take` with a receive, where a message waits or the call is refused for another reason.
    /// Where the reply would be that none waits it is `None`, and nothing has changed.
    pub fn take_if_any(
        &mut self,
        seat: &mut Seat<L>,
        name: u32,
        limit: u32,
    ) -> Result<Option<Reply>, NotReceived>
        ensures reply { IfOk result (λ some. IfSome some (λ r. reply_of r
            ≡ reply_to self.old.confined self.old.world seat.old.task (Receive name limit))) }
        ensures came { IfOk result (λ some. IfSome some (λ r. r ≢ Refused MachRcvTimedOut)) }
        ensures desk { IfOk result (λ some. IfSome some
            (λ r. self.new ≡ desk_after self.old seat.old (Receive name limit) r)) }
        ensures seat { IfOk result (λ some. IfSome some
            (λ r. seat.new ≡ seat_after seat.old (Receive name limit) r)) }
        ensures none { IfOk result (λ some. IfNone some (reply_of (Refused MachRcvTimedOut)
            ≡ reply_to self.old.confined self.old.world seat.old.task (Receive name limit))) }
        ensures same { IfOk result (λ some.
            IfNone some ((self.new ≡ self.old) × (seat.new ≡ seat.old))) }
        ensures full { (result ≡ Err nothing.JournalFull)
            ↔ (length self.old.events ≡ self.old.limit) }
        ensures err { OnErr result ((self.new ≡ self.old) × (seat.new ≡ seat.old)) }
    {
        if self.events.len() >= self.limit {
            return Err(NotReceived::JournalFull);
        }
        let call = Call::Receive { name, limit };
        let Ok(rooms) = make_ready(
            self.alloc,
            &self.guarded,
            seat.task,
            &mut self.events,
            &mut seat.calls,
            &call,
        ) else {
            drop(call);
            return Err(NotReceived::Memory);
        };
        let Ok(reply) = step(&mut self.guarded, seat.task, &call) else {
            drop((rooms, call));
            return Err(NotReceived::Memory);
        };
        if is_timed_out(&reply) {
            drop((rooms, call, reply));
            return Ok(None);
        }
        self.book.add(&mut seat.share, 1);
        let (number, task) = (seat.number, seat.task);
        note(
            &mut self.events,
            &mut seat.calls,
            rooms,
            number,
            task,
            call,
            &reply,
        );
        Ok(Some(reply))
    }

    /// Whether the journal has room for an event, and a receive of this task would find no message.
    pub(crate) fn finds_none(&self, task: TaskId, name: u32, limit: u32) -> bool
        ensures { IsTrue result → FindsNone self.now task name limit }
    {
        self.events.len() < self.limit && self.guarded.would_wait(task, name, limit)
    }

    /// The number of seats made.
    pub(crate) fn made(&self) -> u32
        ensures made { result ≡ self.now.made }
        ensures few { self.now.made ≤ limit_of_seats }
    {
        self.made
    }

    /// The events so far.
    pub fn events(&self) -> &[Event]
        ensures exact { result.now ≡ self.now.events }
        // They are a run of the machine to its world, of no more events than there may be.
        ensures kept { IsJournal self.now.confined self.now.events self.now.world }
        ensures within { length self.now.events ≤ limit_of_events }
    {
        self.events.as_slice()
    }

    /// What the machine runs.
    pub fn confined(&self) -> &Confined
        ensures { result.now ≡ self.now.confined }
    {
        self.guarded.confined()
    }

    /// The journal and the machine.
    pub(crate) fn into_parts(self) -> (Journal, Guarded)
        ensures journal { result.0 ≡ self.events }
        ensures confined { result.1.confined ≡ self.confined }
        ensures run { IsJournal self.confined result.0 result.1.world }
    {
        let Desk {
            guarded,
            events,
            ..
        } = self;
        (Journal { events }, guarded)
    }
}
