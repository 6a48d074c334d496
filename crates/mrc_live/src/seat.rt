//! Seats.

ghost use Rattle.std.specs.Prelude.{◌≡◌, ◌<◌, Err, IfOk, IsOk, Ok};
ghost use Rattle.mrc_base.specs.Limits.{limit_of_seats};
ghost use Rattle.mrc_base.specs.Reading.{Gives};
ghost use Rattle.mrc_base.specs.declared.memory.OrMemory.TheVariants.{Memory};
ghost use Rattle.mrc_desc.specs.Spelling.{Spells};
ghost use Rattle.mrc_live.specs.Desks.{SeatState};
ghost use Rattle.mrc_live.specs.Preparing.{SendsWhat, prepared};
ghost use Rattle.mrc_machine.specs.declared.call.Call.TheVariants.{Send};
ghost use Rattle.mrc_model.specs.Message.{Message};

use crate::event::Made;
use mrc_base::{OrMemory, TaskId};
use mrc_desc::{ReadFault, read_message};
use mrc_machine::Call;
use std::alloc::Global;
use std::marker::Model;
use std::sync::ledger::{Ledger, Share};

/// A task's place at the server. It keeps its own calls with their replies, and one part of the
/// ledger, whose amount is the number of them: without the book, which is under the lock, no call
/// can be added.
#[derive(Drop)]
pub struct Seat<L: Ledger> {
    pub(crate) number: u32,
    pub(crate) task: TaskId,
    pub(crate) calls: Vec<Made>,
    pub(crate) share: Share<L>,
}

impl<L: Ledger> Model for Seat<L> {
    ghost use Rattle.std.specs.Prelude.{◌≡◌, ◌<◌, vec_len};
    ghost use Rattle.mrc_base.specs.Limits.{limit_of_seats};
    ghost use Rattle.mrc_live.specs.Desks.{SeatState};

    ghost Value = { SeatState };

    ghost view = { λ s. record {
      number = s.number;
      task = s.task;
      calls = s.calls.items;
      share = s.share.amount;
    } };

    ghost invariant = { λ s. (s.share.parts ≡ 1) × (s.share.amount ≡ vec_len s.calls)
        × (s.number < limit_of_seats) };
}

impl<L: Ledger> Seat<L> {
    /// Its number at its server.
    pub fn number(&self) -> u32
        ensures exact { result ≡ self.now.number }
        ensures within { self.now.number < limit_of_seats }
    {
        self.number
    }

    /// Its task.
    pub fn task(&self) -> TaskId
        ensures { result ≡ self.now.task }
    {
        self.task
    }

    /// Its calls with their replies, in order.
    pub fn calls(&self) -> &[Made]
        ensures { result.now ≡ self.now.calls }
    {
        self.calls.as_slice()
    }

    /// Reads the message of these bytes, to be sent by a call. It takes no lock and waits for
    /// nothing: names are looked up, and classes admitted, in the step itself.
    pub fn prepare(&self, alloc: Global, bytes: &[u8]) -> Result<Call, OrMemory<ReadFault>>
        // What is read is spelled so.
        ensures found { IfOk result (SendsWhat bytes.now) }
        // What is spelled so is read, unless memory runs out.
        ensures only { (m : Message) → Spells bytes.now m
            → Gives (λ call. call) result (Ok (Send m)) }
        // Which fault it is: the first.
        ensures fault { Gives (λ call. call) result (prepared bytes.now) }
        // Out of memory comes last: the bytes have no fault.
        ensures last { result ≡ Err Memory → IsOk (prepared bytes.now) }
    {
        match read_message(alloc, bytes) {
            Ok(message) => Ok(Call::Send(message)),
            Err(fault) => Err(fault),
        }
    }
}
