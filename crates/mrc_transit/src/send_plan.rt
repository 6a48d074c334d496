//! The plan of a message that is sent.

ghost use Rattle.std.specs.Prelude.{◌≡◌, true, length, IfOk, IfErr, OnOk, IsSome};
ghost use Rattle.mrc_base.specs.Disposition.{disp_of_number};
ghost use Rattle.mrc_model.specs.Map.{get};
ghost use Rattle.mrc_model.specs.Rights.{is_once};
ghost use Rattle.mrc_model.specs.World.{space, set_space};
ghost use Rattle.mrc_names.specs.Leaving.{patched, AreRests};
ghost use Rattle.mrc_ports.specs.Parcels.{AreCarried};
ghost use Rattle.mrc_wiring.specs.Table.{wiring_of};
ghost use Rattle.mrc_transit.specs.Staging.{restart_each, staged, taken_of};
ghost use Rattle.mrc_transit.specs.Queueing.{names_of, queued_from};
ghost use Rattle.mrc_transit.specs.SendPlans.{destination_disp, sent, IsReady, IsPlanOf};
ghost use Rattle.mrc_transit.specs.SendPlans.{with_scratch, judged_as, IsNotSent, IsRefused};

use crate::queueing::queued_from;
use crate::scratch::Scratch;
use crate::sending::{SendFault, judge_reply};
use mrc_base::{Disp, OrMemory, PortId, PortRight, TaskId, give};
use mrc_desc::Message;
use mrc_filter::judge;
use mrc_model::{Code, Item};
use mrc_names::{Rests, Space};
use mrc_ports::{Parcel, Ready, Store};
use mrc_wiring::Wired;
use std::alloc::Global;
use std::marker::Model;

/// What sending a message does, with all the room that it takes: the message, ready for the queue
/// of its destination. What is left of the sender's names, and the ports whose receive rights were
/// taken, are in the scratch that it was judged with. It keeps the allocator that it is made with.
#[derive(Debug, Drop)]
pub struct SendPlan {
    alloc: Global,
    sender: TaskId,
    destination: PortId,
    ready: Ready,
}

impl Model for SendPlan {
    ghost use Rattle.mrc_transit.specs.SendPlans as plans;

    ghost Value = { plans.Start };

    ghost view = { λ a. record {
      sender = a.sender;
      destination = a.destination;
      parcel = a.ready;
    } };
}

/// How a destination's right is taken: by any disposition but that which moves a receive right.
fn destination_disp(number: u8) -> Option<Disp>
    ensures { result ≡ destination_disp number }
{
    match Disp::of_number(u16::from(number))? {
        Disp::MoveReceive => None,
        disp => Some(disp),
    }
}

/// How a reply port's right is taken, if the number is that of a disposition.
fn local_disp(number: u8) -> Option<Disp>
    ensures { result ≡ disp_of_number number }
{
    Disp::of_number(u16::from(number))
}

/// Whether the right is a send-once right.
fn is_once(right: PortRight) -> bool
    ensures { result ≡ is_once right }
{
    matches!(right, PortRight::SendOnce)
}

/// What is judged of a message that is not refused: its destination, whether it is sent through a
/// send-once right, what it carries for its reply port, and whether memory may have room for it on
/// the queue: it has none if 2^62 messages wait.
#[derive(Drop)]
struct Judged {
    destination: PortId,
    by_once: bool,
    reply: Item,
    has_room: bool,
}

/// Judges a message as `copy_in` does; what its names give is in the scratch. It takes no memory.
fn judge_send(
    store: &Store,
    wired: &Wired,
    scratch: &mut Scratch,
    own: TaskId,
    sender: TaskId,
    message: &Message,
) -> Result<Judged, SendFault>
    ensures ok { IfOk result (λ judged.
        IsPlanOf (wiring_of wired.now) store.now own sender message.now (judged_as sender
        message.now judged.destination judged.by_once judged.reply scratch.new)) }
    ensures ready { IfOk result (λ judged. judged.has_room ≡ true → IsReady store.now (judged_as
        sender message.now judged.destination judged.by_once judged.reply scratch.new)) }
    ensures many { OnOk result (length scratch.new.items ≡ names_of message.now.args) }
    ensures carried { OnOk result (AreCarried (queued_from message.now.args scratch.new.items)) }
    ensures refused { IfErr result (λ fault.
        IsRefused fault (wiring_of wired.now) store.now own sender message.now) }
{
    scratch.clear();
    let header = message.header();
    let Some(disp) = destination_disp(header.remote_disp) else {
        return Err(SendFault::Refused(Code::MachSendInvalidDest));
    };
    let Some(space) = store.space(sender) else {
        return Err(SendFault::Refused(Code::MachSendInvalidDest));
    };
    let Ok(destination) = scratch.take(space, header.remote_port, disp) else {
        return Err(SendFault::Refused(Code::MachSendInvalidDest));
    };
    let Some(port) = store.ports().get(destination) else {
        return Err(SendFault::Refused(Code::MachSendInvalidDest));
    };
    let form = match judge(wired, port.class(), message) {
        Ok(form) => form,
        Err(denied) => return Err(SendFault::Denied(denied)),
    };
    let reply_disp = local_disp(header.local_disp);
    let Ok(reply) = scratch.take_reply(space, header.local_port, reply_disp) else {
        return Err(SendFault::Refused(Code::MachSendInvalidReply));
    };
    judge_reply(wired, store, own, port.class(), header.id, &reply)?;
    scratch.take_args(wired, store, space, own, &form, message.args())?;
    let by_once = is_once(give(disp));
    if port.is_full_for(by_once) {
        return Err(SendFault::Refused(Code::MachSendTimedOut));
    }
    Ok(Judged {
        destination,
        by_once,
        reply,
        has_room: !port.is_out_of_room(),
    })
}

/// The plan of a message that the task sends, which is of class `own`: nothing changes before the
/// plan is applied. Refused, in order: a destination's name that gives no such right on a live port
/// (MACH_SEND_INVALID_DEST); a message that the destination's class does not accept (`Denied`, by
/// the filter); a reply port's name that gives no such right (MACH_SEND_INVALID_REPLY); a reply
/// right that does not fit (`ReplySlot`), or that the sender is not trusted to name
/// (`NotForReply`); name by name of the arguments, one that gives no such right
/// (MACH_SEND_INVALID_RIGHT), a port that its slot does not admit (`NotAdmitted`, with the
/// argument's number) or a right that the sender is not trusted to send (`NotSent`, with the same
/// number); a queue that is at or above its limit, except for a message through a send-once right
/// (MACH_SEND_TIMED_OUT). Each takes what the ones before it left. All is judged before any memory
/// is taken. The scratch belongs to the plan until it is applied.
pub fn copy_in(
    alloc: Global,
    store: &Store,
    wired: &Wired,
    scratch: &mut Scratch,
    own: TaskId,
    sender: TaskId,
    message: &Message,
) -> Result<SendPlan, OrMemory<SendFault>>
    ensures ok { IfOk result (λ plan. IsPlanOf (wiring_of wired.now) store.now own sender
        message.now (with_scratch plan scratch.new)) }
    ensures ready { IfOk result (λ plan. IsReady store.now (with_scratch plan scratch.new)) }
    ensures refused { IfErr result (λ fault.
        IsNotSent fault (wiring_of wired.now) store.now own sender message.now) }
{
    let judged = match judge_send(store, wired, scratch, own, sender, message) {
        Ok(judged) => judged,
        Err(fault) => return Err(OrMemory::Fault(fault)),
    };
    let has_room = judged.has_room;
    if !has_room {
        return Err(OrMemory::Memory);
    }
    let arguments = queued_from(alloc, message.args(), scratch.items())?;
    let header = message.header();
    let parcel = Parcel::new(judged.by_once, header.id, judged.reply, arguments);
    let ready = store.ready(parcel)?;
    Ok(SendPlan {
        alloc,
        sender,
        destination: judged.destination,
        ready,
    })
}

/// Puts what is left of a task's names into its space. It takes no memory.
fn put_rests(alloc: Global, store: &mut Store, task: TaskId, rests: &Rests)
    requires there { IsSome (get store.old.spaces task) }
    requires rests { AreRests (space store.old task) rests.now.changes }
    ensures { store.new
        ≡ set_space store.old task (patched (space store.old task) rests.now.changes) }
{
    let mut space = store.put_space(task, Space::new(alloc));
    space.apply(rests);
    let _ = store.put_space(task, space);
}

/// The receipts of these ports are 0 again.
fn restart_each(store: &mut Store, moved: &[PortId])
    ensures { store.new ≡ restart_each store.old moved.now }
{
    for port in moved {
        store.restart(*port);
    }
}

impl Scratch {
    /// Puts what is left of a task's names into its space, and restarts the ports whose receive
    /// rights were taken. It takes no memory.
    fn put(&self, alloc: Global, store: &mut Store, task: TaskId)
        requires there { IsSome (get store.old.spaces task) }
        requires rests { AreRests (space store.old task) self.now.rests }
        ensures { store.new ≡ staged store.old task (taken_of (space store.old task) self.now) }
    {
        put_rests(alloc, store, task, &self.rests);
        restart_each(store, &self.moved);
    }
}

impl SendPlan {
    /// Carries the plan out on the store that it was made of, with the scratch that it was judged
    /// with. It takes no memory.
    pub fn apply(self, store: &mut Store, scratch: &Scratch)
        requires { IsReady store.old (with_scratch self scratch.now) }
        ensures { store.new ≡ sent store.old (with_scratch self scratch.now) }
    {
        let SendPlan {
            alloc,
            sender,
            destination,
            ready,
        } = self;
        scratch.put(alloc, store, sender);
        if store.enqueue(destination, ready).is_err() {
            unreachable!();
        }
    }
}
