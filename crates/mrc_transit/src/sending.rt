//! Why messages are not sent, and what is asked of each right that a message carries.

ghost use Rattle.std.specs.Prelude.{◌≡◌, Ok, Err, IfErr, OnOk};
ghost use Rattle.mrc_model.specs.Trust.{may_item};
ghost use Rattle.mrc_model.specs.CallSend.{admit_item, fits_item};
ghost use Rattle.mrc_wiring.specs.Table.{wiring_of};
ghost use Rattle.mrc_transit.specs.Sending.{fault_reply, judge_reply};

use mrc_base::{ClassId, TaskId};
use mrc_model::{Code, Denied, Item, Verb};
use mrc_ports::Store;
use mrc_wiring::Wired;

/// Why a message is not sent.
#[derive(Clone, Copy, Debug, Drop, PartialEq, Eq)]
pub enum SendFault {
    /// Refused by Mach's rules.
    Refused(Code),
    /// Refused by the filter, or by a line about a trusted task.
    Denied(Denied),
}

/// Where a name is in a message, and who sends it: the class of the sender, the type of the name's
/// slot, and the number of its argument.
#[derive(Clone, Copy, Debug, PartialEq, Eq)]
pub struct SlotPlace {
    /// The wired task whose class the sender has.
    pub own: TaskId,
    /// The number of the slot's type in the wiring.
    pub sort: usize,
    /// The number of the argument, from 0 on.
    pub argument: u32,
}

/// Whether tasks of this class may do so by the verb with what is carried, in constant time. Null,
/// dead and ports that are not live pass.
pub fn may_item(wired: &Wired, store: &Store, verb: Verb, own: TaskId, item: &Item) -> bool
    ensures { result ≡ may_item (wiring_of wired.now) store.now verb own item.now }
{
    let (port, right) = match *item {
        Item::Null | Item::Dead => return true,
        Item::Right { port, right } => (port, right),
    };
    match store.ports().get(port) {
        Some(found) => wired.may(verb, own, right, found.class()),
        None => true,
    }
}

/// Whether what the reply port's name carries fits the request with this id to a class. Null, dead
/// and ports that are not live fit.
pub(crate) fn fits_item(wired: &Wired, store: &Store, to: ClassId, id: u32, item: &Item) -> bool
    ensures { result ≡ fits_item (wiring_of wired.now) store.now to id item.now }
{
    let port = match *item {
        Item::Null | Item::Dead => return true,
        Item::Right { port, right: _ } => port,
    };
    match store.ports().get(port) {
        Some(found) => wired.fits_at(to, id, found.class()),
        None => true,
    }
}

/// Whether what the reply port's name carries fits the request with this id to a class, and senders
/// of their own class are trusted to name it.
pub(crate) fn judge_reply(
    wired: &Wired,
    store: &Store,
    own: TaskId,
    to: ClassId,
    id: u32,
    item: &Item,
) -> Result<(), SendFault>
    ensures ok { OnOk result
        (judge_reply (wiring_of wired.now) store.now own to id item.now ≡ Ok tt) }
    ensures refused { IfErr result (λ fault.
        judge_reply (wiring_of wired.now) store.now own to id item.now
        ≡ Err (fault_reply fault)) }
{
    if !fits_item(wired, store, to, id, item) {
        return Err(SendFault::Denied(Denied::ReplySlot));
    }
    if !may_item(wired, store, Verb::Replies, own, item) {
        return Err(SendFault::Denied(Denied::NotForReply));
    }
    Ok(())
}

/// Whether the type of a slot admits the class of the port that is carried there, and the sender is
/// trusted to send the right, if a live right is carried.
pub fn admit(wired: &Wired, store: &Store, slot: &SlotPlace, item: &Item) -> Result<(), SendFault>
    ensures ok { OnOk result (admit_item (wiring_of wired.now) slot.now.own store.now slot.now.sort
        slot.now.argument item.now ≡ Ok tt) }
    ensures refused { IfErr result (λ fault. admit_item (wiring_of wired.now) slot.now.own store.now
        slot.now.sort slot.now.argument item.now ≡ Err (fault_reply fault)) }
{
    let (port, right) = match *item {
        Item::Null | Item::Dead => return Ok(()),
        Item::Right { port, right } => (port, right),
    };
    let Some(found) = store.ports().get(port) else {
        return Err(SendFault::Refused(Code::MachSendInvalidRight));
    };
    if !wired.admits(slot.sort, found.class()) {
        return Err(SendFault::Denied(Denied::NotAdmitted(slot.argument)));
    }
    if !wired.may(Verb::Sends, slot.own, right, found.class()) {
        return Err(SendFault::Denied(Denied::NotSent(slot.argument)));
    }
    Ok(())
}
