//! What is left of an entry when references of it are changed or dropped, or when its set changes.

ghost use Rattle.std.specs.Prelude.{◌≡◌, Ok, Err, IfOk, IfErr, IfSome, option_map};
ghost use Rattle.mrc_model.specs.Reply.{Refused};
ghost use Rattle.mrc_model.specs.CallDeallocate.{drop_one};
ghost use Rattle.mrc_model.specs.CallModRefs.{plus, new_refs, by_one, change_refs};
ghost use Rattle.mrc_model.specs.CallModRefs.{changed_refs, changed_beside, changed_sends};
ghost use Rattle.mrc_model.specs.declared.Entry.TheVariants.{Receive, Send, DeadName};
ghost use Rattle.mrc_names.specs.Changes.{change_of, IsChangeOf};

use mrc_base::{PortId, Right, limits};
use mrc_index::entry::{dead_entry, send_entry};
use mrc_model::{Code, Entry};

/// What a call does with an entry.
#[derive(Clone, Copy)]
pub(crate) enum Change {
    /// This is left of it.
    Remains(Option<Entry>),
    /// Its receive right is to be destroyed.
    DestroysReceive,
    /// All of it is to be destroyed.
    DestroysEntry,
}

/// What a call on references leaves to be destroyed.
#[derive(Clone, Copy, Debug, PartialEq, Eq)]
pub enum Dropped {
    /// Nothing: references were dropped, or added.
    References,
    /// The receive right under the name; the space is as it was.
    ReceiveRight,
    /// All that stands under the name; the space is as it was.
    WholeEntry,
}

/// The sum, if it is not below 0.
fn plus(refs: u16, delta: i32) -> Option<u32>
    ensures { result ≡ plus refs delta }
{
    let refs = u32::from(refs);
    let size = delta.unsigned_abs();
    if 0 <= delta {
        Some(refs + size)
    } else if refs < size {
        None
    } else {
        Some(refs - size)
    }
}

/// The new number of references. Refused are a sum below 0 (KERN_INVALID_VALUE) and one above
/// 65,535 (KERN_UREFS_OVERFLOW).
fn new_refs(refs: u16, delta: i32) -> Result<u16, Code>
    ensures ok { IfOk result (λ n. new_refs (plus refs delta) ≡ Ok n) }
    ensures refused { IfErr result (λ code. new_refs (plus refs delta) ≡ Err (Refused code)) }
{
    match plus(refs, delta) {
        None => Err(Code::KernInvalidValue),
        Some(sum) => {
            if u32::from(limits::REFERENCES) < sum {
                Err(Code::KernUrefsOverflow)
            } else {
                Ok(sum as u16)
            }
        }
    }
}

/// A right that is there once: 0 keeps the entry, -1 makes the change; others are refused
/// (KERN_INVALID_VALUE).
fn by_one(delta: i32, entry: Entry, change: Change) -> Result<Change, Code>
    ensures ok { IfOk result (λ c. by_one delta entry (change_of change) ≡ Ok (change_of c)) }
    ensures alike { IfOk result
        (λ c. IsChangeOf entry (change_of change) → IsChangeOf entry (change_of c)) }
    ensures refused { IfErr result
        (λ code. by_one delta entry (change_of change) ≡ Err (Refused code)) }
{
    match delta {
        0 => Ok(Change::Remains(Some(entry))),
        -1 => Ok(change),
        _ => Err(Code::KernInvalidValue),
    }
}

/// The send references of a receive entry; where it has none, it lacks the right
/// (KERN_INVALID_RIGHT).
fn changed_beside(port: PortId, sends: u16, in_set: Option<u32>, delta: i32) -> Result<Change, Code>
    ensures ok { IfOk result (λ c. changed_beside port sends in_set delta ≡ Ok (change_of c)) }
    ensures alike { IfOk result (λ c. IsChangeOf (Receive port sends in_set) (change_of c)) }
    ensures refused { IfErr result
        (λ code. changed_beside port sends in_set delta ≡ Err (Refused code)) }
{
    let some = 0 < sends;
    if !some {
        return Err(Code::KernInvalidRight);
    }
    match new_refs(sends, delta) {
        Ok(left) => Ok(Change::Remains(Some(Entry::Receive {
            port,
            sends: left,
            in_set,
        }))),
        Err(code) => Err(code),
    }
}

/// The references of a send entry.
fn changed_sends(port: PortId, sends: u16, delta: i32) -> Result<Change, Code>
    ensures ok { IfOk result (λ c. changed_sends port sends delta ≡ Ok (change_of c)) }
    ensures alike { IfOk result (λ c. IsChangeOf (Send port sends) (change_of c)) }
    ensures refused { IfErr result (λ code. changed_sends port sends delta ≡ Err (Refused code)) }
{
    match new_refs(sends, delta) {
        Ok(left) => Ok(Change::Remains(send_entry(port, left))),
        Err(code) => Err(code),
    }
}

/// The references of a dead name.
fn changed_refs(refs: u16, delta: i32) -> Result<Change, Code>
    ensures ok { IfOk result (λ c. changed_refs refs delta ≡ Ok (change_of c)) }
    ensures alike { IfOk result (λ c. IsChangeOf (DeadName refs) (change_of c)) }
    ensures refused { IfErr result (λ code. changed_refs refs delta ≡ Err (Refused code)) }
{
    match new_refs(refs, delta) {
        Ok(left) => Ok(Change::Remains(dead_entry(left))),
        Err(code) => Err(code),
    }
}

/// What becomes of an entry when the references of a right are changed. A right that it lacks is
/// refused (KERN_INVALID_RIGHT).
pub(crate) fn change_refs(entry: Entry, right: Right, delta: i32) -> Result<Change, Code>
    ensures ok { IfOk result (λ c. change_refs entry right delta ≡ Ok (change_of c)) }
    ensures alike { IfOk result (λ c. IsChangeOf entry (change_of c)) }
    ensures refused { IfErr result (λ code. change_refs entry right delta ≡ Err (Refused code)) }
{
    match entry {
        Entry::Receive {
            port,
            sends,
            in_set,
        } => match right {
            Right::Send => changed_beside(port, sends, in_set, delta),
            Right::Receive => by_one(delta, entry, Change::DestroysReceive),
            Right::SendOnce | Right::PortSet | Right::DeadName => Err(Code::KernInvalidRight),
        },
        Entry::Send { port, sends } => match right {
            Right::Send => changed_sends(port, sends, delta),
            Right::Receive | Right::SendOnce | Right::PortSet | Right::DeadName => {
                Err(Code::KernInvalidRight)
            }
        },
        Entry::SendOnce { .. } => match right {
            Right::SendOnce => by_one(delta, entry, Change::DestroysEntry),
            Right::Send | Right::Receive | Right::PortSet | Right::DeadName => {
                Err(Code::KernInvalidRight)
            }
        },
        Entry::PortSet => match right {
            Right::PortSet => by_one(delta, entry, Change::DestroysEntry),
            Right::Send | Right::Receive | Right::SendOnce | Right::DeadName => {
                Err(Code::KernInvalidRight)
            }
        },
        Entry::DeadName { refs } => match right {
            Right::DeadName => changed_refs(refs, delta),
            Right::Send | Right::Receive | Right::SendOnce | Right::PortSet => {
                Err(Code::KernInvalidRight)
            }
        },
    }
}

/// What becomes of an entry when one send or dead reference is dropped, or its send-once right is
/// destroyed. None where it has none of them.
pub(crate) fn drop_one(entry: Entry) -> Option<Change>
    ensures dropped { option_map change_of result ≡ drop_one entry }
    ensures alike { IfSome result (λ c. IsChangeOf entry (change_of c)) }
{
    match entry {
        Entry::Receive {
            port,
            sends,
            in_set,
        } => {
            if sends == 0 {
                return None;
            }
            Some(Change::Remains(Some(Entry::Receive {
                port,
                sends: sends - 1,
                in_set,
            })))
        }
        Entry::Send { port, sends } => {
            Some(Change::Remains(send_entry(port, sends.saturating_sub(1))))
        }
        Entry::SendOnce { .. } => Some(Change::DestroysEntry),
        Entry::PortSet => None,
        Entry::DeadName { refs } => Some(Change::Remains(dead_entry(refs.saturating_sub(1)))),
    }
}
