//! Entries: what stands for one right, how a right joins an entry, and what a set or a port that
//! goes leaves of one.

ghost use Rattle.std.specs.Prelude.{◌≡◌, ℕ, Some};
ghost use Rattle.mrc_model.specs.Space.{send_entry, is_entry_of, new_entry, joined, one_more};
ghost use Rattle.mrc_model.specs.Space.{dead_entry, in_renamed, outside, is_set};
ghost use Rattle.mrc_index.specs.Names.{left_of, is_dead};

use mrc_base::{PortId, PortRight, limits};
use mrc_map::Ports;
use mrc_model::Entry;

/// Send references alone: nothing where there are none.
pub fn send_entry(port: PortId, sends: u16) -> Option<Entry>
    ensures { result ≡ send_entry port sends }
{
    if 0 < sends {
        Some(Entry::Send { port, sends })
    } else {
        None
    }
}

/// So many references of a dead name: nothing where there are none.
pub fn dead_entry(refs: u16) -> Option<Entry>
    ensures { result ≡ dead_entry refs }
{
    if 0 < refs {
        Some(Entry::DeadName { refs })
    } else {
        None
    }
}

/// Whether the entry is the port's receive or send entry.
pub fn is_entry_of(port: PortId, entry: &Entry) -> bool
    ensures { result ≡ is_entry_of port entry.now }
{
    match *entry {
        Entry::Receive { port: held, .. } => held.0 == port.0,
        Entry::Send { port: held, .. } => held.0 == port.0,
        _ => false,
    }
}

/// An entry for one right.
pub fn new_entry(port: PortId, right: PortRight) -> Entry
    ensures { result ≡ new_entry port right }
{
    match right {
        PortRight::Send => Entry::Send { port, sends: 1 },
        PortRight::Receive => Entry::Receive {
            port,
            sends: 0,
            in_set: None,
        },
        PortRight::SendOnce => Entry::SendOnce { port },
    }
}

/// One send reference more; above 65,535 it is dropped.
fn one_more(sends: u16) -> u16
    ensures { result ≡ one_more sends }
{
    if sends < limits::REFERENCES {
        sends + 1
    } else {
        sends
    }
}

/// The port's entry with one more right.
pub fn joined(entry: Entry, right: PortRight) -> Entry
    ensures { result ≡ joined entry right }
{
    match entry {
        Entry::Receive {
            port,
            sends,
            in_set,
        } => match right {
            PortRight::Send => Entry::Receive {
                port,
                sends: one_more(sends),
                in_set,
            },
            PortRight::Receive => Entry::Receive {
                port,
                sends,
                in_set: None,
            },
            PortRight::SendOnce => entry,
        },
        Entry::Send { port, sends } => match right {
            PortRight::Send => Entry::Send {
                port,
                sends: one_more(sends),
            },
            PortRight::Receive => Entry::Receive {
                port,
                sends,
                in_set: None,
            },
            PortRight::SendOnce => entry,
        },
        _ => entry,
    }
}

/// The entry after a set of the space got another name.
pub fn in_renamed(entry: &Entry, old: u32, new: u32) -> Entry
    ensures { (k : ℕ) → in_renamed old new k entry.now ≡ Some result }
{
    match *entry {
        Entry::Receive {
            port,
            sends,
            in_set: Some(set),
        } if set == old => Entry::Receive {
            port,
            sends,
            in_set: Some(new),
        },
        _ => *entry,
    }
}

/// The entry without the set, if it was a member of it.
pub fn outside(entry: &Entry, set: u32) -> Entry
    ensures { (k : ℕ) → outside set k entry.now ≡ Some result }
{
    match *entry {
        Entry::Receive {
            port,
            sends,
            in_set: Some(other),
        } if other == set => Entry::Receive {
            port,
            sends,
            in_set: None,
        },
        _ => *entry,
    }
}

/// Whether the entry is a port set.
pub fn is_set(entry: &Entry) -> bool
    ensures { result ≡ is_set entry.now }
{
    match *entry {
        Entry::PortSet => true,
        _ => false,
    }
}

/// What is left of an entry whose port dies: as many dead references as there were send references,
/// one for a send-once right.
pub(crate) fn left_of(entry: &Entry) -> Option<Entry>
    ensures { result ≡ left_of entry.now }
{
    match *entry {
        Entry::Receive { sends, .. } => dead_entry(sends),
        Entry::Send { sends, .. } => dead_entry(sends),
        Entry::SendOnce { .. } => Some(Entry::DeadName { refs: 1 }),
        Entry::PortSet | Entry::DeadName { .. } => Some(*entry),
    }
}

/// Whether the entry's port is one of these.
pub(crate) fn is_dead(entry: &Entry, dead: &Ports) -> bool
    ensures { result ≡ is_dead dead.now entry.now }
{
    match *entry {
        Entry::Receive { port, .. } => dead.has(port),
        Entry::Send { port, .. } => dead.has(port),
        Entry::SendOnce { port } => dead.has(port),
        Entry::PortSet | Entry::DeadName { .. } => false,
    }
}
