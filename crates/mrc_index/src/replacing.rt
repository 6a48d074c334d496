//! Another entry in the place of one, and the least unused name once a name has less.

ghost use Rattle.std.specs.Prelude.{◌≡◌, ◌≤◌, OnOk, OnErr, IsSome};
ghost use Rattle.mrc_base.specs.Limits.{limit_of_names};
ghost use Rattle.mrc_model.specs.Map.{get, insert, len};
ghost use Rattle.mrc_model.specs.Space.{put_entry, unused};
ghost use Rattle.mrc_index.specs.Names.{is_once_of};
ghost use Rattle.mrc_index.specs.Replacing.{is_like};

use crate::entry::is_entry_of;
use crate::names::{Names, forget, index};
use mrc_base::PortId;
use mrc_model::Entry;
use std::alloc::AllocError;

/// Whether the entry is a send-once right on the port.
fn is_once_of(port: PortId, entry: &Entry) -> bool
    ensures { result ≡ is_once_of port entry.now }
{
    match *entry {
        Entry::SendOnce { port: held } => held.0 == port.0,
        _ => false,
    }
}

/// Whether both are entries of one port and of one kind.
fn is_like(old: &Entry, new: &Entry) -> bool
    ensures { result ≡ is_like old.now new.now }
{
    match *new {
        Entry::Receive { port, .. } => is_entry_of(port, old),
        Entry::Send { port, .. } => is_entry_of(port, old),
        Entry::SendOnce { port } => is_once_of(port, old),
        Entry::PortSet | Entry::DeadName { .. } => false,
    }
}

impl Names {
    /// Puts another entry in the place of one, which may be of another port.
    pub fn replace(&mut self, name: u32, entry: Entry) -> Result<(), AllocError>
        requires { IsSome (get self.old name) }
        ensures ok { OnOk result (self.new ≡ insert self.old name entry) }
        ensures err { OnErr result (self.new ≡ self.old) }
    {
        let Some(held) = self.get(name) else {
            unreachable!();
        };
        if is_like(&held, &entry) {
            self.set(name, entry);
            return Ok(());
        }
        index(&mut self.held, &mut self.once, name, &entry)?;
        forget(&mut self.held, &mut self.once, name, &held);
        self.entries.set(u64::from(name), entry);
        Ok(())
    }

    /// The least unused name, once a name that has an entry has no more than the rest.
    pub fn unused_left(&self, name: u32, rest: Option<Entry>) -> u32
        requires few { len self.now ≤ limit_of_names }
        requires there { IsSome (get self.now name) }
        ensures { result ≡ unused (put_entry self.now name rest) }
    {
        let least = self.unused();
        match rest {
            None if 0 < name && name < least => name,
            _ => least,
        }
    }
}
