//! The search for the ports that die, by a worklist.
//!
//! A port is *marked* when its receive right goes, and *found* when it dies. A found port is
//! followed once: what its queue carries is marked, and what waits for it is found. A marked port
//! whose backup is not found waits for it, in a list of links that begins at the backup's head. So
//! each port is marked once, found once and followed once.

ghost use Rattle.std.specs.Prelude.{◌≡◌, ◌<◌, ◌+◌, ℕ, true, false, [], length, take, IfOk, OnOk};
ghost use Rattle.mrc_model.specs.declared.Backup.{Backup};
ghost use Rattle.mrc_model.specs.declared.Backup.TheVariants.{Port as BackupPort};
ghost use Rattle.mrc_model.specs.Map.{get, keys};
ghost use Rattle.std.specs.Option.{option_copied};
ghost use Rattle.mrc_model.specs.World.{queue_rights};
ghost use Rattle.mrc_model.specs.Death.{has, backup_of, is_kernel_of, dying};
ghost use Rattle.mrc_death.specs.Heads.{head_at};
ghost use Rattle.mrc_death.specs.Losing.{is_losing};
ghost use Rattle.mrc_death.specs.Search.{Kept, Step, Settled, Linked, Loses, Goes, Going};
ghost use Rattle.mrc_death.specs.Search.{receive_of, one_held};

use crate::doomed::{Doomed, Held};
use crate::going::add_queue;
use crate::heads::Heads;
use mrc_base::{PortId, PortRight};
use mrc_map::Ports;
use mrc_model::Backup;
use mrc_ports::{Port, Queue, Store};
use std::alloc::{AllocError, Global};

/// What comes of a destruction.
#[derive(Debug, Drop)]
pub struct Deaths {
    /// The ports that die.
    pub dead: Ports,
    /// The live ports that lose their receive rights, whether they die or not.
    pub lost: Ports,
}

/// A port whose receive right goes, and that waits for its backup to die.
#[derive(Clone, Copy)]
pub(crate) struct Link {
    /// The port that waits.
    port: PortId,
    /// Its backup.
    backup: PortId,
    /// The number of the link before it at the same backup; 0 where there is none.
    before: usize,
}

/// How far the search is.
#[derive(Drop)]
pub(crate) struct Search {
    /// The ports that are found.
    dead: Vec<PortId>,
    /// How many of them have been followed.
    done: usize,
    /// The same ports as `dead` has.
    seen: Ports,
    /// The ports that are marked.
    gone: Ports,
    /// The last link at each backup.
    heads: Heads,
    /// The ports that wait.
    links: Vec<Link>,
}

/// The live port of a number.
fn live(store: &Store, port: PortId) -> Option<&Port>
    ensures { option_copied result ≡ get store.now.ports port }
{
    store.ports().get(port)
}

impl Search {
    /// Finds the port.
    fn kill(&mut self, store: &Store, doomed: &Doomed, port: PortId) -> Result<(), AllocError>
        requires kept { Kept store.now doomed.now self.old }
        requires dies { has (dying store.now doomed.now) port ≡ true }
        ensures step { OnOk result (Step store.now doomed.now [] self.old self.new) }
        ensures dead { OnOk result (has self.new.dead.items port ≡ true) }
        ensures links { OnOk result (self.new.links.items ≡ self.old.links.items) }
        ensures heads { OnOk result (self.new.heads ≡ self.old.heads) }
    {
        if self.seen.insert(port)? {
            self.dead.push(port)?;
        }
        Ok(())
    }

    /// Lets the port wait for its backup.
    fn wait(
        &mut self,
        store: &Store,
        doomed: &Doomed,
        port: PortId,
        backup: PortId,
    ) -> Result<(), AllocError>
        requires kept { Kept store.now doomed.now self.old }
        requires loses { Loses store.now doomed.now port }
        requires backup { backup_of (get store.now.ports port) ≡ BackupPort backup }
        ensures step { OnOk result (Step store.now doomed.now [] self.old self.new) }
        ensures waits { OnOk result
            (Linked self.new.links.items backup (head_at self.new.heads backup) port) }
        ensures dead { OnOk result (self.new.dead.items ≡ self.old.dead.items) }
    {
        let before = self.heads.at(backup);
        self.links.push(Link {
            port,
            backup,
            before,
        })?;
        self.heads.put(backup, self.links.len())?;
        Ok(())
    }

    /// Marks the port, which is found or waits.
    fn mark(&mut self, store: &Store, doomed: &Doomed, port: PortId) -> Result<(), AllocError>
        requires kept { Kept store.now doomed.now self.old }
        requires loses { Loses store.now doomed.now port }
        requires settled { Settled store.now self.old port }
        ensures { OnOk result (Step store.now doomed.now (receive_of port) self.old self.new) }
    {
        self.gone.insert(port)?;
        Ok(())
    }

    /// Finds the port, or lets it wait.
    fn settle(
        &mut self,
        store: &Store,
        doomed: &Doomed,
        port: PortId,
        backup: Backup,
    ) -> Result<(), AllocError>
        requires kept { Kept store.now doomed.now self.old }
        requires loses { Loses store.now doomed.now port }
        requires backup { backup_of (get store.now.ports port) ≡ backup }
        ensures step { OnOk result (Step store.now doomed.now [] self.old self.new) }
        ensures settled { OnOk result (Settled store.now self.new port) }
    {
        match backup {
            Backup::Absent => self.kill(store, doomed, port)?,
            Backup::Dead => self.kill(store, doomed, port)?,
            Backup::Port(notify) => {
                if self.seen.has(notify) {
                    self.kill(store, doomed, port)?;
                } else {
                    self.wait(store, doomed, port, notify)?;
                }
            }
        }
        Ok(())
    }

    /// The receive right of the port goes.
    fn lose(&mut self, store: &Store, doomed: &Doomed, port: PortId) -> Result<(), AllocError>
        requires kept { Kept store.now doomed.now self.old }
        requires goes { Goes store.now doomed.now (receive_of port) }
        ensures { OnOk result (Step store.now doomed.now (receive_of port) self.old self.new) }
    {
        let Some(slot) = live(store, port) else {
            return Ok(());
        };
        if self.gone.has(port) {
            return Ok(());
        }
        self.settle(store, doomed, port, slot.backup())?;
        self.mark(store, doomed, port)?;
        Ok(())
    }

    /// Finds the port of a link at this backup, which is found.
    fn wake_one(
        &mut self,
        store: &Store,
        doomed: &Doomed,
        link: Link,
        backup: PortId,
    ) -> Result<(), AllocError>
        requires kept { Kept store.now doomed.now self.old }
        requires found { has self.old.dead.items backup ≡ true }
        requires loses { Loses store.now doomed.now link.port }
        requires backup { backup_of (get store.now.ports link.port) ≡ BackupPort link.backup }
        ensures step { OnOk result (Step store.now doomed.now [] self.old self.new) }
        ensures woken { OnOk result
            (link.backup ≡ backup → has self.new.dead.items link.port ≡ true) }
        ensures links { OnOk result (self.new.links.items ≡ self.old.links.items) }
        ensures heads { OnOk result (self.new.heads ≡ self.old.heads) }
    {
        if link.backup == backup {
            self.kill(store, doomed, link.port)?;
        }
        Ok(())
    }

    /// Finds all ports that wait for this one, which is found.
    fn wake(&mut self, store: &Store, doomed: &Doomed, backup: PortId) -> Result<(), AllocError>
        requires kept { Kept store.now doomed.now self.old }
        requires found { has self.old.dead.items backup ≡ true }
        ensures step { OnOk result (Step store.now doomed.now [] self.old self.new) }
        ensures woken { OnOk result
            ((p : ℕ) → Linked self.new.links.items backup (head_at self.new.heads backup) p →
            has self.new.dead.items p ≡ true) }
    {
        let mut at = self.heads.at(backup);
        while at > 0 {
            let link = self.links[at - 1];
            let before = link.before;
            self.wake_one(store, doomed, link, backup)?;
            at = before;
        }
        Ok(())
    }

    /// Finds the kernel port, if the call ends a task.
    fn kill_kernel(&mut self, store: &Store, doomed: &Doomed) -> Result<(), AllocError>
        requires kept { Kept store.now doomed.now self.old }
        ensures step { OnOk result (Step store.now doomed.now [] self.old self.new) }
        ensures kernel { OnOk result
            ((p : ℕ) → has (keys store.now.ports) p ≡ true → is_kernel_of doomed.now.kernel p ≡
            true →
            has self.new.dead.items p ≡ true) }
    {
        if let Some(kernel) = doomed.kernel() {
            if live(store, kernel).is_some() {
                self.kill(store, doomed, kernel)?;
            }
        }
        Ok(())
    }

    /// A right goes.
    fn lose_held(&mut self, store: &Store, doomed: &Doomed, held: &Held) -> Result<(), AllocError>
        requires kept { Kept store.now doomed.now self.old }
        requires goes { Goes store.now doomed.now (one_held held.now) }
        ensures { OnOk result (Step store.now doomed.now (one_held held.now) self.old self.new) }
    {
        match held.right() {
            PortRight::Receive => self.lose(store, doomed, held.port())?,
            PortRight::Send => (),
            PortRight::SendOnce => (),
        }
        Ok(())
    }

    /// Rights go.
    fn lose_rights(
        &mut self,
        store: &Store,
        doomed: &Doomed,
        rights: &[Held],
    ) -> Result<(), AllocError>
        requires kept { Kept store.now doomed.now self.old }
        requires goes { Goes store.now doomed.now rights.now }
        ensures { OnOk result (Step store.now doomed.now rights.now self.old self.new) }
    {
        for held in rights {
            self.lose_held(store, doomed, held)?;
        }
        Ok(())
    }

    /// What the messages of a queue carry goes.
    fn lose_queue(
        &mut self,
        store: &Store,
        doomed: &Doomed,
        queue: &Queue,
    ) -> Result<(), AllocError>
        requires kept { Kept store.now doomed.now self.old }
        requires goes { Goes store.now doomed.now (queue_rights queue.now) }
        ensures { OnOk result
            (Step store.now doomed.now (queue_rights queue.now) self.old self.new) }
    {
        let mut rights = Vec::new(*self.dead.allocator());
        add_queue(&mut rights, queue)?;
        self.lose_rights(store, doomed, &rights)?;
        Ok(())
    }

    /// Follows the next port: what its queue carries goes, and what waits for it is found.
    fn follow(&mut self, store: &Store, doomed: &Doomed) -> Result<(), AllocError>
        requires going { Going store.now doomed.now self.old }
        requires more { self.old.done < length self.old.dead.items }
        ensures going { OnOk result (Going store.now doomed.now self.new) }
        ensures done { OnOk result (self.new.done ≡ self.old.done + 1) }
    {
        let port = self.dead[self.done];
        let Some(slot) = live(store, port) else {
            unreachable!();
        };
        self.lose_queue(store, doomed, slot.queue())?;
        self.wake(store, doomed, port)?;
        self.done += 1;
        Ok(())
    }
}

/// The ports that die, and those that lose their receive rights, where a call destroys these
/// rights, and this kernel port.
pub fn find_deaths(alloc: Global, store: &Store, doomed: &Doomed) -> Result<Deaths, AllocError>
    ensures dead { IfOk result (λ deaths. (p : ℕ) →
        has deaths.dead p ≡ has (dying store.now doomed.now) p) }
    ensures lost { IfOk result (λ deaths. (p : ℕ) →
        has deaths.lost p ≡ is_losing store.now doomed.now p) }
{
    let mut search = Search {
        dead: Vec::new(alloc),
        done: 0,
        seen: Ports::new(alloc),
        gone: Ports::new(alloc),
        heads: Heads::new(alloc),
        links: Vec::new(alloc),
    };
    search.kill_kernel(store, doomed)?;
    search.lose_rights(store, doomed, doomed.rights())?;
    while search.done < search.dead.len() {
        search.follow(store, doomed)?;
    }
    Ok(Deaths {
        dead: search.seen,
        lost: search.gone,
    })
}
