//! Notices of the kernel, each with its own room on a queue.

ghost use Rattle.std.specs.Prelude.{◌≡◌, Some, true, length, IfOk};
ghost use Rattle.mrc_model.specs.Map.{get};
ghost use Rattle.mrc_model.specs.World.{set_port, Port as TPort};
ghost use Rattle.mrc_model.specs.Death.{append, once_notice, destroyed_notice, notify_port};
ghost use Rattle.mrc_death.specs.Plans.{HasRoom, tell_once, tell_destroyed, backup_at, used_up};

use mrc_base::{PortId, PortRight};
use mrc_model::{Backup, Item};
use mrc_ports::{NotQueued, Parcel, QueuedArgument, Ready, Store};
use std::alloc::{AllocError, Global};
use std::marker::Model;

/// The id of a notice that a send-once right was destroyed unused: MACH_NOTIFY_SEND_ONCE.
const SEND_ONCE: u32 = 71;

/// The id of the notice that brings a receive right to its backup: MACH_NOTIFY_PORT_DESTROYED.
const PORT_DESTROYED: u32 = 69;

/// The message of a send-once notice.
fn once_message(alloc: Global) -> Parcel
    ensures { result ≡ once_notice }
{
    Parcel::new(true, SEND_ONCE, Item::Null, Vec::new(alloc))
}

/// The message that carries the receive right of a port.
fn destroyed_message(alloc: Global, port: PortId) -> Result<Parcel, AllocError>
    ensures { IfOk result (λ message. message ≡ destroyed_notice port) }
{
    let right = PortRight::Receive;
    let mut items = Vec::new(alloc);
    items.push(Item::Right { port, right })?;
    let mut arguments = Vec::new(alloc);
    arguments.push(QueuedArgument::Items {
        right,
        items: items.into(),
    })?;
    Ok(Parcel::new(true, PORT_DESTROYED, Item::Null, arguments))
}

/// Puts a message that counts as sent through a send-once right at the end of a port's queue, if
/// the port is live.
fn queue_notice(store: &mut Store, port: PortId, message: Ready)
    requires by_once { message.by_once ≡ true }
    requires room { HasRoom 1 store.old }
    ensures { store.new ≡ append store.old port message }
{
    match store.enqueue(port, message) {
        Ok(()) => (),
        Err(NotQueued::Absent(_)) => (),
        Err(NotQueued::Full(_)) => unreachable!(),
        Err(NotQueued::Memory(_)) => unreachable!(),
    }
}

/// A send-once notice, and the port that it goes to.
#[derive(Debug, Drop)]
pub(crate) struct OnceNotice {
    port: PortId,
    message: Ready,
}

impl Model for OnceNotice {
    ghost use Rattle.std.specs.Prelude.{◌≡◌, ℕ};
    ghost use Rattle.mrc_model.specs.Death.{once_notice};

    ghost Value = { ℕ };

    ghost view = { λ a. a.port };

    ghost invariant = { λ a. a.message ≡ once_notice };
}

impl OnceNotice {
    /// The notice for a port.
    pub(crate) fn new(alloc: Global, store: &Store, port: PortId) -> Result<OnceNotice, AllocError>
        ensures { IfOk result (λ notice. notice ≡ port) }
    {
        let message = store.ready(once_message(alloc))?;
        Ok(OnceNotice { port, message })
    }

    /// Puts the notice at the end of its port's queue, if the port is live.
    fn tell(self, store: &mut Store)
        requires { HasRoom 1 store.old }
        ensures { store.new ≡ append store.old self once_notice }
    {
        let OnceNotice { port, message } = self;
        queue_notice(store, port, message);
    }
}

/// The backup of a port, if it is live and its request names one.
fn backup_at(store: &Store, port: PortId) -> Option<PortId>
    ensures { result ≡ backup_at (get store.now.ports port) }
{
    match store.ports().get(port)?.backup() {
        Backup::Absent => None,
        Backup::Dead => None,
        Backup::Port(backup) => Some(backup),
    }
}

/// A live port has no request from here on, and no receipts.
fn use_up(store: &mut Store, port: PortId)
    ensures { (x : TPort) → get store.old.ports port ≡ Some x
        → store.new ≡ set_port store.old port (used_up x) }
{
    let _ = store.set_backup(port, Backup::Absent);
    store.restart(port);
}

/// A port-destroyed notice, and the port whose receive right it carries.
#[derive(Debug, Drop)]
pub(crate) struct DestroyedNotice {
    port: PortId,
    message: Ready,
}

impl Model for DestroyedNotice {
    ghost use Rattle.std.specs.Prelude.{◌≡◌, ℕ};
    ghost use Rattle.mrc_model.specs.Death.{destroyed_notice};

    ghost Value = { ℕ };

    ghost view = { λ a. a.port };

    ghost invariant = { λ a. a.message ≡ destroyed_notice a.port };
}

impl DestroyedNotice {
    /// The notice for a port.
    pub(crate) fn new(
        alloc: Global,
        store: &Store,
        port: PortId,
    ) -> Result<DestroyedNotice, AllocError>
        ensures { IfOk result (λ notice. notice ≡ port) }
    {
        let message = store.ready(destroyed_message(alloc, port)?)?;
        Ok(DestroyedNotice { port, message })
    }

    /// Puts the notice at the end of the queue of the port's backup, whose request is used up.
    fn tell(self, store: &mut Store)
        requires { HasRoom 1 store.old }
        ensures { store.new ≡ notify_port store.old self (get store.old.ports self) }
    {
        let DestroyedNotice { port, message } = self;
        let Some(backup) = backup_at(store, port) else {
            return;
        };
        use_up(store, port);
        queue_notice(store, backup, message);
    }
}

/// Tells all send-once notices, in order.
pub(crate) fn tell_once(store: &mut Store, notices: Vec<OnceNotice>)
    requires { HasRoom (length notices.items) store.old }
    ensures { store.new ≡ tell_once store.old notices.items }
{
    for notice in notices {
        notice.tell(store);
    }
}

/// Tells all port-destroyed notices, in order.
pub(crate) fn tell_destroyed(store: &mut Store, notices: Vec<DestroyedNotice>)
    requires { HasRoom (length notices.items) store.old }
    ensures { store.new ≡ tell_destroyed store.old notices.items }
{
    for notice in notices {
        notice.tell(store);
    }
}
