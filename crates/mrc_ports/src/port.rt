//! Ports.

ghost use Rattle.std.specs.Prelude.{◌≡◌, ◌<◌, ◌∷◌, length};
ghost use Rattle.mrc_ports.specs.Queues.{limit_of_waiting, is_full_for, is_out_of_room};
ghost use Rattle.mrc_ports.specs.Queues.{with_message, after_receipt};
ghost use Rattle.mrc_model.specs.CallAllocate.{new_port};
ghost use Rattle.mrc_model.specs.Death.{perished_backup};
ghost use Rattle.mrc_ports.specs.Burials.{left_of};

use crate::parcel::{Parcel, Queue, Ready};
use mrc_base::{ClassId, limits};
use mrc_map::Ports;
use mrc_model::Backup;
use std::alloc::Global;
use std::marker::Model;

/// How many messages can not wait at a port: memory has no room for them.
pub(crate) const WAITING: usize = 1 << 62;

/// A live port.
#[derive(Debug, Drop)]
pub struct Port {
    class: ClassId,
    queue: Queue,
    backup: Backup,
    limit: u32,
    receipts: u32,
}

impl Model for Port {
    ghost use Rattle.mrc_model.specs.World as model;

    ghost Value = { model.Port };

    ghost view = { λ a. record {
      class = a.class;
      queue = a.queue;
      backup = a.backup;
      limit = a.limit;
      receipts = a.receipts;
    } };
}

/// A request, where these ports are dead.
fn perish_backup(backup: Backup, dead: &Ports) -> Backup
    ensures { result ≡ perished_backup dead.now backup }
{
    match backup {
        Backup::Absent => Backup::Absent,
        Backup::Dead => Backup::Dead,
        Backup::Port(port) => {
            if dead.has(port) {
                Backup::Dead
            } else {
                Backup::Port(port)
            }
        }
    }
}

impl Port {
    /// A new port of the class.
    pub(crate) fn new(alloc: Global, class: ClassId) -> Port
        ensures { result ≡ new_port class }
    {
        Port {
            class,
            queue: Queue::new(alloc),
            backup: Backup::Absent,
            limit: limits::FIRST_QUEUE,
            receipts: 0,
        }
    }

    /// The class, which never changes.
    pub fn class(&self) -> ClassId
        ensures { result ≡ self.now.class }
    {
        self.class
    }

    /// The messages that wait.
    pub fn queue(&self) -> &Queue
        ensures { result.now ≡ self.now.queue }
    {
        &self.queue
    }

    /// The port-destroyed request.
    pub fn backup(&self) -> Backup
        ensures { result ≡ self.now.backup }
    {
        self.backup
    }

    /// How many messages the queue takes.
    pub fn limit(&self) -> u32
        ensures { result ≡ self.now.limit }
    {
        self.limit
    }

    /// How many messages were received since the receive right moved.
    pub fn receipts(&self) -> u32
        ensures { result ≡ self.now.receipts }
    {
        self.receipts
    }

    /// The same port with another limit of its queue.
    pub(crate) fn limited(self, limit: u32) -> Port
        ensures { result ≡ record self { limit = limit } }
    {
        Port {
            class: self.class,
            queue: self.queue,
            backup: self.backup,
            limit,
            receipts: self.receipts,
        }
    }

    /// The same port after its receive right has moved.
    pub(crate) fn restarted(self) -> Port
        ensures { result ≡ record self { receipts = 0 } }
    {
        Port {
            class: self.class,
            queue: self.queue,
            backup: self.backup,
            limit: self.limit,
            receipts: 0,
        }
    }

    /// Whether the queue is full for a message: it is at or above its limit, and the message was
    /// not sent through a send-once right.
    pub fn is_full_for(&self, by_once: bool) -> bool
        ensures { result ≡ is_full_for self.now by_once }
    {
        !by_once && self.limit as usize <= self.queue.len()
    }

    /// Whether 2^62 messages wait: memory has no room for as many.
    pub fn is_out_of_room(&self) -> bool
        ensures { result ≡ is_out_of_room self.now }
    {
        WAITING <= self.queue.len()
    }

    /// The same port with one message more.
    pub(crate) fn with_message(self, ready: Ready) -> Port
        requires { length self.queue < limit_of_waiting }
        ensures { result ≡ with_message self ready }
    {
        let mut queue = self.queue;
        queue.add(ready);
        Port {
            class: self.class,
            queue,
            backup: self.backup,
            limit: self.limit,
            receipts: self.receipts,
        }
    }

    /// The first message, and the port after it was received.
    pub(crate) fn received(self) -> (Parcel, Port)
        requires { 0 < length self.queue }
        ensures first { self.queue ≡ result.0 ∷ result.1.queue }
        ensures left { result.1 ≡ after_receipt self result.1.queue }
    {
        let mut queue = self.queue;
        match queue.take_first() {
            Some(parcel) => (
                parcel,
                Port {
                    class: self.class,
                    queue,
                    backup: self.backup,
                    limit: self.limit,
                    receipts: self.receipts.wrapping_add(1),
                },
            ),
            None => unreachable!(),
        }
    }

    /// The same port with another port-destroyed request.
    pub(crate) fn with_backup(self, backup: Backup) -> Port
        ensures { result ≡ record self { backup = backup } }
    {
        Port {
            class: self.class,
            queue: self.queue,
            backup,
            limit: self.limit,
            receipts: self.receipts,
        }
    }

    /// The port as the death of others leaves it.
    pub(crate) fn perish(&mut self, dead: &Ports)
        ensures { self.new ≡ left_of dead.now self.old }
    {
        self.queue.perish(dead);
        self.backup = perish_backup(self.backup, dead);
    }
}
