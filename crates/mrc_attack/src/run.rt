//! The machine with what was done, and the names and rights that it shows.

use crate::actions::{Action, Deed};
use crate::carriers::Carrier;
use crate::messages::By;
use crate::names::Named;
use mrc_base::{ClassId, Disp, Fact, PortRight, TaskId, need};
use mrc_machine::{Call, Reply, World};
use mrc_wiring::{ForbiddenLine, Wired};
use std::alloc::{AllocError, Global};

/// The machine with what was done. Each class has one port at most, and what was sent or asked for
/// and is not shown is noted: the facts of messages that wait and of requests.
#[derive(Drop)]
pub(crate) struct Run<'a> {
    pub(crate) alloc: Global,
    pub(crate) wired: &'a Wired,
    pub(crate) world: World,
    /// The classes of all ports, by the numbers of their births.
    pub(crate) classes: Vec<ClassId>,
    pub(crate) names: Vec<Named>,
    noted: Vec<Fact>,
    pub(crate) actions: Vec<Action>,
}

impl<'a> Run<'a> {
    /// The first state.
    pub(crate) fn new(alloc: Global, wired: &'a Wired) -> Result<Run<'a>, AllocError> {
        let classes = wired.first_classes().to_vec(alloc)?;
        let world = World::first(alloc, wired)?;
        let mut run = Run {
            alloc,
            wired,
            world,
            classes,
            names: Vec::new(alloc),
            noted: Vec::new(alloc),
            actions: Vec::new(alloc),
        };
        match run.look() {
            Ok(()) => Ok(run),
            Err(why) => {
                drop(run);
                Err(why)
            }
        }
    }

    /// Whether the line is broken.
    pub(crate) fn breaks(&self, line: &ForbiddenLine) -> Result<bool, AllocError> {
        self.world.breach(self.wired, line)
    }

    /// Whether the port of a class is there.
    pub(crate) fn has_port(&self, class: ClassId) -> bool {
        self.classes.contains(&class)
    }

    /// The task that makes the port of a class of births.
    pub(crate) fn owner(&self, class: ClassId) -> Option<u16> {
        u16::try_from(self.wired.born_to(class)?.0).ok()
    }

    /// The first name that the task has for the right.
    pub(crate) fn name(&self, task: u16, class: ClassId, right: PortRight) -> Option<u32> {
        let fact = Some(Fact::Hold { task, class, right });
        let named = self.names.iter().find(|named| named.fact == fact)?;
        Some(named.name)
    }

    /// Whether the task has the right.
    pub(crate) fn has(&self, task: u16, class: ClassId, right: PortRight) -> bool {
        self.name(task, class, right).is_some()
    }

    /// Whether the fact is there: held, or noted.
    pub(crate) fn is_there(&self, fact: &Fact) -> bool {
        self.noted.contains(fact) || self.names.iter().any(|named| named.fact == Some(*fact))
    }

    /// Whether the fact is made where it is used: its port, or a right from a receive right.
    pub(crate) fn is_made(&self, fact: &Fact) -> bool {
        match *fact {
            Fact::Hold { task, class, .. } if self.has_port(class) => {
                self.has(task, class, PortRight::Receive)
            }
            Fact::Hold { task, class, .. } => self.owner(class) == Some(task),
            Fact::Carry { .. } | Fact::Backup { .. } => false,
        }
    }

    /// The task that has the receive right of the port.
    pub(crate) fn receiver(&self, class: ClassId) -> Option<u16> {
        (0..self.wired.tasks()).find(|task| self.has(*task, class, PortRight::Receive))
    }

    /// The task's name for the kernel port of another, or for its own.
    pub(crate) fn kernel(&self, task: u16, other: u16) -> Option<u32> {
        let class = ClassId(self.wired.ports().checked_add(other)?);
        self.name(task, class, PortRight::Send)
    }

    /// The name under which a task is given a right: one that it has for the port, or the least
    /// that it does not use.
    pub(crate) fn given(&self, task: u16, class: ClassId, right: PortRight) -> Option<u32> {
        let own = |right| self.name(task, class, right);
        let known = match right {
            PortRight::SendOnce => None,
            _ => own(PortRight::Receive).or_else(|| own(PortRight::Send)),
        };
        let is_used = |name| {
            let mut names = self.names.iter();
            names.any(|named| named.task == task && named.name == name)
        };
        known.or_else(|| (1..u32::MAX).find(|name| !is_used(*name)))
    }

    /// The right of the task by this disposition.
    pub(crate) fn by(&self, task: u16, class: ClassId, disp: Disp) -> Option<By> {
        let name = self.name(task, class, need(disp))?;
        Some(By { name, disp })
    }

    /// How a right of the task is passed on: what can be made or copied is not moved.
    pub(crate) fn passed(&self, task: u16, class: ClassId, right: PortRight) -> Option<By> {
        let (first, second) = match right {
            PortRight::Receive => return self.by(task, class, Disp::MoveReceive),
            PortRight::Send => (Disp::CopySend, Disp::MakeSend),
            PortRight::SendOnce => (Disp::MakeSendOnce, Disp::MoveSendOnce),
        };
        let by = self.by(task, class, first);
        by.or_else(|| self.by(task, class, second))
    }

    /// The right by which the task can send to the port.
    pub(crate) fn through(&self, task: u16, class: ClassId) -> Option<By> {
        let by = self.passed(task, class, PortRight::Send);
        by.or_else(|| self.by(task, class, Disp::MoveSendOnce))
    }

    /// The right that a message carries. A send-once right that is moved is the last one, and not
    /// the one that the message is sent through.
    pub(crate) fn carried(
        &self,
        task: u16,
        class: ClassId,
        carrier: &Carrier,
        through: By,
    ) -> Option<By> {
        let disp = match carrier.slot {
            Some((_, disp)) => disp,
            None => self.passed(task, class, PortRight::SendOnce)?.disp,
        };
        if disp != Disp::MoveSendOnce {
            return self.by(task, class, disp);
        }
        let right = PortRight::SendOnce;
        let fact = Some(Fact::Hold { task, class, right });
        let mut last = self.names.iter().rev();
        let last = last.find(|own| own.fact == fact && own.name != through.name)?;
        let name = last.name;
        Some(By { name, disp })
    }
}

impl Run<'_> {
    /// Forgets the first message that waits at a port, or its request. Answers where the notice of
    /// the request was to go.
    fn forget(&mut self, port: ClassId, is_request: bool) -> Option<ClassId> {
        let place = self.noted.iter().position(|fact| match *fact {
            Fact::Backup { class, .. } => is_request && class == port,
            Fact::Carry { destination, .. } => !is_request && destination == port,
            Fact::Hold { .. } => false,
        })?;
        match self.noted.remove(place) {
            Fact::Backup { notify, .. } => Some(notify),
            _ => None,
        }
    }

    /// Notes that a message waits with a right on the port of a class.
    fn wait(&mut self, to: ClassId, class: ClassId, right: PortRight) -> Result<(), AllocError> {
        self.noted.push(Fact::Carry {
            destination: to,
            class,
            right,
        })?;
        Ok(())
    }

    /// Notes an action, and what it leaves that is not shown.
    fn note(&mut self, action: &Action) -> Result<(), AllocError> {
        let class = action.class;
        match action.deed {
            Deed::Allocate => self.classes.push(class)?,
            Deed::Send(to, carrier) => self.wait(to, class, carrier.right())?,
            Deed::Receive => {
                let _none = self.forget(class, false);
            }
            Deed::Request(notify) => {
                let _before = self.forget(class, true);
                if let Some(notify) = notify {
                    self.noted.push(Fact::Backup { class, notify })?;
                }
            }
            Deed::Destroy => {
                if let Some(to) = self.forget(class, true) {
                    self.wait(to, class, PortRight::Receive)?;
                }
            }
            Deed::Take(..) | Deed::Give(..) => {}
        }
        self.actions.push(*action)?;
        Ok(())
    }

    /// Makes a call. Answers whether it was not refused.
    fn make(&mut self, task: u16, call: &Call) -> Result<bool, AllocError> {
        let reply = self.world.step(self.wired, TaskId(u32::from(task)), call)?;
        let is_refused = matches!(
            reply,
            Reply::Refused(_) | Reply::Denied(_) | Reply::DeadTask | Reply::TooLarge(_)
        );
        drop(reply);
        Ok(!is_refused)
    }

    /// Does an action. Answers whether it can be done: the names that it needs are there, and its
    /// call is not refused.
    pub(crate) fn act(&mut self, action: &Action) -> Result<bool, AllocError> {
        let Some(call) = self.call_of(action)? else {
            return Ok(false);
        };
        let is_done = self.make(action.task, &call);
        drop(call);
        if !is_done? {
            return Ok(false);
        }
        self.note(action)?;
        self.look()?;
        Ok(true)
    }
}
