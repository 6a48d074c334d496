//! What tasks do, with the ports by their classes, and the calls by which they do it.

use crate::carriers::Carrier;
use crate::messages::{By, message_of};
use crate::run::Run;
use mrc_base::{ClassId, Disp, PortRight, Right, TaskId, limits};
use mrc_machine::Call;
use mrc_wiring::Wired;
use std::alloc::AllocError;

/// The most bytes of a message.
const LIMIT: u32 = 8192;

/// The id of port-destroyed notices.
const PORT_DESTROYED: u32 = 69;

/// What a task does with a port or a right on it.
#[derive(Clone, Copy)]
pub(crate) enum Deed {
    /// Makes a port of births.
    Allocate,
    /// Takes a right from the task whose kernel port it holds: from itself one more of its own.
    Take(u16, PortRight),
    /// Gives a right to the task whose kernel port it holds.
    Give(u16, PortRight),
    /// Sends a right to a port of this class.
    Send(ClassId, Carrier),
    /// Receives the first message.
    Receive,
    /// Asks for a notice at a port of this class; without a class takes the request back.
    Request(Option<ClassId>),
    /// Destroys the receive right.
    Destroy,
}

/// A task does something with the port of a class. Each class has one port: a wired one, a kernel
/// port, or one of births.
#[derive(Clone, Copy)]
pub(crate) struct Action {
    pub(crate) task: u16,
    pub(crate) class: ClassId,
    pub(crate) deed: Deed,
}

/// The kind of the task's births whose class this is.
fn kind_of(wired: &Wired, task: u16, class: ClassId) -> Option<u32> {
    let task = TaskId(u32::from(task));
    (0..u32::from(limits::KINDS)).find(|kind| wired.births_class(task, *kind) == Some(class))
}

impl Run<'_> {
    /// The call by which the task makes a port of births.
    fn allocate_call(&self, task: u16, class: ClassId) -> Option<Call> {
        Some(Call::Allocate {
            task: self.kernel(task, task)?,
            right: Right::Receive,
            kind: kind_of(self.wired, task, class)?,
        })
    }

    /// The call by which the task takes a right of another.
    fn extract_call(&self, action: &Action, target: u16, right: PortRight) -> Option<Call> {
        let By { name, disp } = self.passed(target, action.class, right)?;
        let task = self.kernel(action.task, target)?;
        Some(Call::ExtractRight { task, name, disp })
    }

    /// The call by which the task gives a right to another.
    fn insert_call(&self, action: &Action, target: u16, right: PortRight) -> Option<Call> {
        let by = self.passed(action.task, action.class, right)?;
        Some(Call::InsertRight {
            task: self.kernel(action.task, target)?,
            name: self.given(target, action.class, right)?,
            right: by.name,
            disp: by.disp,
        })
    }

    /// The call by which the task asks for a notice, or takes the request back.
    fn request_call(&self, action: &Action, notify: Option<ClassId>) -> Option<Call> {
        let by = match notify {
            Some(class) => self.passed(action.task, class, PortRight::SendOnce)?,
            None => By {
                name: 0,
                disp: Disp::MakeSendOnce,
            },
        };
        Some(Call::RequestNotification {
            task: self.kernel(action.task, action.task)?,
            name: self.name(action.task, action.class, PortRight::Receive)?,
            id: PORT_DESTROYED,
            sync: 0,
            notify: by.name,
            disp: by.disp,
        })
    }

    /// The call by which the task sends a right.
    fn send_call(
        &self,
        action: &Action,
        to: ClassId,
        carrier: &Carrier,
    ) -> Result<Option<Call>, AllocError> {
        let Some(through) = self.through(action.task, to) else {
            return Ok(None);
        };
        let Some(carried) = self.carried(action.task, action.class, carrier, through) else {
            return Ok(None);
        };
        let message = message_of(self.alloc, self.wired, carrier, through, carried)?;
        Ok(message.map(Call::Send))
    }

    /// The call of an action other than a message that is sent.
    fn plain_call(&self, action: &Action) -> Option<Call> {
        let Action { task, class, deed } = *action;
        match deed {
            Deed::Allocate => self.allocate_call(task, class),
            Deed::Take(target, right) => self.extract_call(action, target, right),
            Deed::Give(target, right) => self.insert_call(action, target, right),
            Deed::Send(..) => None,
            Deed::Receive => Some(Call::Receive {
                name: self.name(task, class, PortRight::Receive)?,
                limit: LIMIT,
            }),
            Deed::Request(notify) => self.request_call(action, notify),
            Deed::Destroy => Some(Call::ModRefs {
                task: self.kernel(task, task)?,
                name: self.name(task, class, PortRight::Receive)?,
                right: Right::Receive,
                delta: -1,
            }),
        }
    }

    /// The call of an action, if the names that it needs are there.
    pub(crate) fn call_of(&self, action: &Action) -> Result<Option<Call>, AllocError> {
        match &action.deed {
            Deed::Send(to, carrier) => self.send_call(action, *to, carrier),
            _ => Ok(self.plain_call(action)),
        }
    }
}
