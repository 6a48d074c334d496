//! A step of a chain as actions. What is in the way is mended first.

use crate::actions::{Action, Deed};
use crate::carriers::{Carrier, Load, carrier_of};
use crate::run::Run;
use mrc_base::{ClassId, Disp, Fact, PortRight};
use mrc_classes::RuleName;
use mrc_closure::Step;
use std::alloc::AllocError;

/// How many messages are received at most until a right is there.
const RECEIVES: usize = 20;

/// The port and the right that a fact is about. A request has a send-once right.
fn parts(fact: &Fact) -> (ClassId, PortRight) {
    match *fact {
        Fact::Hold { class, right, .. } | Fact::Carry { class, right, .. } => (class, right),
        Fact::Backup { notify, .. } => (notify, PortRight::SendOnce),
    }
}

/// When a step comes: moves of receive rights come late, and last what makes a port or a right,
/// since that is done where they are used.
pub(crate) fn turn(step: &Step) -> u8 {
    let is_receive = parts(&step.fact).1 == PortRight::Receive;
    match step.rule {
        RuleName::First | RuleName::Births | RuleName::Weaker => 3,
        RuleName::Slot | RuleName::Notice if is_receive => 2,
        RuleName::KernelPort if is_receive => 1,
        _ => 0,
    }
}

impl Run<'_> {
    /// Has a task do something with a port, which is made first if need be.
    fn does(&mut self, task: u16, class: ClassId, deed: Deed) -> Result<bool, AllocError> {
        Ok(self.there(class)? && self.act(&Action { task, class, deed })?)
    }

    /// Makes the port of a class, if it is not there yet.
    fn there(&mut self, class: ClassId) -> Result<bool, AllocError> {
        let deed = Deed::Allocate;
        match self.owner(class) {
            _ if self.has_port(class) => Ok(true),
            Some(task) => self.act(&Action { task, class, deed }),
            None => Ok(false),
        }
    }

    /// Has a task make or copy one more of its rights on a port.
    fn more(&mut self, task: u16, class: ClassId, right: PortRight) -> Result<bool, AllocError> {
        self.does(task, class, Deed::Take(task, right))
    }

    /// Which right the sender should have one more of: it has none, or the message takes its last.
    fn lacking(&self, task: u16, class: ClassId, carrier: &Carrier) -> Option<PortRight> {
        let is_receiver = self.has(task, class, PortRight::Receive);
        let is_sender = self.has(task, class, PortRight::Send);
        match carrier.slot?.1 {
            Disp::CopySend if !is_sender => Some(PortRight::Send),
            Disp::MoveSend if !is_sender || !is_receiver => Some(PortRight::Send),
            Disp::MoveSendOnce if is_receiver => Some(PortRight::SendOnce),
            _ => None,
        }
    }

    /// Sends what is carried by the best message.
    fn send(&mut self, task: u16, load: &Load) -> Result<bool, AllocError> {
        let class = load.class;
        let Some(carrier) = carrier_of(self.wired, load) else {
            return Ok(false);
        };
        if !self.there(load.to)? || !self.there(class)? {
            return Ok(false);
        }
        if let Some(right) = self.lacking(task, class, &carrier) {
            let _is_made = self.more(task, class, right)?;
        }
        self.does(task, class, Deed::Send(load.to, carrier))
    }

    /// Receives from a port until the fact is there.
    fn receive(&mut self, task: u16, from: ClassId, fact: &Fact) -> Result<bool, AllocError> {
        for _ in 0..RECEIVES {
            if !self.does(task, from, Deed::Receive)? {
                return Ok(false);
            }
            if self.is_there(fact) {
                return Ok(true);
            }
        }
        Ok(false)
    }

    /// Shares a right by a kernel port: gives it if the task of that port is to hold it, and else
    /// takes it from there.
    fn share(&mut self, caller: u16, kernel: ClassId, fact: &Fact) -> Result<bool, AllocError> {
        let (class, right) = parts(fact);
        let Some(other) = kernel.0.checked_sub(self.wired.ports()) else {
            return Ok(false);
        };
        let deed = match *fact {
            Fact::Hold { task, .. } if task == other => Deed::Give(other, right),
            _ => Deed::Take(other, right),
        };
        self.does(caller, class, deed)
    }

    /// Does a step other than a notice. The task of its first premise does it.
    fn do_plain(&mut self, step: &Step, first: &Fact, last: &Fact) -> Result<bool, AllocError> {
        let (class, right) = parts(&step.fact);
        let (to, _) = parts(first);
        let Fact::Hold { task, .. } = *first else {
            return Ok(false);
        };
        let rights = match step.rule {
            RuleName::Reply => None,
            _ => Some((parts(last).1, right)),
        };
        match step.rule {
            RuleName::First | RuleName::Notice => Ok(false),
            RuleName::Births => self.there(class),
            RuleName::Weaker => self.more(task, class, right),
            RuleName::Slot | RuleName::Reply => self.send(task, &Load { to, class, rights }),
            RuleName::Received => self.receive(task, to, &step.fact),
            RuleName::KernelPort => self.share(task, to, &step.fact),
            RuleName::Request => {
                Ok(self.there(class)? && self.does(task, to, Deed::Request(Some(class)))?)
            }
            RuleName::Returned => self.does(task, to, Deed::Request(None)),
        }
    }

    /// Does a step of which these are the premises, or the one premise twice. Before a receive
    /// right goes, who has it makes a send right and two send-once rights; what can't be made is
    /// passed over. If the step can't be done, a part of it may have been.
    pub(crate) fn do_step(
        &mut self,
        step: &Step,
        first: &Fact,
        last: &Fact,
    ) -> Result<bool, AllocError> {
        let (class, _) = parts(&step.fact);
        let turn = turn(step);
        let holder = match *last {
            _ if turn == 0 || turn == 3 => None,
            Fact::Hold { task, .. } => Some(task),
            _ => self.receiver(class),
        };
        if let Some(task) = holder {
            for right in [PortRight::Send, PortRight::SendOnce, PortRight::SendOnce] {
                let _is_made = self.more(task, class, right)?;
            }
        }
        match holder {
            Some(task) if step.rule == RuleName::Notice => self.does(task, class, Deed::Destroy),
            _ => self.do_plain(step, first, last),
        }
    }
}
