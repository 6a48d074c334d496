//! Whether a world breaks a line of a policy.

ghost use Rattle.std.specs.Prelude.{◌≡◌, ◌≤◌, ◌↔◌, [], ◌∷◌, true, false, IfOk, IsTrue};
ghost use Rattle.std.specs.List.{list_any};
ghost use Rattle.mrc_model.specs.Breach.{Breach};
ghost use Rattle.mrc_model.specs.Map.{get};
ghost use Rattle.mrc_model.specs.Rights.{same_right};
ghost use Rattle.mrc_model.specs.World.{class_of};
ghost use Rattle.mrc_wiring.specs.Table.{wiring_of};
ghost use Rattle.mrc_wiring.specs.Claims.{holding_of as forbidden_of};
ghost use Rattle.mrc_machine.specs.Holdings.{holding_of, holdings_of};
ghost use Rattle.mrc_machine.specs.Breaching.{is_reached, is_counted, is_new, is_of_class, breaks};
ghost use Rattle.mrc_machine.specs.Breaching.{AreReached, AreHeld, left, left_after};

use crate::holding::Holding;
use crate::state::State;
use mrc_base::{ClassId, PortId, PortRight, TaskId};
use mrc_map::Ports;
use mrc_model::Verb;
use mrc_wiring::{ForbiddenLine, Wired};
use std::alloc::AllocError;

/// Whether the rights are the same.
fn same_right(one: PortRight, other: PortRight) -> bool
    ensures { result ≡ same_right one other }
{
    match one {
        PortRight::Send => other == PortRight::Send,
        PortRight::Receive => other == PortRight::Receive,
        PortRight::SendOnce => other == PortRight::SendOnce,
    }
}

impl State {
    /// Whether a port is of the class.
    fn is_of_class(&self, class: ClassId, port: PortId) -> bool
        ensures { result ≡ is_of_class class (class_of self.now.store port) }
    {
        match self.store.ports().get(port) {
            Some(found) => found.class() == class,
            None => false,
        }
    }

    /// Whether a task is of the class, or alive and its kernel port one of these.
    fn is_counted(&self, class: TaskId, ports: &Ports, task: TaskId) -> bool
        ensures { result ≡ is_counted self.now class ports.now task }
    {
        self.task_class(task) == class || self.is_reached(ports, task)
    }

    /// Whether it is a send right of a counted task that no line limits, and its port is not yet
    /// one of these.
    fn is_new(&self, wired: &Wired, class: TaskId, ports: &Ports, holding: &Holding) -> bool
        ensures { result
            ≡ is_new (wiring_of wired.now) self.now class ports.now (holding_of holding.now) }
    {
        same_right(holding.right, PortRight::Send)
            && !ports.has(holding.port)
            && self.is_counted(class, ports, holding.task)
            && !wired.is_limited(Verb::Takes, self.task_class(holding.task))
    }

    /// One pass: adds the port of each that is new when it is come to. Returns whether one was.
    fn reach(
        &self,
        wired: &Wired,
        class: TaskId,
        holdings: &[Holding],
        ports: &mut Ports,
    ) -> Result<bool, AllocError>
        requires held { AreHeld self.now (holdings_of holdings.now) }
        requires reached { AreReached (wiring_of wired.now) self.now class ports.old }
        ensures reached { IfOk result (λ more.
            AreReached (wiring_of wired.now) self.now class ports.new) }
        ensures all { IfOk result (λ more. more ≡ false
            → list_any (is_new (wiring_of wired.now) self.now class ports.new)
            (holdings_of holdings.now) ≡ false) }
        ensures less { IfOk result (λ more.
            left_after more ports.new (holdings_of holdings.now)
            ≤ left ports.old (holdings_of holdings.now)) }
    {
        let mut more = false;
        for holding in holdings {
            if self.is_new(wired, class, ports, holding) {
                let _ = ports.insert(holding.port)?;
                more = true;
            }
        }
        Ok(more)
    }

    /// The ports on which counted tasks that no line limits hold a send right.
    fn reached(
        &self,
        wired: &Wired,
        class: TaskId,
        holdings: &[Holding],
    ) -> Result<Ports, AllocError>
        requires { AreHeld self.now (holdings_of holdings.now) }
        ensures reached { IfOk result (λ ports.
            AreReached (wiring_of wired.now) self.now class ports) }
        ensures all { IfOk result (λ ports.
            list_any (is_new (wiring_of wired.now) self.now class ports)
            (holdings_of holdings.now) ≡ false) }
    {
        let mut ports = Ports::new(self.alloc);
        let mut more = true;
        while more {
            more = self.reach(wired, class, holdings, &mut ports)?;
        }
        Ok(ports)
    }

    /// Whether a counted task holds what the line forbids by this.
    fn breaks(&self, line: &ForbiddenLine, ports: &Ports, holding: &Holding) -> bool
        ensures { result
            ≡ breaks self.now (forbidden_of line.now) ports.now (holding_of holding.now) }
    {
        same_right(holding.right, line.right)
            && self.is_of_class(line.class, holding.port)
            && self.is_counted(TaskId(u32::from(line.task)), ports, holding.task)
    }

    /// Whether one of these is what the line forbids.
    fn has_forbidden(&self, line: &ForbiddenLine, ports: &Ports, holdings: &[Holding]) -> bool
        ensures { result
            ≡ list_any (breaks self.now (forbidden_of line.now) ports.now)
            (holdings_of holdings.now) }
    {
        for holding in holdings {
            if self.breaks(line, ports, holding) {
                return true;
            }
        }
        false
    }

    /// Whether the line of a policy is broken.
    pub(crate) fn breach(&self, wired: &Wired, line: &ForbiddenLine) -> Result<bool, AllocError>
        ensures exact { IfOk result (λ broken. IsTrue broken
            ↔ Breach (wiring_of wired.now) self.now (forbidden_of line.now ∷ [])) }
    {
        let list = self.holdings()?;
        let holdings = list.as_slice();
        let ports = self.reached(wired, TaskId(u32::from(line.task)), holdings)?;
        Ok(self.has_forbidden(line, &ports, holdings))
    }
}
