//! The first state of a wiring: its lines, one after the other.

ghost use Rattle.std.specs.Prelude.{◌≡◌, Ok, IfOk, IfErr};
ghost use Rattle.mrc_model.specs.First.{no_world, add_line, built};
ghost use Rattle.mrc_model.specs.declared.FirstLine.TheVariants.{Task as TaskLine, Port, Hold};
ghost use Rattle.mrc_wiring.specs.Table.{wiring_of};
ghost use Rattle.mrc_machine.specs.Starts.{IsFaultOf};

use crate::state::State;
use mrc_base::{ClassId, OrMemory, PortId, PortRight, TaskId};
use mrc_model::{Code, FirstLine};
use mrc_wiring::Wired;
use std::alloc::{AllocError, Global};
use std::marker::Model;

/// The state after some lines, and how many of them were task lines and port lines.
#[derive(Debug, Drop)]
pub(crate) struct Start {
    state: State,
    tasks: u16,
    ports: u16,
}

impl Model for Start {
    ghost use Rattle.mrc_model.specs.First.{First};
    ghost use Rattle.mrc_machine.specs.Starts.{IsStart};

    ghost Value = { First };

    ghost view = { λ a. record { world = a.state; tasks = a.tasks; ports = a.ports } };

    ghost invariant = { λ a. IsStart record {
      world = a.state;
      tasks = a.tasks;
      ports = a.ports;
    } };
}

impl Start {
    /// Before the first line.
    fn new(alloc: Global) -> Result<Start, AllocError>
        ensures { IfOk result
            (λ start. start ≡ record { world = no_world; tasks = 0; ports = 0 }) }
    {
        let state = State::new(alloc)?;
        Ok(Start {
            state,
            tasks: 0,
            ports: 0,
        })
    }

    /// The next task, of the class that has its number.
    fn add_task(self, wired: &Wired) -> Result<Start, OrMemory<Code>>
        ensures ok { IfOk result (λ next. add_line (wiring_of wired.now) self TaskLine ≡ Ok next) }
        ensures refused { IfErr result
            (λ e. IsFaultOf e (add_line (wiring_of wired.now) self TaskLine)) }
    {
        if wired.tasks() <= self.tasks {
            drop(self);
            return Err(OrMemory::Fault(Code::KernInvalidTask));
        }
        let class = ClassId(wired.ports() + self.tasks);
        let task = TaskId(u32::from(self.tasks));
        let mut state = self.state;
        match state.begin(task, task, class) {
            Ok(()) => Ok(Start {
                state,
                tasks: self.tasks + 1,
                ports: self.ports,
            }),
            Err(error) => {
                drop(state);
                Err(OrMemory::from(error))
            }
        }
    }

    /// The next wired port, whose receive right a task gets.
    fn add_port(self, wired: &Wired, receiver: TaskId) -> Result<Start, OrMemory<Code>>
        ensures ok { IfOk result
            (λ next. add_line (wiring_of wired.now) self (Port receiver) ≡ Ok next) }
        ensures refused { IfErr result
            (λ e. IsFaultOf e (add_line (wiring_of wired.now) self (Port receiver))) }
    {
        if u32::from(self.tasks) <= receiver.0 {
            drop(self);
            return Err(OrMemory::Fault(Code::KernInvalidTask));
        }
        if wired.ports() <= self.ports {
            drop(self);
            return Err(OrMemory::Fault(Code::KernInvalidName));
        }
        if self.state.space(receiver).is_full() {
            drop(self);
            return Err(OrMemory::Fault(Code::KernNoSpace));
        }
        let mut state = self.state;
        match state.birth(receiver, ClassId(self.ports)) {
            Ok(_) => Ok(Start {
                state,
                tasks: self.tasks,
                ports: self.ports + 1,
            }),
            Err(error) => {
                drop(state);
                Err(OrMemory::from(error))
            }
        }
    }

    /// A send or send-once right for a task.
    fn add_hold(
        self,
        wired: &Wired,
        task: TaskId,
        port: PortId,
        right: PortRight,
    ) -> Result<Start, OrMemory<Code>>
        ensures ok { IfOk result
            (λ next. add_line (wiring_of wired.now) self (Hold task port right) ≡ Ok next) }
        ensures refused { IfErr result
            (λ e. IsFaultOf e (add_line (wiring_of wired.now) self (Hold task port right))) }
    {
        if let PortRight::Receive = right {
            drop(self);
            return Err(OrMemory::Fault(Code::KernInvalidName));
        }
        if u32::from(self.tasks) <= task.0 {
            drop(self);
            return Err(OrMemory::Fault(Code::KernInvalidTask));
        }
        if !self.state.is_live(port) {
            drop(self);
            return Err(OrMemory::Fault(Code::KernInvalidName));
        }
        let mut state = self.state;
        match state.give(task, port, right) {
            Ok(()) => Ok(Start {
                state,
                tasks: self.tasks,
                ports: self.ports,
            }),
            Err(fault) => {
                drop(state);
                Err(fault)
            }
        }
    }

    /// The next line.
    fn add_line(self, wired: &Wired, line: &FirstLine) -> Result<Start, OrMemory<Code>>
        ensures ok { IfOk result (λ next. add_line (wiring_of wired.now) self line.now ≡ Ok next) }
        ensures refused { IfErr result
            (λ e. IsFaultOf e (add_line (wiring_of wired.now) self line.now)) }
    {
        match *line {
            FirstLine::Task => self.add_task(wired),
            FirstLine::Port { receiver } => self.add_port(wired, receiver),
            FirstLine::Hold { task, port, right } => self.add_hold(wired, task, port, right),
        }
    }

    /// The first state.
    pub(crate) fn into_state(self) -> State
        ensures { result ≡ self.world }
    {
        self.state
    }
}

/// All lines of the wiring.
pub(crate) fn built(alloc: Global, wired: &Wired) -> Result<Start, OrMemory<Code>>
    ensures ok { IfOk result (λ start. built (wiring_of wired.now) ≡ Ok start) }
    ensures refused { IfErr result (λ e. IsFaultOf e (built (wiring_of wired.now))) }
{
    let mut start = Start::new(alloc)?;
    for line in wired.first_lines() {
        let next = start.add_line(wired, line)?;
        start = next;
    }
    Ok(start)
}
