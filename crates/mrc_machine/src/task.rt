//! Tasks.

ghost use Rattle.std.specs.Prelude.{◌≡◌, true, false};
ghost use Rattle.mrc_model.specs.Target.{has_kernel};

use mrc_base::{PortId, TaskId};
use std::marker::Model;

/// A task: whether it is alive, its kernel port, and the wired task whose class it has.
#[derive(Debug, Drop)]
pub(crate) struct Task {
    alive: bool,
    kernel: PortId,
    class: TaskId,
}

impl Model for Task {
    ghost use Rattle.mrc_model.specs.World as model;

    ghost Value = { model.Task };

    ghost view = { λ a. record { alive = a.alive; kernel = a.kernel; class = a.class } };
}

impl Task {
    /// A live task.
    pub(crate) fn new(kernel: PortId, class: TaskId) -> Task
        ensures { result ≡ record { alive = true; kernel = kernel; class = class } }
    {
        Task {
            alive: true,
            kernel,
            class,
        }
    }

    /// Whether the task is alive.
    pub(crate) fn is_alive(&self) -> bool
        ensures { result ≡ self.now.alive }
    {
        self.alive
    }

    /// The wired task whose class it has.
    pub(crate) fn class(&self) -> TaskId
        ensures { result ≡ self.now.class }
    {
        self.class
    }

    /// Its kernel port.
    pub(crate) fn kernel(&self) -> PortId
        ensures { result ≡ self.now.kernel }
    {
        self.kernel
    }

    /// The same task, which has ended.
    pub(crate) fn ended(&self) -> Task
        ensures { result ≡ record self.now { alive = false } }
    {
        Task {
            alive: false,
            kernel: self.kernel,
            class: self.class,
        }
    }

    /// Whether the task is alive and this is its kernel port.
    pub(crate) fn has_kernel(&self, port: PortId) -> bool
        ensures { result ≡ has_kernel port self.now }
    {
        self.alive && self.kernel.0 == port.0
    }
}
