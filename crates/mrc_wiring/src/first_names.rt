//! How many names the lines give each task, as they come.

ghost use Rattle.std.specs.Prelude.{◌≡◌, ◌<◌, ◌≤◌, ◌||◌, [], List, IfOk, false, not, slice_index};
ghost use Rattle.std.specs.Prelude.{slice_index_or};
ghost use Rattle.mrc_base.specs.Limits.{limit_of_tasks, limit_of_names};
ghost use Rattle.mrc_model.specs.Rights.{is_once};
ghost use Rattle.mrc_model.specs.Breach.{Holding};
ghost use Rattle.mrc_model.specs.FirstHoldings.{names_given};
ghost use Rattle.mrc_wiring.specs.State.{IsGiven, GivesMore, held_more, mark_place};
ghost use Rattle.mrc_wiring.specs.State.{marks_with, limit_of_first_ports};

use mrc_base::PortRight;
use mrc_base::limits::{TASKS, WIRED_PORTS};
use std::alloc::{AllocError, Global};
use std::marker::Model;

/// How many ports the first state has, at most.
const FIRST_PORTS: usize = TASKS + WIRED_PORTS;

/// How many names each task has from the lines so far, and which ports it has a send or receive
/// right on: those two share one name.
#[derive(Drop)]
pub(crate) struct NamesGiven {
    counts: Vec<usize>,
    marks: Vec<bool>,
}

impl Model for NamesGiven {
    ghost use Rattle.mrc_wiring.specs.State.{Given, HasPlaces};

    ghost Value = { Given };

    ghost view = { λ n. record { counts = n.counts.items; marks = n.marks.items } };

    ghost invariant = { λ n. HasPlaces record {
      counts = n.counts.items;
      marks = n.marks.items;
    } };
}

impl NamesGiven {
    /// No line gave a name yet.
    pub(crate) fn new(alloc: Global) -> Result<NamesGiven, AllocError>
        ensures { IfOk result (λ given. IsGiven [] given) }
    {
        Ok(NamesGiven {
            counts: vec![in alloc; 0; TASKS]?,
            marks: vec![in alloc; false; TASKS * FIRST_PORTS]?,
        })
    }

    /// Whether one more right needs one more name of the task.
    fn is_new(&self, task: usize, port: usize, right: PortRight) -> bool
        requires task { task < limit_of_tasks }
        requires port { port < limit_of_first_ports }
        ensures { result
            ≡ (is_once right || not (slice_index_or self.now.marks (mark_place task port) false)) }
    {
        match right {
            PortRight::SendOnce => true,
            PortRight::Send | PortRight::Receive => !self.marks[task * FIRST_PORTS + port],
        }
    }

    /// How many names the task has with one more right.
    pub(crate) fn count_with(&self, task: usize, port: usize, right: PortRight) -> usize
        requires task { task < limit_of_tasks }
        requires port { port < limit_of_first_ports }
        requires few { slice_index self.now.counts task ≤ limit_of_names }
        ensures { (held : List Holding) → IsGiven held self.now
            → result ≡ names_given task [] (held_more held task port right) }
    {
        let is_new = self.is_new(task, port, right);
        self.counts[task] + usize::from(is_new)
    }

    /// Notes that the right has a name.
    fn mark(&mut self, task: usize, port: usize, right: PortRight)
        requires task { task < limit_of_tasks }
        requires port { port < limit_of_first_ports }
        ensures { self.new ≡ record {
          counts = self.old.counts;
          marks = marks_with self.old.marks task port right;
        } }
    {
        match right {
            PortRight::SendOnce => {}
            PortRight::Send | PortRight::Receive => {
                self.marks[task * FIRST_PORTS + port] = true;
            }
        }
    }

    /// One more right.
    pub(crate) fn give(&mut self, task: usize, port: usize, right: PortRight)
        requires task { task < limit_of_tasks }
        requires port { port < limit_of_first_ports }
        requires few { slice_index self.old.counts task ≤ limit_of_names }
        ensures { GivesMore self.old task port right self.new }
    {
        let is_new = self.is_new(task, port, right);
        self.counts[task] += usize::from(is_new);
        self.mark(task, port, right);
    }
}
