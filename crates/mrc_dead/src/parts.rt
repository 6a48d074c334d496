//! Parts of a system that can do nothing, as values.

ghost use Rattle.std.specs.Prelude.{◌≡◌, ◌↔◌, IsTrue};
ghost use Rattle.mrc_dead.specs.Dead.{no_dead_parts};

use mrc_base::ClassId;
use std::alloc::Global;
use std::marker::Model;

/// A line of a wiring that declares classes, at none of which a task may ask another.
#[derive(Clone, Copy, Debug, PartialEq, Eq)]
pub struct QuietLine {
    /// The line's number in the text, from 1.
    pub line: u32,
    /// The class that it declares first.
    pub class: ClassId,
    /// How many more it declares: in versions before 4 none.
    pub more: usize,
}

/// A slot by the names of its routine and of its argument.
#[derive(Debug, Drop)]
pub struct DeadSlot {
    /// The routine whose request or reply has the slot.
    pub routine: String,
    /// The argument.
    pub argument: String,
}

impl Model for DeadSlot {
    ghost use Rattle.std.specs.Prelude.{string_bytes};
    ghost use Rattle.mrc_dead.specs.Dead as definitions;

    ghost Value = { definitions.DeadSlot };

    ghost view = { λ s. record {
      routine = string_bytes s.routine;
      argument = string_bytes s.argument;
    } };
}

/// The first line of a wiring about a type, and the slots of the type that never carry a right from
/// one task to another.
#[derive(Debug, Drop)]
pub struct DeadLine {
    /// The line's number in the text, from 1.
    pub line: u32,
    /// The subsystem of the type.
    pub subsystem: String,
    /// The type's name.
    pub type_name: String,
    /// The slots, in the order of the ids; of an id those of the request first. There is one at
    /// least.
    pub slots: Vec<DeadSlot>,
}

impl Model for DeadLine {
    ghost use Rattle.std.specs.Prelude.{string_bytes};
    ghost use Rattle.mrc_dead.specs.Dead as definitions;

    ghost Value = { definitions.DeadLine };

    ghost view = { λ l. record {
      line = l.line;
      subsystem = string_bytes l.subsystem;
      type_name = string_bytes l.type_name;
      slots = l.slots.items;
    } };
}

/// A line of a wiring that names no class, while another about the same names one.
#[derive(Debug, Drop)]
pub struct IdleLine {
    /// The line's number in the text, from 1.
    pub line: u32,
    /// What the line limits, as it names it: the type `S.T`, or `T VERB`.
    pub subject: String,
}

impl Model for IdleLine {
    ghost use Rattle.std.specs.Prelude.{string_bytes};
    ghost use Rattle.mrc_dead.specs.Dead as definitions;

    ghost Value = { definitions.IdleLine };

    ghost view = { λ l. record { line = l.line; subject = string_bytes l.subject } };
}

/// All parts of a system that can do nothing.
#[derive(Debug, Drop)]
pub struct DeadParts {
    /// The numbers of the interfaces that no port accepts.
    pub unaccepted: Vec<usize>,
    /// The lines of ports to which no other task may ever send.
    pub quiet: Vec<QuietLine>,
    /// The numbers of the interfaces that may be asked, but never with a port that accepts their
    /// replies.
    pub unanswered: Vec<usize>,
    /// The lines about types of which slots never carry a right from one task to another.
    pub slots: Vec<DeadLine>,
    /// The lines of `none` that add nothing.
    pub idle: Vec<IdleLine>,
}

impl Model for DeadParts {
    ghost use Rattle.mrc_dead.specs.Dead as definitions;

    ghost Value = { definitions.DeadParts };

    ghost view = { λ p. record {
      unaccepted = p.unaccepted.items;
      quiet = p.quiet.items;
      unanswered = p.unanswered.items;
      slots = p.slots.items;
      idle = p.idle.items;
    } };
}

impl DeadParts {
    /// No part that can do nothing.
    pub fn none(alloc: Global) -> DeadParts
        ensures { result ≡ no_dead_parts }
    {
        DeadParts {
            unaccepted: Vec::new(alloc),
            quiet: Vec::new(alloc),
            unanswered: Vec::new(alloc),
            slots: Vec::new(alloc),
            idle: Vec::new(alloc),
        }
    }

    /// Whether there is none.
    pub fn is_none(&self) -> bool
        ensures { IsTrue result → self.now ≡ no_dead_parts }
    {
        self.unaccepted.is_empty()
            && self.quiet.is_empty()
            && self.unanswered.is_empty()
            && self.slots.is_empty()
            && self.idle.is_empty()
    }
}
