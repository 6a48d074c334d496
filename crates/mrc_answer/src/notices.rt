//! What is told besides an answer, as values.

ghost use Rattle.std.specs.Prelude.{◌≡◌};
ghost use Rattle.mrc_answer.specs.Notices.{no_demand_notices, no_notices};

use crate::leaky_lines::LeakyLine;
use crate::plain_lines::PlainLine;
use mrc_dead::DeadParts;
use mrc_wiring::Wired;
use std::alloc::Global;
use std::marker::Model;

/// A MIG file that has a routine of notifications.
#[derive(Drop)]
pub struct Notification {
    /// The number of the file, from 0.
    pub file: usize,
    /// The name of the routine.
    pub routine: String,
}

impl Model for Notification {
    ghost use Rattle.std.specs.Prelude.{string_bytes};
    ghost use Rattle.mrc_answer.specs.Notices as definitions;

    ghost Value = { definitions.Notification };

    ghost view = { λ n. record { file = n.file; routine = string_bytes n.routine } };
}

/// What is told of a policy of version 3.
#[derive(Drop)]
pub struct DemandNotices {
    /// Whether it waives something, so that it forbids something.
    pub waives: bool,
    /// Whether it expects nothing.
    pub expects_nothing: bool,
    /// The numbers of its lines that waive nothing.
    pub idle: Vec<u32>,
    /// Besides the answer to a certificate: how many facts it expects, which are not judged.
    pub unjudged: usize,
}

impl Model for DemandNotices {
    ghost use Rattle.mrc_answer.specs.Notices as definitions;

    ghost Value = { definitions.DemandNotices };

    ghost view = { λ d. record {
      waives = d.waives;
      expects_nothing = d.expects_nothing;
      idle = d.idle.items;
      unjudged = d.unjudged;
    } };
}

impl DemandNotices {
    /// Nothing is told.
    pub(crate) fn none(alloc: Global) -> DemandNotices
        ensures { result ≡ no_demand_notices }
    {
        DemandNotices {
            waives: false,
            expects_nothing: false,
            idle: Vec::new(alloc),
            unjudged: 0,
        }
    }
}

/// What is told besides an answer of what is easily overlooked.
#[derive(Drop)]
pub struct Notices {
    /// Of each MIG file, the names of the routines that may carry rights and are left out of it.
    pub left_out: Vec<Vec<String>>,
    /// The numbers of the MIG files that an older `mig` has cut, from 0.
    pub cut_before: Vec<usize>,
    /// The first MIG file that has a routine of notifications of no senders or of dead names, of
    /// which the model has none.
    pub notification: Option<Notification>,
    /// Whether the policy forbids nothing, not even what it waives.
    pub is_empty_policy: bool,
    /// What is told of a policy of version 3.
    pub demands: DemandNotices,
    /// The lines of the policy that name births without a kind, of a task with births of further
    /// kinds.
    pub plain: Vec<PlainLine>,
    /// The lines of the policy that hold while their task may come to hold another right on their
    /// class.
    pub leaky: Vec<LeakyLine>,
    /// The parts of the system that can do nothing.
    pub dead: DeadParts,
    /// With a yes the names of the tasks that lines of the wiring trust.
    pub trusted: Vec<String>,
    /// With a yes to a policy the wiring, by which the lines of the policy are printed. Other
    /// answers have it themselves.
    pub wired: Option<Wired>,
}

impl Model for Notices {
    ghost use Rattle.std.specs.Prelude.{List, ℕ, map, option_map, string_bytes};
    ghost use Rattle.std.specs.declared.vec.Vec.{Vec};
    ghost use Rattle.mrc_answer.specs.Notices as definitions;

    ghost Value = { definitions.Notices };

    ghost view = { λ n. record {
      left_out = map (λ names. map string_bytes names.items) n.left_out.items;
      cut_before = n.cut_before.items;
      notification = n.notification;
      is_empty_policy = n.is_empty_policy;
      demands = n.demands;
      plain = n.plain.items;
      leaky = n.leaky.items;
      dead = n.dead;
      trusted = map string_bytes n.trusted.items;
      wired = n.wired;
    } };
}

/// Nothing is told besides.
pub(crate) fn no_notices(alloc: Global) -> Notices
    ensures { result ≡ no_notices }
{
    Notices {
        left_out: Vec::new(alloc),
        cut_before: Vec::new(alloc),
        notification: None,
        is_empty_policy: false,
        demands: DemandNotices::none(alloc),
        plain: Vec::new(alloc),
        leaky: Vec::new(alloc),
        dead: DeadParts::none(alloc),
        trusted: Vec::new(alloc),
        wired: None,
    }
}
