//! The ten rules: what they conclude from a set of facts, and what of that the set lacks.
//!
//! A row has the conclusions of a rule at one task or class. Each comes by a source: a task or a
//! class. Below, t and u are tasks, c and d classes; `t: r c` is short for 't may hold the right r
//! on c', `d <- r c` for 'r on c is carried to d', `c ~ d` for 'd may be notified of ports of c'.
//!
//! ```text
//! rule            row  source  first premise      last premise            conclusion
//! K1  First       t                               r c in the first state  t: r c
//! K2  Births      t    c                          c is of t's births      t: receive c
//! K3  Weaker      t                               t: receive c            t: send, once c
//! K4  Slot        d    t       t: send or once d  t: what d takes as r c  d <- r c
//! K5  Reply       d    t       t: send or once d  t: once c               d <- once c
//! K6  Received    t    d       t: receive d       d <- r c                t: r c
//! K7  KernelPort  t    u       t: send u's port   u: r c                  t: r c
//!                      u       u: send t's port   u: r c                  t: r c
//! K8  Request     c    t       t: receive c       t: once d               c ~ d
//! K9  Notice      d    c                          c ~ d                   d <- receive c
//! K10 Returned    t    c       t: receive c       c ~ d                   t: once d
//! ```
//!
//! In K5 the reply right can come with a request to d, in K8 d accepts port-destroyed notices. What
//! a task sends (K4), has replies at (K5), takes and gives (K7, the first line and the second) is
//! what the wiring lets it. `rules` has the table as code.
#![tactic(auto)]

mod conclude;
mod first_facts;
mod instances;
mod lacking;
mod marks;
mod rights;
mod rule_names;
mod rules;
mod searching;

pub use conclude::{conclude_at, consequences, first_conclusions, first_rules};
pub use instances::{Candidates, FewFacts, Goal, Instance, Premise, RULES, instance_of};
pub use lacking::{Missing, Search, violation};
pub use mrc_base::Fact;
pub use mrc_rows::Facts;
pub use rights::same_right;
pub use rule_names::RuleName;
pub use rules::{Rules, can_send_to};
pub use searching::violation_by;
