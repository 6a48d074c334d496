//! The laws that join the facts of a certificate to the machine: a closed set of facts covers the
//! first state, each call keeps it so, and a covered world has no breach. Each law is the contract
//! of a function that does nothing.
#![tactic(auto)]

ghost use Rattle.mrc_model.specs.Headline.{FirstIsCovered, StepIsCovered, CoveredIsSafe};
ghost use Rattle.mrc_model.specs.Headline.{RunsAreSafe};

/// For every wiring of which no line is refused: its first state is well formed, the classes of its
/// tasks and ports are the wiring's, and every closed set of facts covers it.
pub fn first_covered()
    ensures covered { FirstIsCovered }
{}

/// From a well-formed world whose classes are the wiring's and which a closed set covers, every
/// call by any task number with any arguments, death included, leads to a well-formed world that
/// the same set covers.
pub fn step_covered()
    ensures kept { StepIsCovered }
{}

/// A well-formed world that a closed set covers has no breach of a policy of which no forbidden
/// hold is in the set.
pub fn covered_safe()
    ensures safe { CoveredIsSafe }
{}

/// For every wiring of which no line is refused, every policy and every closed set without a
/// forbidden hold: every list of calls from the first state ends in a world that the set covers and
/// that has no breach.
pub fn runs_safe()
    ensures safe { RunsAreSafe }
{}
