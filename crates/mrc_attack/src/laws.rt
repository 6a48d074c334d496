//! What a leak means for every closed set of facts and every certificate. Each law is the contract
//! of a function that does nothing.

ghost use Rattle.mrc_attack.specs.Refuting.{BreachesAreForced, LeaksAreForced};
ghost use Rattle.mrc_attack.specs.Refuting.{BreachesHaveNoYes, LeaksHaveNoYes};

use mrc_wiring::Wired;

/// For every wiring of which no line is refused: if a list of calls leads from the first state to a
/// world in which a line is broken, the fact that the line forbids is in every closed set.
pub fn breaches_are_forced()
    ensures forced { BreachesAreForced }
{}

/// If a text leaks for a line, the fact that the line forbids is in every closed set. So it is for
/// the hold by which a trusted task could be rewritten.
pub fn leaks_are_forced(wired: &Wired)
    ensures forced { LeaksAreForced wired.now }
{
    let _tasks = wired.tasks();
}

/// The bytes of MIG files, a wiring and a policy mean a claim. If calls lead to a world in which a
/// line of its policy is broken, or a text leaks for one of its lines, no certificate is accepted
/// for them.
pub fn leaks_have_no_yes()
    ensures breach { BreachesHaveNoYes }
    ensures leak { LeaksHaveNoYes }
{}
