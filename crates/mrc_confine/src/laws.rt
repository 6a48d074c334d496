//! The laws above the checker and the machine, proved of the definitions alone. Each is the
//! contract of a function that does nothing.
ghost use Rattle.mrc_confine.specs.Safety.{AcceptedIsSafe, HasRewriter, HaveNoYes, IsBroken, IsNo};
ghost use Rattle.mrc_confine.specs.Safety.{IsSafe, LackedIsNeverHeld, VerifiedIsSafe, YesIsSafe};
ghost use Rattle.mrc_model.specs.Headline.{CoveredIsSafe, FirstIsCovered, StepIsCovered};

use mrc_check::Confined;

/// For every wiring of which no line is refused: its first state is well formed, the classes of its
/// tasks and ports are the wiring's, and every closed set of facts covers it.
pub fn first_covered()
    ensures covered { FirstIsCovered }
{
    mrc_cover::first_covered()
}

/// From a well-formed world whose classes are the wiring's and which a closed set covers, every
/// call by any task number with any arguments, death included, leads to a well-formed world that
/// the same set covers.
pub fn step_covered()
    ensures kept { StepIsCovered }
{
    mrc_cover::step_covered()
}

/// A well-formed world that a closed set covers has no breach of a policy of which no forbidden
/// hold is in the set.
pub fn covered_safe()
    ensures safe { CoveredIsSafe }
{
    mrc_cover::covered_safe()
}

/// Where no line of a claim's wiring is refused and a draft is accepted for the claim, every list
/// of calls from the first state of the wiring, by tasks in any order and with any arguments, ends
/// in a world that the draft's facts cover and that has no breach of the claim's policy.
pub fn accepted_is_safe()
    ensures safe { AcceptedIsSafe }
{}

/// What was checked is safe: every list of calls from the first state of its wiring ends in a world
/// that its facts cover and that has no breach of its policy.
pub fn confined_is_safe(confined: &Confined)
    ensures safe { IsSafe confined.now }
{
    let _tasks = confined.wired().tasks();
}

/// Where the bytes of MIG files, a wiring, a policy and a certificate say yes, no list of calls
/// from the first state of that wiring ends in a breach of that policy.
pub fn yes_is_safe()
    ensures safe { YesIsSafe }
{}

/// Where the bytes of MIG files, a wiring and a policy mean a claim whose least set of facts is a
/// yes, no list of calls from the first state of that wiring ends in a breach of that policy. No
/// certificate is needed.
pub fn verified_is_safe()
    ensures safe { VerifiedIsSafe }
{}

/// A holding that a closed set of facts lacks comes about in no run: so a system in which it is
/// expected cannot work as it is wired.
pub fn lacked_is_never_held()
    ensures lacked { LackedIsNeverHeld }
{}

/// The bytes of MIG files, a wiring and a policy mean a claim. In three cases no certificate is
/// accepted for them: no set of facts is a yes and keeps each trusted task from being rewritten; a
/// line forbids a fact of the least set; by the least set another task could rewrite a trusted one.
pub fn broken_has_no_yes()
    ensures no { HaveNoYes IsNo }
    ensures broken { HaveNoYes IsBroken }
    ensures rewritten { HaveNoYes HasRewriter }
{}
