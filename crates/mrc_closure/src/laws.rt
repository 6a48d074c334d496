//! Laws of least sets, proved of the definitions alone.

ghost use Rattle.mrc_closure.specs.Chains.{ChainsAreLeast};
ghost use Rattle.mrc_closure.specs.Laws.{ForbiddenIsFinal, OneLeast};

/// Where a line of the policy forbids a hold of the least set, no set is accepted.
pub fn forbidden_is_final()
    ensures { ForbiddenIsFinal }
{}

/// There is one least set: two ascending lists that are least are one list.
pub fn one_least()
    ensures { OneLeast }
{}

/// What a chain derives is in the least set.
pub fn chains_are_least()
    ensures { ChainsAreLeast }
{}
