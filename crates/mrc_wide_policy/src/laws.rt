//! Laws of what lines say, proved of the definitions alone.
ghost use Rattle.mrc_wide_policy.specs.AskedLaws.{OlderPoliciesAskForTheirLines};
ghost use Rattle.mrc_wide_policy.specs.FactLaws.{ProductsHaveTheirFacts, WaivedIsForbidden};
ghost use Rattle.mrc_wide_policy.specs.LineLaws.{LinesOfOneNameNameOneFact};
ghost use Rattle.mrc_wide_policy.specs.QuoteLaws.{PlainLinesHaveTheirWords};

/// A line without a `"` has its words.
pub fn plain_lines_have_their_words()
    ensures { PlainLinesHaveTheirWords }
{}

/// A product has the facts that are of its tasks, its rights and its classes.
pub fn products_have_their_facts()
    ensures { ProductsHaveTheirFacts }
{}

/// A fact that is waived is one that a line forbids.
pub fn waived_is_forbidden()
    ensures { WaivedIsForbidden }
{}

/// A line of one name in each list names one fact; births that are expected are births alone.
pub fn lines_of_one_name_name_one_fact()
    ensures { LinesOfOneNameNameOneFact }
{}

/// Over a wiring none of whose wired ports is births a policy of an older version asks for what its
/// lines forbid.
pub fn older_policies_ask_for_their_lines()
    ensures { OlderPoliciesAskForTheirLines }
{}
