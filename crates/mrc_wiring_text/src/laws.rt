//! Laws of the grammar, proved of the definitions alone.
ghost use Rattle.mrc_wiring_text.specs.Grammar.{EachLineIsSpelled, EachPolicyLineIsSpelled};

/// Words say something exactly where they are the words of it.
pub fn each_line_is_spelled()
    ensures { EachLineIsSpelled }
{}

/// Words say something in a policy exactly where they are the words of it.
pub fn each_policy_line_is_spelled()
    ensures { EachPolicyLineIsSpelled }
{}
