//! What holds of reading tokens and expressions.

ghost use Rattle.mrc_mig_tokens.specs.SumGrammar.{ReadIsSpelled, SpelledIsRead};
ghost use Rattle.mrc_mig_tokens.specs.SumGrammar.{SpelledHasOneValue};

/// A whole-number expression at the front of tokens is read if and only if the grammar spells it:
/// what is read is spelled by its tokens and ends where it goes on no more, and what is spelled so
/// is read. No symbols spell two values.
pub fn sums_by_grammar()
    ensures spelled { ReadIsSpelled }
    ensures read { SpelledIsRead }
    ensures one_value { SpelledHasOneValue }
{}
