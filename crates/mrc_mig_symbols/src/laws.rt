//! What holds of reading expressions.

ghost use Rattle.mrc_mig_symbols.specs.ExpressionGrammar.{ReadIsSpelled, SpelledHasOneValue};
ghost use Rattle.mrc_mig_symbols.specs.ExpressionGrammar.{SpelledIsRead};

/// A whole-number expression at the front of tokens is read exactly as the grammar spells it: what
/// is read is spelled by its tokens and ends where it goes on no more, and what is spelled so is
/// read. No symbols spell two values.
pub fn expressions_by_grammar()
    ensures spelled { ReadIsSpelled }
    ensures read { SpelledIsRead }
    ensures one_value { SpelledHasOneValue }
{}
