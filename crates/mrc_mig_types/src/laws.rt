//! What holds of reading types.

ghost use Rattle.mrc_mig_types.specs.Specs.{ReadIsSpec, SpecIsRead};

/// A type at the front of tokens is read if and only if the grammar has it: what is read stands
/// there and means this, and what stands there, with no bar behind it, is read.
pub fn specs_by_grammar()
    ensures found { ReadIsSpec }
    ensures only { SpecIsRead }
{}
