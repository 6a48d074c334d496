//! What holds of reading options and arguments.

ghost use Rattle.mrc_mig_arguments.specs.Arguments.{ReadAreOptions, OptionsAreRead};
ghost use Rattle.mrc_mig_arguments.specs.Arguments.{ReadIsArgument, ArgumentIsRead};

/// Options at the front of tokens are read if and only if the grammar has them: what is read stands
/// there, and what stands there, with no option more behind it, is read.
pub fn options_by_grammar()
    ensures found { ReadAreOptions }
    ensures only { OptionsAreRead }
{}

/// An argument at the front of tokens is read if and only if the grammar has it: what is read
/// stands there and is this argument, and what stands there, with nothing behind it that would
/// belong to it, is read.
pub fn arguments_by_grammar()
    ensures found { ReadIsArgument }
    ensures only { ArgumentIsRead }
{}
