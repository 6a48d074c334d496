//! What holds of reading files.

ghost use Rattle.mrc_mig_parse.specs.Grammar.{FileIsRead, ReadIsFile};

/// A file is read exactly as its grammar says: what is read of tokens is what they are by the
/// grammar, and what they are by the grammar is read.
pub fn files_by_grammar()
    ensures is { ReadIsFile }
    ensures read { FileIsRead }
{}
