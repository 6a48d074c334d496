//! What holds of rows and files.

ghost use Rattle.mrc_mig_laws.specs.Laws.{ReadRowsAreRoutines, RoutinesAreRead};
ghost use Rattle.mrc_mig_laws.specs.Laws.{LeftOutRowsAreNone, OthersAreLeftOut};
ghost use Rattle.mrc_mig_laws.specs.Laws.{RoutinesAreStatements, FilesAreFound, FilesAreRead};
ghost use Rattle.mrc_mig_laws.specs.Laws.{TextsAreFound, TextsAreRead};

/// A row is read if and only if it is a routine by the grammar, to which nothing objects: what is
/// read is one, and what is one is read, with its name, its id, its place and its bodies.
pub fn rows_by_grammar()
    ensures found { ReadRowsAreRoutines }
    ensures only { RoutinesAreRead }
{}

/// A row is left out if and only if it is no such routine.
pub fn other_rows_are_left_out()
    ensures found { LeftOutRowsAreNone }
    ensures only { OthersAreLeftOut }
{}

/// A routine by the grammar is the whole of its statement: no token is left between its parts and
/// where the next statement begins.
pub fn routines_are_statements()
    ensures { RoutinesAreStatements }
{}

/// A file is read if and only if its statements stand one after the other, each with what its kind
/// has; and what is read is what they say.
pub fn files_by_grammar()
    ensures found { FilesAreFound }
    ensures only { FilesAreRead }
{}

/// What `read_defs` of `mrc_interface` reads of a text of edition 2 is the forms of the file that
/// the text is by the grammar, and the forms of such a file are read.
pub fn texts_by_grammar()
    ensures found { TextsAreFound }
    ensures only { TextsAreRead }
{}
