//! What holds of the numbers of types and of classes, of labels that clash, and of what lines say
//! of births, types, trusted tasks and reply ports. Each law is the contract of a function that
//! does nothing.
#![tactic(auto)]

ghost use Rattle.mrc_wiring.specs.ClassNumbers.{BirthsAreNumbered};
ghost use Rattle.mrc_wiring.specs.Sorts.{SortsAreNumbered, SortsAreTypes};
ghost use Rattle.mrc_wiring_laws.specs.ClashLaw.{ClashesAreTwoItems};
ghost use Rattle.mrc_wiring_laws.specs.GivenLines.{TablesAreOfLines, TablesOfLinesAreOne};
ghost use Rattle.mrc_wiring_laws.specs.TrustedLines.{TrustsAreOfLines, TrustsOfLinesAreOne};

/// Two types of port arguments have one number if and only if they are of one interface and have
/// one name; and the number of a type of no port argument is none of theirs.
pub fn sorts_are_types()
    ensures types { SortsAreTypes }
    ensures numbered { SortsAreNumbered }
{}

/// A label is found to clash if and only if two of its items, at different places, have a form with
/// the same id.
pub fn clashes_are_two_items()
    ensures clashes { ClashesAreTwoItems }
{}

/// Classes of births are numbered behind wired ports and kernel ports, without a gap and each once,
/// by task and then by kind; and each task has births of kind 0.
pub fn births_are_numbered()
    ensures births { BirthsAreNumbered }
{}

/// What lines mean has a row of births for kind 0 of each task, and for each `births` line, with
/// what the line's items mean; and one admit line for each `admit` line, in their order. Two tables
/// of the same lines have the same rows and the same admit lines.
pub fn tables_are_of_lines()
    ensures lines { TablesAreOfLines }
    ensures only { TablesOfLinesAreOne }
{}

/// What lines mean has one row of trust for each `trust` line, in their order, with its number and
/// what its words mean. Reply ports have to fit if and only if a line is `replies fit`, and no two
/// lines are. Two tables of the same lines say the same of both.
pub fn trust_is_of_lines()
    ensures lines { TrustsAreOfLines }
    ensures only { TrustsOfLinesAreOne }
{}
