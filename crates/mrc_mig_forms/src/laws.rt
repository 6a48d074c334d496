//! What holds of the forms of a file.

ghost use Rattle.mrc_mig_forms.specs.Laws.{EachRowOnce, FoundByIds, NumbersAreKept, SlotsArePorts};

/// The request that is found by an id is that of the row which takes this id and is read, and a
/// reply that of the routine which takes an id 100 below. Nothing else is found.
pub fn forms_are_found_by_ids()
    ensures found { FoundByIds }
{}

/// Each row of a file has a form at its id or is among those that are left out, and never both.
pub fn rows_are_told_once()
    ensures once { EachRowOnce }
{}

/// The slots of a form are exactly those of its arguments that have a disposition's type number.
pub fn slots_are_ports()
    ensures ports { SlotsArePorts }
{}

/// An argument of a form has the type numbers that its type means: the words for them lose none.
pub fn numbers_are_kept()
    ensures kept { NumbersAreKept }
{}
