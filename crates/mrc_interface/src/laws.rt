//! What holds of the forms of a subsystem, and of reading files.

ghost use Rattle.mrc_interface.specs.Laws.{FoundByIds, SlotsArePorts};
ghost use Rattle.mrc_interface.specs.Laws.{ReadsDefs, ReadsInterface, ReadsReason};
ghost use Rattle.mrc_interface.specs.Laws.{ReadsInterfaces, ReadsFirstRefused, WrittenIsSecond};

/// The request that is found by an id is that of the statement that takes the id, and a reply that
/// of the statement that takes an id 100 below. Nothing else is found.
pub fn forms_are_found_by_ids()
    ensures found { FoundByIds }
{}

/// The slots of a form are exactly those of its arguments that have a disposition's type number.
pub fn slots_are_ports()
    ensures ports { SlotsArePorts }
{}

/// Reading finds exactly what bytes say, exactly the table that they have, and else exactly the
/// reason why they have none; of a list of files exactly their tables, and else exactly the first
/// that has none.
pub fn files_are_read()
    ensures says { ReadsDefs }
    ensures table { ReadsInterface }
    ensures reason { ReadsReason }
    ensures tables { ReadsInterfaces }
    ensures first { ReadsFirstRefused }
{}

/// What `mig` writes of a text is a text of edition 2, so it is read as one.
pub fn written_texts_are_of_edition_2()
    ensures second { WrittenIsSecond }
{}
