//! Laws of the printed and the read words, as contracts of functions that do nothing.

ghost use Rattle.mrc_words.specs.Laws.{PrintedIsRead, ReadIsPrinted, NamesOneFact};

/// What is printed of a fact in range is read as the same fact.
pub fn printed_facts_are_read()
    ensures { PrintedIsRead }
{}

/// What is read of a text is in range, and prints as the text.
pub fn read_facts_are_printed()
    ensures { ReadIsPrinted }
{}

/// No text names two facts.
pub fn texts_name_one_fact()
    ensures { NamesOneFact }
{}
