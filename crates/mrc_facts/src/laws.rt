//! Laws of the order of facts and of sets of facts, proved of the definitions alone.
ghost use Rattle.mrc_facts.specs.Laws.{InByteOrder, SameAreEqual, OneList};

/// Facts stand in the order of their bytes in a certificate.
pub fn byte_order()
    ensures { InByteOrder }
{}

/// Facts that the order does not tell apart are equal.
pub fn equal_facts()
    ensures { SameAreEqual }
{}

/// Two ascending lists with the same facts are one list.
pub fn one_list()
    ensures { OneList }
{}
