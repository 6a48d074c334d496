//! Laws of certificates, proved of the definitions alone.
ghost use Rattle.mrc_certificate.specs.Laws.{IsReadAgain, OneDraft, OneSpelling, EachIsWithin};

/// What is written of a draft is read again as that draft.
pub fn read_again()
    ensures { IsReadAgain }
{}

/// No bytes encode two drafts.
pub fn one_draft()
    ensures { OneDraft }
{}

/// A draft has one encoding, however its set of facts came about.
pub fn one_spelling()
    ensures { OneSpelling }
{}

/// Each fact of a draft is within its counts.
pub fn each_is_within()
    ensures { EachIsWithin }
{}
