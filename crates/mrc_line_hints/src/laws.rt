//! Laws of the walk over the words of a line, proved of the definitions alone.

ghost use Rattle.mrc_line_hints.specs.Beginnings.{BeginningsAreFound, PolicyBeginningsAreFound};
ghost use Rattle.mrc_line_hints.specs.Beginnings.{LinesAreAccepted, CaretIsUnderTheFirst};
ghost use Rattle.mrc_line_hints.specs.Beginnings.{WhatGoesOnIsExpected};

/// Words begin a line of a wiring by the walk if and only if some words behind them make one.
pub fn beginnings_are_found()
    ensures { BeginningsAreFound }
{}

/// Words begin a line of a policy by the walk if and only if some words behind them make one.
pub fn policy_beginnings_are_found()
    ensures { PolicyBeginningsAreFound }
{}

/// Words say something in a wiring if and only if the walk ends where a line may end.
pub fn lines_are_accepted()
    ensures { LinesAreAccepted }
{}

/// The words before the caret begin a line, and with the word under it they do not.
pub fn caret_is_under_the_first()
    ensures { CaretIsUnderTheFirst }
{}

/// A line goes on with a word in the place of the one under the caret if and only if the word is of
/// a part that is expected there.
pub fn what_goes_on_is_expected()
    ensures { WhatGoesOnIsExpected }
{}
