//! The laws of kept changes, as contracts of functions that do nothing.
ghost use Rattle.server_journal.specs.Laws.{NothingIsLost, StoppedHasNoHistory, UnansweredIsFit, UnfitHasNoBook};

/// Where no book is recovered from records or bytes, there is none.
pub fn unfit_has_no_book()
    ensures records { StoppedHasNoHistory }
    ensures bytes { UnfitHasNoBook }
{}

/// No change is lost that a store holds.
pub fn nothing_is_lost()
    ensures { NothingIsLost }
{}

/// The record of a change that was not answered yet makes no bytes unfit.
pub fn unanswered_is_fit()
    ensures { UnansweredIsFit }
{}
