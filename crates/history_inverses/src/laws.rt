//! The law of a history's moves: the contract of a function that does nothing.
ghost use Rattle.history_inverses.specs.Laws.{RedoReturns};

/// Undo and then redo give the files back, and leave the cursor where it stood.
pub fn redo_returns()
    ensures { RedoReturns }
{}
