//! The laws of a history of inverses, as contracts of functions that do nothing.
ghost use Rattle.law_history.specs.Pushing.{PushesAreUndone, PushesStand, UndoReturns};

/// After a push the inverses lead from the new files, and undo gives the files before it.
pub fn pushes_are_undone()
    ensures stands { PushesStand }
    ensures undone { PushesAreUndone }
{}

/// Redo and then undo give the files back, and leave the cursor where it stood.
pub fn undo_returns()
    ensures { UndoReturns }
{}
