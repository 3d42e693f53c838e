//! The laws of planned and admitted renames and moves, and of their undo.
ghost use Rattle.refactor_plan.specs.Moves.{MovesKeepBindings, UndoTakesMovesBack};
ghost use Rattle.refactor_plan.specs.Renames.{RenamesKeepBindings, UndoTakesRenamesBack};

/// Where a planned rename is admitted, the state after it has the files of the plan's edits, and no fault. Each identifier stays bound to
/// its declaration, and no other identifier is bound to it.
pub fn renames_keep_bindings()
    ensures { RenamesKeepBindings }
{}

/// Undo after an admitted rename restores the state before it: each byte, and so each binding and fault, and each finished package. Without
/// memory, or without room in the journal, undo changes nothing.
pub fn undo_takes_renames_back()
    ensures { UndoTakesRenamesBack }
{}

/// Where a planned move is admitted, the state after it has the files of the plan's edits, and no fault. Each identifier stays bound to its
/// declaration, and no other identifier is bound to it.
pub fn moves_keep_bindings()
    ensures { MovesKeepBindings }
{}

/// Undo after an admitted move restores the state before it: each byte, and so each binding and fault, and each finished package. Without
/// memory, or without room in the journal, undo changes nothing.
pub fn undo_takes_moves_back()
    ensures { UndoTakesMovesBack }
{}
