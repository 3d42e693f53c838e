//! The laws of bindings under undo and redo.
ghost use Rattle.refactor_plan.specs.Restored.{UndoRestoresBindings, RedoRestoresBindings};

/// After an admitted change and its undo each identifier is bound as before the change. After an undo and its redo each is bound as before
/// the undo.
pub fn undo_and_redo_restore_bindings()
    ensures undo { UndoRestoresBindings }
    ensures redo { RedoRestoresBindings }
{}
