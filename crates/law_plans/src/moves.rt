//! Laws of moves beside packages with faults.
ghost use Rattle.law_plans.specs.SoundMoves.{MovesKeepSoundBindings, SoundWorkspacesPlanMoves, UndoTakesAffectedMovesBack};

/// Where a planned move is admitted, the state after it has the files of the plan's edits. No affected package has a fault after it.
/// Packages without faults have none after it, and each of their identifiers stays bound to its declaration. No other identifier of theirs is
/// bound to it. Packages that are not affected keep their closures, with all texts, and their units.
pub fn moves_keep_sound_bindings()
    ensures { MovesKeepSoundBindings }
{}

/// Undo after an admitted move restores the state before it: each byte, and so each binding and fault, and each finished package. Without
/// memory, or without room in the journal, undo changes nothing.
pub fn undo_takes_affected_moves_back()
    ensures { UndoTakesAffectedMovesBack }
{}

/// In a workspace without faults a move is planned as if faults were asked of all packages.
pub fn sound_workspaces_plan_moves()
    ensures { SoundWorkspacesPlanMoves }
{}
