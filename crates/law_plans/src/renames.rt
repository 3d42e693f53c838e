//! Laws of renames beside packages with faults.
ghost use Rattle.law_plans.specs.SoundRenames.{AffectedRenamesRenameAll, RenamesKeepSoundBindings, SoundWorkspacesPlanRenames, UndoTakesAffectedRenamesBack};

/// Where a rename is planned beside packages with faults, its edits rename all that it renames in the whole workspace. So no identifier of
/// a package with faults is bound to a declaration that is renamed.
pub fn affected_renames_rename_all()
    ensures { AffectedRenamesRenameAll }
{}

/// Where a planned rename is admitted, the state after it has the files of the plan's edits. No affected package has a fault after it.
/// Packages without faults have none after it, and each of their identifiers stays bound to its declaration. No other identifier of theirs is
/// bound to it. Packages that are not affected keep their closures, with all texts, and their units.
pub fn renames_keep_sound_bindings()
    ensures { RenamesKeepSoundBindings }
{}

/// Undo after an admitted rename restores the state before it: each byte, and so each binding and fault, and each finished package. Without
/// memory, or without room in the journal, undo changes nothing.
pub fn undo_takes_affected_renames_back()
    ensures { UndoTakesAffectedRenamesBack }
{}

/// In a workspace without faults a rename is planned as if faults were asked of all packages.
pub fn sound_workspaces_plan_renames()
    ensures { SoundWorkspacesPlanRenames }
{}
