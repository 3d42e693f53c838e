//! The law of conflicts.
ghost use Rattle.base_files.specs.Workspace.{Workspace};
ghost use Rattle.workspace_check.specs.Verdicts.{Verdicts};
ghost use Rattle.base_edits.specs.Revisions.{Revision};
ghost use Rattle.refactor_conflict.specs.declared.conflict.Conflict.{Conflict};
ghost use Rattle.refactor_conflict.specs.Conflicts.{IsConflict};
ghost use Rattle.refactor_conflict.specs.Staying.{StaysAt};

/// An identifier that is in conflict does not stay bound.
pub fn conflicts_do_not_stay()
    ensures { (w : Workspace) → (known : Verdicts) → (r : Revision) → (c : Conflict) → IsConflict w known r c → StaysAt w known r c.used → ⊥ }
{}
