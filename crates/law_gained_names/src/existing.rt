//! The law that edits of renames exist.
ghost use Rattle.law_gained_names.specs.Existing.{RenameEditsExist};

/// In a workspace without faults there are, for each name, edits that give it to a declaration and all of a set. They fit the workspace.
pub fn rename_edits_exist()
    ensures { RenameEditsExist }
{}
