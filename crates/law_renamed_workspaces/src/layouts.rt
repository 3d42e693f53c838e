//! Laws of the layouts of renamed packages.
ghost use Rattle.law_renamed_workspaces.specs.Layouts.{RenamesAreNameEdits, PackagesAreRelaid};

/// In each file the edits of a rename put names in the place of names, and neither is `_`.
pub fn renames_are_name_edits()
    ensures { RenamesAreNameEdits }
{}

/// Each package of the workspace is there afterwards, with its layout and trees, and other names at the edited identifiers.
pub fn packages_are_relaid()
    ensures { PackagesAreRelaid }
{}
