//! The law of the objects of packages after a planned rename. There is no code that runs.
ghost use Rattle.refactor_units.specs.PlannedObjects.{PlannedRenamesRenameObjects};

/// Where a rename is planned, each object stays, or the names of what is renamed are replaced in it. So it is with the objects that builds
/// make.
pub fn planned_renames_rename_objects()
    ensures { PlannedRenamesRenameObjects }
{}
