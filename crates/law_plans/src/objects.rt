//! The law of the objects of packages after a rename that is planned beside packages with faults.
ghost use Rattle.law_plans.specs.SoundObjects.{AffectedRenamesRenameObjects};

/// Where a rename is planned beside packages with faults, the objects of packages without faults follow it. They stay, or the name of what is
/// renamed is replaced in them.
pub fn affected_renames_rename_objects()
    ensures { AffectedRenamesRenameObjects }
{}
