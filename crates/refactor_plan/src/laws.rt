//! The law of planned renames, as the contract of a function that does nothing.
ghost use Rattle.refactor_plan.specs.Laws.{RenamesKeepOtherBytes};

/// Where a rename is planned, each file stays at its path, and keeps each byte that no edit touches.
pub fn renames_keep_other_bytes()
    ensures { RenamesKeepOtherBytes }
{}
