//! The laws of renames by which an import without a name gains one.
ghost use Rattle.law_gained_names.specs.UnnamedRenames.{UnnamedConflictsAreTold, UnnamedConflictsRefuse, UnnamedRenamesAgree, UnnamedRenamesKeepOthers};

/// The first conflict that the old names tell in the scopes of the package is the first one of the rename.
pub fn unnamed_conflicts_are_told()
    ensures { UnnamedConflictsAreTold }
{}

/// The rename loses and captures no identifier exactly where it preserves bindings.
pub fn unnamed_renames_agree()
    ensures { UnnamedRenamesAgree }
{}

/// A rename that has a conflict does not preserve bindings.
pub fn unnamed_conflicts_refuse()
    ensures { UnnamedConflictsRefuse }
{}

/// Where it loses and captures none, known verdicts stay right but that on the package of the import.
pub fn unnamed_renames_keep_others()
    ensures { UnnamedRenamesKeepOthers }
{}
