//! Laws of known verdicts after the rename of a local declaration.
ghost use Rattle.law_renamed_workspaces.specs.KnownAfter.{ExportDataStay, KnownVerdictsStay, LocalRenamesHaveVerdicts, LocalRenamesKeepKnown};
ghost use Rattle.law_renamed_workspaces.specs.KnownAfter.{LocalRenamesKeepVerdicts};

/// Each package has the export data that it had.
pub fn export_data_stay()
    ensures { ExportDataStay }
{}

/// Where the edited workspace has verdicts, a known verdict on a package is right of it.
pub fn known_verdicts_stay()
    ensures { KnownVerdictsStay }
{}

/// A known verdict on a package is right of the edited workspace, if there are verdicts on its packages.
pub fn local_renames_keep_known()
    ensures { LocalRenamesHaveVerdicts → LocalRenamesKeepKnown }
{}

/// So are all known verdicts, by package number.
pub fn local_renames_keep_verdicts()
    ensures { LocalRenamesHaveVerdicts → LocalRenamesKeepVerdicts }
{}
