//! Laws of known verdicts after a plain rename.
ghost use Rattle.law_renamed_workspaces.specs.KnownVerdicts.{FindingsStay, UnseenDataStay, UnseenVerdictsStay, OtherVerdictsStay};
ghost use Rattle.law_renamed_workspaces.specs.KnownVerdicts.{HiddenRenamesKeepVerdicts, OtherKnownVerdictsStay};

/// The finding of each package stays right.
pub fn findings_stay()
    ensures { FindingsStay }
{}

/// A package has the export data that it had, if the rename changes nothing that others see of it.
pub fn unseen_data_stay()
    ensures { UnseenDataStay }
{}

/// So a known verdict on such a package stays right.
pub fn unseen_verdicts_stay()
    ensures { UnseenVerdictsStay }
{}

/// Export data and known verdicts stay, but for those of the declaring package.
pub fn other_verdicts_stay()
    ensures { OtherVerdictsStay }
{}

/// All known verdicts stay right where other packages don't see the declaration.
pub fn hidden_renames_keep_verdicts()
    ensures { HiddenRenamesKeepVerdicts }
{}

/// All known verdicts stay right, without that on the declaring package.
pub fn other_known_verdicts_stay()
    ensures { OtherKnownVerdictsStay }
{}
