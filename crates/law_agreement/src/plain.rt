//! Laws of plain renames that are harmless.
ghost use Rattle.law_renamed_workspaces.specs.KnownAfter.{LocalRenamesHaveVerdicts, LocalRenamesKeepKnown, LocalRenamesKeepVerdicts};
ghost use Rattle.law_agreement.specs.Agreement.{PlainNoneLostPreserves};

/// A plain rename that loses and captures no identifier, and after which the same types implement the same interfaces, preserves bindings.
pub fn none_lost_preserves()
    ensures { PlainNoneLostPreserves }
{}

/// If it renames a local declaration and loses and captures none, the edited workspace has verdicts.
pub fn local_renames_have_verdicts()
    ensures { LocalRenamesHaveVerdicts }
{}

/// Then a known verdict on a package is right of the edited workspace, and so are all known verdicts, by package number.
pub fn local_renames_keep_verdicts()
    ensures one { LocalRenamesKeepKnown }
    ensures all { LocalRenamesKeepVerdicts }
{}
