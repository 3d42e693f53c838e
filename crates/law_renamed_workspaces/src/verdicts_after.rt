//! The law of verdicts on the edited workspace.
ghost use Rattle.law_renamed_workspaces.specs.VerdictsAfter.{RenamesHaveVerdicts};

/// There are right verdicts on the packages of the edited workspace.
pub fn renames_have_verdicts()
    ensures { RenamesHaveVerdicts }
{}
