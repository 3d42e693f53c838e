//! Laws of the export data of the declaring package after a plain rename.
ghost use Rattle.law_renamed_workspaces.specs.RenamedData.{ExportsAreRenamed, FieldsAreRenamed, MethodsAreRenamed, RenamedVerdictsAreRight};
ghost use Rattle.law_renamed_workspaces.specs.RenamedData.{RenamedKnownVerdictsStay};

/// The export of a package-level declaration gets the new name.
pub fn exports_are_renamed()
    ensures { ExportsAreRenamed }
{}

/// A field gets the new name in its type definition.
pub fn fields_are_renamed()
    ensures { FieldsAreRenamed }
{}

/// A method gets the new name in its type definition.
pub fn methods_are_renamed()
    ensures { MethodsAreRenamed }
{}

/// A known verdict with such export data is right.
pub fn renamed_verdicts_are_right()
    ensures { RenamedVerdictsAreRight }
{}

/// All known verdicts are right, with that on the declaring package so replaced.
pub fn renamed_known_verdicts_stay()
    ensures { RenamedKnownVerdictsStay }
{}
