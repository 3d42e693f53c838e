//! Laws of the members of type definitions after a rename.
ghost use Rattle.law_renamed_workspaces.specs.MembersMoved.{FieldsFollow, MethodsFollow, CountingMethodsFollow, ExportedDefinitionsFollow, SeenDefinitionsFollow};

/// The fields that count in a package after a rename are those that count by the new names.
pub fn fields_follow()
    ensures { FieldsFollow }
{}

/// A method that counts by the new names counts in the package after the rename.
pub fn methods_follow()
    ensures { MethodsFollow }
{}

/// A method that counts in a package after a rename counts by the new names.
pub fn counting_methods_follow()
    ensures { CountingMethodsFollow }
{}

/// The definitions that a package exports after a rename are those of before, with new names of members.
pub fn exported_definitions_follow()
    ensures { ExportedDefinitionsFollow }
{}

/// A package sees of the definitions of others what it saw before a rename, with new names of members.
pub fn seen_definitions_follow()
    ensures { SeenDefinitionsFollow }
{}
