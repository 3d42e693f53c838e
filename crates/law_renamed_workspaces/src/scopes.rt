//! Laws of the scopes of renamed packages.
ghost use Rattle.law_renamed_workspaces.specs.Scopes.{OwnRenamesAreRenames, OtherScopesStay, PackagesAreBoundAlike};

/// The rename of a declaration of a package is a rename on that package's layout.
pub fn own_renames_are_renames()
    ensures { OwnRenamesAreRenames }
{}

/// In each other package no declaration of its scopes gets another name, nor does an identifier that is bound to one.
pub fn other_scopes_stay()
    ensures { OtherScopesStay }
{}

/// Where no identifier is lost or captured, each package has the bindings that it had.
pub fn packages_are_bound_alike()
    ensures { PackagesAreBoundAlike }
{}
