//! Laws of packages by their scopes: those of a faultless workspace, and those after a rename.
ghost use Rattle.law_renamed_workspaces.specs.Apart.{DeclarationsStandApart, DeclarationsMoveApart};
ghost use Rattle.law_renamed_workspaces.specs.ScopedPackages.{FaultlessPackagesAreScoped, DeclarationsHavePlaces, ScopedPackagesAreRelaid};
ghost use Rattle.law_renamed_workspaces.specs.There.{PackagesAreThere};

/// In a workspace without faults checking does not change the scopes of a package, and each declaration of scopes has a place.
pub fn faultless_packages_are_scoped()
    ensures scopes { FaultlessPackagesAreScoped }
    ensures places { DeclarationsHavePlaces }
{}

/// By scopes each package is there after a plain rename, with its old layout and trees. The edited identifiers have other names, and tokens
/// are moved.
pub fn scoped_packages_are_relaid()
    ensures { ScopedPackagesAreRelaid }
{}

/// It is there at its path, and a declaration of its scopes that counts before and after has become what has its number.
pub fn packages_are_there()
    ensures { PackagesAreThere }
{}

/// Declarations at one place are one declaration. So are those that a rename moves to one place.
pub fn declarations_move_apart()
    ensures place { DeclarationsStandApart }
    ensures moved { DeclarationsMoveApart }
{}
