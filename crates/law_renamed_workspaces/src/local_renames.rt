//! Laws of the numbers of identifiers, and of renames of declarations that are not package-level.
ghost use Rattle.law_renamed_workspaces.specs.BoundThere.{NamesStayBound};
ghost use Rattle.law_renamed_workspaces.specs.LocalConflicts.{LocalConflictsAreOfScopes};
ghost use Rattle.law_renamed_workspaces.specs.LocalRenames.{OwnScopesAloneBind, OtherNamesStay};
ghost use Rattle.law_renamed_workspaces.specs.OtherPackages.{OtherPackagesKeepScopes, ExportsStay, SelectorsKeepNames};
ghost use Rattle.law_renamed_workspaces.specs.Numbers.{NumbersFollowPlaces};

/// Identifiers of a package are numbered in the order of their places.
pub fn numbers_follow_places()
    ensures { NumbersFollowPlaces }
{}

/// Only scopes of its own package bind identifiers to a declaration that is not package-level. When it is renamed, all other names stay.
pub fn local_renames_keep_names()
    ensures bind { OwnScopesAloneBind }
    ensures names { OtherNamesStay }
{}

/// Other packages keep their scopes, each package exports what it exported, and selectors of qualified identifiers keep their names.
pub fn local_renames_keep_other_packages()
    ensures scopes { OtherPackagesKeepScopes }
    ensures exports { ExportsStay }
    ensures selectors { SelectorsKeepNames }
{}

/// Names behind packages stay bound, and so do names that scopes of other packages bind.
pub fn local_renames_keep_bound_names()
    ensures { NamesStayBound }
{}

/// Only what scopes of the declaring package bind can be lost or captured.
pub fn local_conflicts_are_of_scopes()
    ensures { LocalConflictsAreOfScopes }
{}
