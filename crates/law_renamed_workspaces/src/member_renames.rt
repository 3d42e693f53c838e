//! Laws of renames of fields and methods.
ghost use Rattle.law_renamed_workspaces.specs.AtStake.{OtherMembersStay, StakesDecide, FirstMemberConflict};
ghost use Rattle.law_renamed_workspaces.specs.KeptScopes.{ScopesAreKept, MemberRenamesKeepScopes, MemberConflictsAreOfMembers};
ghost use Rattle.law_renamed_workspaces.specs.OutsidePackages.{OtherPackagesKeepMembers, UnexportedNamesStayAtHome};

/// In every package scopes bind what they bound, and each package exports what it exported.
pub fn member_renames_keep_scopes()
    ensures scopes { ScopesAreKept }
    ensures stay { MemberRenamesKeepScopes }
    ensures decide { MemberConflictsAreOfMembers }
{}

/// Only uses and declaring identifiers of the renamed member, and those of members of the new name, can be lost or captured.
pub fn first_member_conflict()
    ensures others { OtherMembersStay }
    ensures decide { StakesDecide }
    ensures first { FirstMemberConflict }
{}

/// In a package that does not reach the package of the renamed field or method each member stays bound.
pub fn other_packages_keep_members()
    ensures { OtherPackagesKeepMembers }
{}

/// With a new name that is not exported, each member stays bound in each other package than the renamed one's, unless this is used there.
pub fn unexported_names_stay_at_home()
    ensures { UnexportedNamesStayAtHome }
{}
