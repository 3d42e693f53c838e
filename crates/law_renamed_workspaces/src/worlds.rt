//! Laws of the worlds that files are judged by after a rename.
ghost use Rattle.law_renamed_workspaces.specs.Harmless.{ScopeRenamesAreHarmless};
ghost use Rattle.law_renamed_workspaces.specs.SameWorlds.{WorldsStay};
ghost use Rattle.law_renamed_workspaces.specs.StayingMembers.{DeclaredMembersStay, UsedMembersStay};

/// A rename of a declaration of scopes is harmless where it loses and captures no identifier.
pub fn scope_renames_are_harmless()
    ensures { ScopeRenamesAreHarmless }
{}

/// After a harmless rename the world of a file answers as before whatever judging the file asks.
pub fn worlds_stay()
    ensures { WorldsStay }
{}

/// Where no identifier is lost or captured, each identifier that declares a field or method declares it after the rename.
pub fn declared_members_stay()
    ensures { DeclaredMembersStay }
{}

/// Where no identifier is lost or captured, each use of a member names the same member after the rename.
pub fn used_members_stay()
    ensures { UsedMembersStay }
{}
