//! Laws of the names of fields and methods after a plain rename, and of their bindings.
ghost use Rattle.law_renamed_workspaces.specs.MembersStay.{FieldsStay, MethodsStay, MembersStay};
ghost use Rattle.law_renamed_workspaces.specs.NamesAfterwards.{MembersAreCalled, FieldNamesAfter, MethodNamesAfter, OtherFieldNamesStay, OtherMethodNamesStay};
ghost use Rattle.law_renamed_workspaces.specs.Reaching.{UsersReachMembers};
ghost use Rattle.law_renamed_workspaces.specs.ScopeRenames.{NamesApartStay, FieldNamesStay, MethodNamesStay};

/// A plain rename leaves each name at which nothing is bound to what it renames. Where scopes declare that, it leaves all names of fields and
/// methods.
pub fn other_names_stay()
    ensures names { NamesApartStay }
    ensures fields { FieldNamesStay }
    ensures methods { MethodNamesStay }
{}

/// A renamed field or method has the new name afterwards, and each other one keeps its name.
pub fn members_are_called()
    ensures identifiers { MembersAreCalled }
    ensures fields { FieldNamesAfter }
    ensures methods { MethodNamesAfter }
    ensures other_fields { OtherFieldNamesStay }
    ensures other_methods { OtherMethodNamesStay }
{}

/// When a declaration of scopes is renamed, each field and method and each use of one stays bound.
pub fn members_stay()
    ensures fields { FieldsStay }
    ensures methods { MethodsStay }
    ensures members { MembersStay }
{}

/// A package that uses a member is the one that declares it, or builds on that one.
pub fn users_reach_members()
    ensures { UsersReachMembers }
{}
