//! Laws of the objects of packages after a plain rename that preserves bindings and keeps which types implement which interfaces.
ghost use Rattle.law_objects.specs.Objects.{UnprintedRenamesKeepObjects, GlobalRenamesReplaceNames, MemberRenamesReplaceNames, MethodRenamesReplaceNames};

/// Each object stays where what is renamed prints no name: a local, a parameter, a receiver, the name of an import or a field of a struct.
pub fn unprinted_renames_keep_objects()
    ensures { UnprintedRenamesKeepObjects }
{}

/// Where a package-level declaration is renamed, its name alone is replaced.
pub fn global_renames_replace_names()
    ensures { GlobalRenamesReplaceNames }
{}

/// Where members are renamed together, their names of their types alone are replaced.
pub fn member_renames_replace_names()
    ensures { MemberRenamesReplaceNames }
{}

/// So where a method is renamed alone.
pub fn method_renames_replace_names()
    ensures { MethodRenamesReplaceNames }
{}
