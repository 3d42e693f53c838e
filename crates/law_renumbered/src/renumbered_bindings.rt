//! The laws of bindings in a package with other numbers.
ghost use Rattle.law_renumbered.specs.Bindings.{MemberNamesRenumber, QualifiersRenumber, UsedMembersRenumber};

/// An identifier is behind the name of the same package.
pub fn qualifiers_renumber()
    ensures { QualifiersRenumber }
{}

/// An identifier declares the same field or method.
pub fn member_names_renumber()
    ensures { MemberNamesRenumber }
{}

/// A token names the same member of the type before it.
pub fn used_members_renumber()
    ensures { UsedMembersRenumber }
{}
