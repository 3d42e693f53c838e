//! The law of imports without a name that get the name that they declare already.
ghost use Rattle.law_gained_names.specs.OwnName.{OwnNamesAreGained};

/// After the name was put before the literal, the package is parsed, all packages import what they imported, and the import has the name.
pub fn own_names_are_gained()
    ensures { OwnNamesAreGained }
{}
