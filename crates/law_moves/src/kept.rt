//! Laws of the names that a move of a package keeps.
ghost use Rattle.law_moves.specs.KeptNames.{MovesKeepNames, MovesKeepMembers};

/// A move leaves the name of each identifier that is bound to no import and stands in no package clause.
pub fn moves_keep_names()
    ensures { MovesKeepNames }
{}

/// After a move, uses of members and the names by which members are declared stay bound.
pub fn moves_keep_members()
    ensures { MovesKeepMembers }
{}
