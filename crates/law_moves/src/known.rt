//! Laws of what is known of packages after a move.
ghost use Rattle.law_moves.specs.MovedFindings.{AllKnownMove, FindingsMove, KnownVerdictsMove};
ghost use Rattle.law_moves.specs.MovedVerdicts.{PackagesStayBound};

/// The moved finding of a package is right.
pub fn findings_move()
    ensures { PackagesStayBound → FindingsMove }
{}

/// The moved known verdict on a package is right.
pub fn known_verdicts_move()
    ensures { PackagesStayBound → KnownVerdictsMove }
{}

/// All moved known verdicts are right.
pub fn all_known_move()
    ensures { PackagesStayBound → AllKnownMove }
{}
