//! Laws of moves: the conflicts of identifiers, judged one by one, decide whether bindings are preserved.
ghost use Rattle.law_moves.specs.MovedVerdicts.{PackagesStayBound};
ghost use Rattle.law_moves.specs.Agreement.{FirstConflictsDecideMoves, MoveConflictsAreTold, MovesAgree};

/// By scopes each package is bound as it was, where a move loses and captures no identifier.
pub fn packages_stay_bound()
    ensures { PackagesStayBound }
{}

/// A planned move loses and captures no identifier exactly where it preserves bindings.
pub fn moves_agree()
    ensures { MovesAgree }
{}

/// A planned move that does not preserve bindings has a first conflict: it loses or captures some identifier.
pub fn move_conflicts_are_told()
    ensures { MoveConflictsAreTold }
{}

/// The first conflict of a planned move decides it. The edited workspace need not be judged.
pub fn first_conflicts_decide_moves()
    ensures { FirstConflictsDecideMoves }
{}
