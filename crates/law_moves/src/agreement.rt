//! Laws of moves: the conflicts of identifiers, judged one by one, decide whether bindings are preserved.
ghost use Rattle.law_moves.specs.Agreement.{MovesAreChecked, PreservedMovesLoseNone, MovesAgree, MoveConflictsRefuse};
ghost use Rattle.law_moves.specs.Agreement.{MoveConflictsAreTold, FirstConflictsDecideMoves};

/// A move that preserves bindings loses and captures no identifier.
pub fn preserved_moves_lose_none()
    ensures { PreservedMovesLoseNone }
{}

/// A move that has a conflict does not preserve bindings.
pub fn move_conflicts_refuse()
    ensures { MoveConflictsRefuse }
{}

/// A move loses and captures no identifier exactly where it preserves bindings, if the edited workspace has the moved packages where none is
/// lost.
pub fn moves_agree()
    ensures { MovesAreChecked → MovesAgree }
{}

/// A move that does not preserve bindings has a first conflict: it loses or captures some identifier.
pub fn move_conflicts_are_told()
    ensures { MovesAreChecked → MoveConflictsAreTold }
{}

/// The first conflict of a move decides it.
pub fn first_conflicts_decide_moves()
    ensures { MovesAreChecked → FirstConflictsDecideMoves }
{}
