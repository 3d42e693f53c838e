//! What stands against renames of imports without a name, and against moves.
ghost use Rattle.law_implementing.specs.UnnamedObstacles.{MovesPreserveAll, MovesTurnNone, UnnamedObstaclesDecide, UnnamedRenamesTurnNone};

/// Where no identifier is lost or captured, no interface's implementing types change.
pub fn names_of_members_stay()
    ensures unnamed { UnnamedRenamesTurnNone }
    ensures moves { MovesTurnNone }
{}

/// Nothing stands against the rename of an import without a name exactly where it preserves bindings and implementing types.
pub fn unnamed_obstacles_decide()
    ensures { UnnamedObstaclesDecide }
{}

/// A planned move that preserves bindings preserves implementing types.
pub fn moves_preserve_all()
    ensures { MovesPreserveAll }
{}
