//! What stands against a plain rename.
ghost use Rattle.law_implementing.specs.Obstacles.{ChangesDecide, NoObstacleIsHarmless, ObstaclesDecide, ScopeRenamesTurnNone};

/// Where a rename preserves bindings, no interface's implementing types change exactly where the same types implement the same interfaces in
/// the edited workspace.
pub fn changes_decide()
    ensures { ChangesDecide }
{}

/// A rename against which nothing stands is harmless.
pub fn no_obstacle_is_harmless()
    ensures { NoObstacleIsHarmless }
{}

/// Nothing stands against a rename exactly where it preserves bindings and implementing types.
pub fn obstacles_decide()
    ensures { ObstaclesDecide }
{}

/// A rename of a declaration of scopes changes no interface's implementing types.
pub fn scope_renames_turn_none()
    ensures { ScopeRenamesTurnNone }
{}
