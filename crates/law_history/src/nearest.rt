//! The laws of the machine's nearest states, as contracts of functions that do nothing.
ghost use Rattle.law_history.specs.Nearest.{DeliveriesKeepNeighbours, RedoReachesNearest, TurnedAwayChangeNothing, UndoReachesNearest};

/// Undo makes the nearest state before the current one current again, and redo the nearest after it, with the units that they had.
pub fn nearest_states_return()
    ensures undo { UndoReachesNearest }
    ensures redo { RedoReachesNearest }
{}

/// Events that are turned away change nothing, however many come. So the same undo can come again, and is answered as the first would be.
pub fn turned_away_change_nothing()
    ensures { TurnedAwayChangeNothing }
{}

/// A delivery changes the finished units of the current state alone.
pub fn deliveries_keep_neighbours()
    ensures { DeliveriesKeepNeighbours }
{}
