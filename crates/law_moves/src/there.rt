//! Laws of the packages that are there after a move, by their scopes.
ghost use Rattle.law_moves.specs.ThereMoved.{NamesApartFromMoveStay, ScopedPackagesMove};

/// Each package is there after a move, at its moved path.
pub fn scoped_packages_move()
    ensures { ScopedPackagesMove }
{}

/// Names other than those in package clauses and those bound to renamed imports stay.
pub fn names_apart_from_move_stay()
    ensures { NamesApartFromMoveStay }
{}
