//! The laws of a package and of what it is after a move.
ghost use Rattle.law_changed_types.specs.MovedPackage.{
  BrokenMove,
  DefinitionsMove,
  MeaningsMove,
  NamesMove,
  TypesMove,
  UnderlyingMove,
  WorldsMove,
};

/// Type expressions name the moved types.
pub fn types_move()
    ensures { TypesMove }
{}

/// The same definitions are broken.
pub fn broken_move()
    ensures { BrokenMove }
{}

/// Moved types have the moved underlying types.
pub fn underlying_move()
    ensures { UnderlyingMove }
{}

/// Declarations have the moved meanings.
pub fn meanings_move()
    ensures { MeaningsMove }
{}

/// Definitions have the moved fields and methods.
pub fn definitions_move()
    ensures { DefinitionsMove }
{}

/// Names at tokens have the moved meanings.
pub fn names_move()
    ensures { NamesMove }
{}

/// The world of a file after the move is the moved world.
pub fn worlds_move()
    ensures { WorldsMove }
{}
