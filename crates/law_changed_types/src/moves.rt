//! The laws of judging after a move of packages.
ghost use Rattle.law_changed_types.specs.Moves.{ExpressionsMove, FilesMove, StatementsMove};

/// What is found of an expression in a moved world is what was found in the old one, moved.
pub fn expressions_move()
    ensures { ExpressionsMove }
{}

/// What is found of a statement in a moved world is what was found in the old one, moved.
pub fn statements_move()
    ensures { StatementsMove }
{}

/// What is found of a file in a moved world is what was found in the old one, moved. Its functions without a receiver have to stay `init` or
/// not.
pub fn files_move()
    ensures { FilesMove }
{}
