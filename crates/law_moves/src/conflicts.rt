//! Laws of the conflicts of a move.
ghost use Rattle.law_moves.specs.MoveConflicts.{FirstImportConflictsAreTold, ImportConflictsAreConflicts, MoveConflictsAreOfImports};
ghost use Rattle.law_moves.specs.MoveConflicts.{MovedBindingsAreSame, MovesRenameImports, NamesThatStayHaveNoConflict, NoneLostIsSame};
ghost use Rattle.law_moves.specs.MoveConflicts.{PlacesStayWithoutConflict};

/// A move renames imports of a package at once. The bindings are the same exactly where no such rename has a conflict.
pub fn moves_rename_imports()
    ensures renames { MovesRenameImports }
    ensures same { MovedBindingsAreSame }
{}

/// The conflicts of a move are those of the renames of imports.
pub fn move_conflicts_are_of_imports()
    ensures conflicts { ImportConflictsAreConflicts }
    ensures only { MoveConflictsAreOfImports }
    ensures stay { PlacesStayWithoutConflict }
{}

/// The first one by place is the first conflict of the move. There is none where the package keeps its name.
pub fn first_import_conflicts_are_told()
    ensures first { FirstImportConflictsAreTold }
    ensures none { NamesThatStayHaveNoConflict }
    ensures lost { NoneLostIsSame }
{}
