//! The laws of the program's trees.
ghost use Rattle.law_gained_names.specs.NamedFiles.{NamedFilesExist};
ghost use Rattle.law_gained_names.specs.ProgramTrees.{ImportsMayChange, TokenNumbersMayChange};

/// For each tree of the program there is one with other token numbers.
pub fn token_numbers_may_change()
    ensures { TokenNumbersMayChange }
{}

/// For each tree of the program there is one with another import in the place of one of its imports.
pub fn imports_may_change()
    ensures { ImportsMayChange }
{}

/// So for each file of the program there is the file after one of its imports got a name.
pub fn named_files_exist()
    ensures { NamedFilesExist }
{}
