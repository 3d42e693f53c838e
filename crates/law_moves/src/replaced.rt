//! Laws of files in which names and string literals are replaced, and of the edits of a move.
ghost use Rattle.law_moves.specs.Replacements.{ReplacedFilesKeepTrees, MovesAreReplacements};

/// A file in which names are replaced by names, and string literals by paths in double quotes, keeps its tree. Its tokens are the old ones
/// with their ends moved.
pub fn replaced_files_keep_trees()
    ensures { ReplacedFilesKeepTrees }
{}

/// In each file the edits of a move are such edits.
pub fn moves_are_replacements()
    ensures { MovesAreReplacements }
{}
