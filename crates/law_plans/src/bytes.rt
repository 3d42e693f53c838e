//! Laws of the bytes that a planned move or rename leaves.
ghost use Rattle.law_plans.specs.GainedNames.{RenamesNameImports};
ghost use Rattle.law_plans.specs.MovedBytes.{MovesKeepOtherBytes};

/// Where a move is planned, each file has its path after the move, and keeps each byte there that no edit touches.
pub fn moves_keep_other_bytes()
    ensures { MovesKeepOtherBytes }
{}

/// A planned rename of an import without a name puts the name and a blank directly before the import's string literal. Where the word
/// `import` ends there, one more blank comes first. The literal keeps its bytes, and no other edit touches it.
pub fn renames_name_imports()
    ensures { RenamesNameImports }
{}
