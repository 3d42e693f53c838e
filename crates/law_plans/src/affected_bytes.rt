//! Laws of the bytes that a rename or move beside packages with faults leaves.
ghost use Rattle.law_plans.specs.AffectedBytes.{AffectedMovesKeepOtherBytes, AffectedRenamesKeepOtherBytes, AffectedRenamesNameImports};

/// Where a rename is planned, each file stays at its path, and keeps each byte that no edit touches.
pub fn affected_renames_keep_other_bytes()
    ensures { AffectedRenamesKeepOtherBytes }
{}

/// Where a move is planned, each file has its path after the move, and keeps each byte there that no edit touches.
pub fn affected_moves_keep_other_bytes()
    ensures { AffectedMovesKeepOtherBytes }
{}

/// A planned rename of an import without a name puts the name and a blank directly before the import's string literal. Where the word
/// `import` ends there, one more blank comes first. The literal keeps its bytes, and no other edit touches it.
pub fn affected_renames_name_imports()
    ensures { AffectedRenamesNameImports }
{}
