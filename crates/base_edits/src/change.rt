//! The change of one file.
use crate::edit::Edits;
use base_files::Path;

/// Whether a file keeps its path, moves to another path, or is dropped.
#[derive(Drop)]
pub enum Fate {
    Stays,
    Moves(Path),
    Dropped,
}

/// The change of one file: its path before, its edits, and what becomes of its path.
#[derive(Drop)]
pub struct FileChange {
    pub path: Path,
    pub edits: Edits,
    pub fate: Fate,
}
