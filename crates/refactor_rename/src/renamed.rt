//! The identifiers and the literal that a rename changes.
use base_files::{FileText, Path};
use refs_uses::Places;

/// A string literal, as a token of a file.
#[derive(Drop)]
pub struct Literal {
    pub path: Path,
    pub token: usize,
}

/// What a rename changes: the places of identifiers, sorted by path and offset, the literal of an import without a name, and the new name.
#[derive(Drop)]
pub struct Renamed {
    pub places: Places,
    pub literal: Option<Literal>,
    pub name: FileText,
}
