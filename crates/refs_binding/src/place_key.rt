//! Places that are ordered.
use base_files::Path;

/// A place, ordered by the bytes of the path, then by offset.
#[derive(Drop, PartialEq, Eq, PartialOrd, Ord)]
pub struct PlaceKey {
    pub path: Path,
    pub offset: usize,
}
