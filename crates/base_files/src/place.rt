//! Places and spans in files. Offsets are in bytes from 0.
use crate::path::Path;

/// The bytes of one file from `start` to before `end`.
#[derive(Clone, Copy, Debug, PartialEq, Eq)]
pub struct Span {
    pub start: usize,
    pub end: usize,
}

/// A byte offset in the file at a path.
#[derive(Drop)]
pub struct Place {
    pub path: Path,
    pub offset: usize,
}
