//! A fault of a package.
use base_files::FaultKind;

/// A fault of a kind at a token of a package's file. `file` is the rank of the file by path, `token` its index among the file's tokens,
/// both from 0. Faults are ordered by file, token and kind.
#[derive(Clone, Copy, Debug, PartialEq, Eq, PartialOrd, Ord)]
pub struct Fault {
    pub file: usize,
    pub token: usize,
    pub kind: FaultKind,
}
