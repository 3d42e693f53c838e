//! The move of a package.
use base_files::{FileText, Path};

/// The move of a package: its folder, the new folder, and its new name, if it gets one.
#[derive(Drop)]
pub struct Moved {
    pub from: Path,
    pub to: Path,
    pub name: Option<FileText>,
}
