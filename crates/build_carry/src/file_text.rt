//! Looks up a file with its text, before or after a change.
ghost use Rattle.std.specs.Prelude.{◌≡◌, ◌↔◌, IsTrue, Some};
ghost use Rattle.std.specs.FinMap as map;

use base_files::{FileText, Files, Path};

/// Whether there is a file at `path` with this text.
pub fn has_text(files: &Files, path: &Path, text: &FileText) -> bool
    ensures { IsTrue result ↔ (map.get files.now path.now ≡ Some text.now) }
{
    match files.get(path) {
        Some(other) => *other == *text,
        None => false,
    }
}
