//! Checks whether files keep the limits.
ghost use Rattle.std.specs.Prelude.{◌↔◌, IsTrue};
ghost use Rattle.std.specs.FinMap as map;
ghost use Rattle.workspace_snapshot.specs.Fits.{SizesFit, FilesFit, FitsLimits};

use base_files::{Files, Limits};
use workspace_graph::Graph;

/// Whether each file has at most `each` bytes, and all files together have at most `all` bytes.
fn sizes_fit(files: &Files, each: usize, all: usize) -> bool
    ensures { IsTrue result ↔ SizesFit each all (map.entries files.now) }
{
    let mut room = all;
    for (_, text) in files.iter() {
        if text.len() > each || text.len() > room {
            return false;
        }
        room -= text.len();
    }
    true
}

/// Whether the files keep the limits on bytes and on the number of files.
pub fn files_fit(limits: &Limits, files: &Files) -> bool
    ensures { IsTrue result ↔ FilesFit limits.now files.now }
{
    files.len() <= limits.files && sizes_fit(files, limits.file_bytes, limits.total_bytes)
}

/// Whether the files of a graph keep all limits.
pub fn fits_limits(limits: &Limits, files: &Graph) -> bool
    ensures { IsTrue result ↔ FitsLimits limits.now files.now }
{
    files_fit(limits, files.files()) && files.len() <= limits.packages
}
