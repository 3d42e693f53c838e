//! The folders of paths.
ghost use Rattle.std.specs.Prelude.{IfOk};
ghost use Rattle.workspace_graph.specs.Borrows.{names};
ghost use Rattle.workspace_graph.specs.ChangedFiles.{HaveFolders};

use base_files::Path;
use std::alloc::{AllocError, Global};
use std::collections::BTreeSet;

/// The folders of the paths, each once.
pub fn folders_of<'a>(alloc: Global, paths: &[&'a Path]) -> Result<BTreeSet<&'a [u8]>, AllocError>
    ensures { IfOk result (λ folders. HaveFolders (names paths.now) (names folders.keys)) }
{
    let mut folders = BTreeSet::new(alloc);
    for path in paths {
        folders.insert(path.folder())?;
    }
    Ok(folders)
}
