//! Prints the imports of a package.
ghost use Rattle.std.specs.Prelude.{◌≡◌, ◌++◌, OnOk};
ghost use Rattle.std.specs.List.{flat_map};
ghost use Rattle.std.specs.List.Sorted.{IsStrictlySortedBy};
ghost use Rattle.base_files.specs.Workspace.{path_cmp};
ghost use Rattle.workspace_graph.specs.ImportPaths.{bytes_of_paths};
ghost use Rattle.build_object.specs.ObjectText.{import_line};

use crate::printing::push_between;
use std::alloc::AllocError;
use std::collections::BTreeSet;

/// Prints the lines of imports, sorted by bytes.
pub fn push_imports(text: &mut Vec<u8>, paths: &BTreeSet<Vec<u8>>) -> Result<(), AllocError>
    ensures lines { OnOk result (text.new.items ≡ text.old.items ++ flat_map import_line (bytes_of_paths paths.now.keys)) }
    ensures sorted { OnOk result (IsStrictlySortedBy path_cmp (bytes_of_paths paths.now.keys)) }
{
    for path in paths.iter() {
        push_between(text, b"import ", path, b"\n")?;
    }
    Ok(())
}
