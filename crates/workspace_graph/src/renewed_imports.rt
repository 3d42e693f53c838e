//! Decides whether the import paths of a package stay when one of its files changes.
ghost use Rattle.std.specs.Prelude.{◌⊎◌, ℕ, List, IfOk, IsTrue, OnOk};
ghost use Rattle.std.specs.Option.{option_copied};
ghost use Rattle.std.specs.List.{Contains};
ghost use Rattle.workspace_graph.specs.ImportPaths.{ListsPaths, AnyImports, AnyIsOfPath, IsPathValue, bytes_of_paths};
ghost use Rattle.workspace_graph.specs.Drafts.{Survive, GoneImports, WereImports};

use crate::file_imports::{FileImport, read_imports};
use crate::import_paths::import_paths;
use go_ast::FileTree;
use std::alloc::{AllocError, Global};
use std::collections::BTreeSet;

/// Whether one of the imports is of the path.
fn is_imported(imports: &[FileImport], path: &[u8]) -> bool
    ensures { IsTrue result → AnyIsOfPath imports.now path.now }
{
    for import in imports {
        if let Some(other) = &import.path {
            if other.as_slice() == path {
                return true;
            }
        }
    }
    false
}

/// Whether one of the files imports the path.
fn is_imported_by(alloc: Global, files: &[FileTree], path: &[u8]) -> Result<bool, AllocError>
    ensures { IfOk result (λ is. IsTrue is → AnyImports files.now path.now) }
{
    for file in files {
        let imports = read_imports(alloc, file)?;
        if is_imported(&imports, path) {
            return Ok(true);
        }
    }
    Ok(false)
}

/// Whether the path of an import is still imported: by one of the imports `come`, or by one of the files. True where the import has no
/// path.
fn is_kept(
    alloc: Global,
    import: &FileImport,
    come: &[FileImport],
    files: &[FileTree],
) -> Result<bool, AllocError>
    ensures { IfOk result (λ kept. IsTrue kept → Survive (IsPathValue import.now.path) come.now files.now) }
{
    let Some(path) = &import.path else {
        return Ok(true);
    };
    if is_imported(come, path.as_slice()) {
        return Ok(true);
    }
    is_imported_by(alloc, files, path)
}

/// Whether the path of each import of `gone` is still imported, as in `is_kept`.
fn are_kept(
    alloc: Global,
    gone: &[FileImport],
    come: &[FileImport],
    files: &[FileTree],
) -> Result<bool, AllocError>
    ensures { IfOk result (λ kept. IsTrue kept → Survive (AnyIsOfPath gone.now) come.now files.now) }
{
    for import in gone {
        if !is_kept(alloc, import, come, files)? {
            return Ok(false);
        }
    }
    Ok(true)
}

/// Whether each path that a removed file imported is still imported, as in `is_kept`.
fn keep_imports(
    alloc: Global,
    gone: Option<&FileTree>,
    come: &[FileImport],
    files: &[FileTree],
) -> Result<bool, AllocError>
    ensures { IfOk result (λ kept. IsTrue kept → Survive (GoneImports (option_copied gone.entry)) come.now files.now) }
{
    match gone {
        None => Ok(true),
        Some(gone) => {
            let lost = read_imports(alloc, gone)?;
            are_kept(alloc, &lost, come, files)
        }
    }
}

/// Whether the paths of all imports are in the set.
fn are_among(come: &[FileImport], paths: &BTreeSet<Vec<u8>>) -> bool
    ensures { IsTrue result → (q : List ℕ) → AnyIsOfPath come.now q → Contains (bytes_of_paths paths.now.keys) q }
{
    for import in come {
        if let Some(path) = &import.path {
            if !paths.contains(path.as_slice()) {
                return false;
            }
        }
    }
    true
}

/// The change of one file of a package. `imports` has the paths that the files imported before it, and `gone` is the removed tree. `come`
/// has the imports of the new tree, and `files` are all trees after the change.
#[derive(Clone, Copy)]
pub(crate) struct ImportsChange<'a> {
    pub(crate) imports: &'a BTreeSet<Vec<u8>>,
    pub(crate) gone: Option<&'a FileTree>,
    pub(crate) come: &'a [FileImport],
    pub(crate) files: &'a [FileTree],
}

/// Whether the files still import exactly the paths that they imported before the change. False may be wrong, and the paths are then read
/// again. Files other than the changed one are read only if it dropped an import path.
pub(crate) fn stay(alloc: Global, change: ImportsChange<'_>) -> Result<bool, AllocError>
    requires { WereImports change.imports.now.keys (option_copied change.gone) change.come.now change.files.now }
    ensures { IfOk result (λ stay. IsTrue stay → ListsPaths (AnyImports change.entry.files.now) change.entry.imports.now.keys) }
{
    if !are_among(change.come, change.imports) {
        return Ok(false);
    }
    keep_imports(alloc, change.gone, change.come, change.files)
}
