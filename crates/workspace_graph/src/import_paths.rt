//! Collects the paths that files import.
ghost use Rattle.std.specs.Prelude.{IfOk, OnOk};
ghost use Rattle.go_ast.specs.SourceFile.{source_of};
ghost use Rattle.workspace_graph.specs.Packages.{ImportsPath};
ghost use Rattle.workspace_graph.specs.ImportPaths.{AddsPaths, ListsPaths, AnyImports, AnyIsOfPath, IsPathValue};

use crate::file_imports::{FileImport, read_imports};
use go_ast::FileTree;
use std::alloc::{AllocError, Global};
use std::collections::BTreeSet;

/// Adds the path of an import, if the value of its literal is known.
fn add_import(
    alloc: Global,
    paths: &mut BTreeSet<Vec<u8>>,
    import: &FileImport,
) -> Result<(), AllocError>
    ensures { OnOk result (AddsPaths (IsPathValue import.now.path) paths.old.keys paths.new.keys) }
{
    match &import.path {
        None => Ok(()),
        Some(path) => {
            let path = Vec::from_slice(alloc, path)?;
            paths.insert(path)?;
            Ok(())
        }
    }
}

/// Adds the paths of imports.
fn add_imports(
    alloc: Global,
    paths: &mut BTreeSet<Vec<u8>>,
    imports: &[FileImport],
) -> Result<(), AllocError>
    ensures { OnOk result (AddsPaths (AnyIsOfPath imports.now) paths.old.keys paths.new.keys) }
{
    for import in imports {
        add_import(alloc, paths, import)?;
    }
    Ok(())
}

/// Adds the paths that a file imports.
fn add_file(alloc: Global, paths: &mut BTreeSet<Vec<u8>>, file: &FileTree) -> Result<(), AllocError>
    ensures { OnOk result (AddsPaths (ImportsPath (source_of file.now)) paths.old.keys paths.new.keys) }
{
    let imports = read_imports(alloc, file)?;
    add_imports(alloc, paths, &imports)
}

/// The paths that the files import.
pub fn import_paths(alloc: Global, files: &[FileTree]) -> Result<BTreeSet<Vec<u8>>, AllocError>
    ensures { IfOk result (λ paths. ListsPaths (AnyImports files.now) paths.keys) }
{
    let mut paths = BTreeSet::new(alloc);
    for file in files {
        add_file(alloc, &mut paths, file)?;
    }
    Ok(paths)
}
