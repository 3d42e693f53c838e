//! Finds the faults of imports: paths that are missing, on a cycle or of a package with faults.
ghost use Rattle.std.specs.Prelude.{OnOk, map};
ghost use Rattle.types_declared.specs.Listing.{AddsFaults, AddsEach};
ghost use Rattle.go_ast.specs.FileView.{import_view, imports_view};
ghost use Rattle.go_ast.specs.SourceFile.{source_of};
ghost use Rattle.types_declared.specs.Files.{group_items};
ghost use Rattle.types_declared.specs.States.{state_in};
ghost use Rattle.types_resolve.specs.Imports.{IsFaultOfImport, IsFaultOfState, IsImportFault, placed_imports};

use go_ast::FileTree;
use go_ast::tree::{Group, ImportDecl, ImportSpec};
use std::alloc::{AllocError, Global};
use types_declared::{Fault, ImportState, ImportStates, literal, push};

/// Adds the fault of an import whose path is in this state, if that is a fault.
fn add_state(
    found: &mut Vec<Fault>,
    rank: usize,
    token: usize,
    state: ImportState,
) -> Result<(), AllocError>
    ensures { OnOk result (AddsFaults found.old.items found.new.items (IsFaultOfState rank token state)) }
{
    match state.fault() {
        None => Ok(()),
        Some(kind) => push(
            found,
            Fault {
                file: rank,
                token,
                kind,
            },
        ),
    }
}

/// Adds the fault of one import spec, if any, at its string literal.
fn add_import(
    alloc: Global,
    found: &mut Vec<Fault>,
    states: &ImportStates,
    rank: usize,
    file: &FileTree,
    spec: &ImportSpec,
) -> Result<(), AllocError>
    ensures { OnOk result (AddsFaults found.old.items found.new.items (IsFaultOfImport (state_in states.now) ((rank, source_of file.now), import_view spec.now))) }
{
    go_scanner::laws::one_string_value();
    match literal(alloc, file, spec.path as usize)? {
        None => Ok(()),
        Some(path) => add_state(found, rank, spec.path as usize, states.state(&path)),
    }
}

/// Adds the faults of an import declaration.
fn add_import_decl(
    alloc: Global,
    found: &mut Vec<Fault>,
    states: &ImportStates,
    rank: usize,
    file: &FileTree,
    decl: &ImportDecl,
) -> Result<(), AllocError>
    ensures { OnOk result (AddsEach (IsFaultOfImport (state_in states.now)) found.old.items found.new.items (map (λ i. ((rank, source_of file.now), i)) (group_items (imports_view decl.now).imports))) }
{
    match &decl.group {
        Group::Single(spec) => add_import(alloc, found, states, rank, file, spec),
        Group::Several { items, .. } => {
            for item in items {
                add_import(alloc, found, states, rank, file, &item.value)?;
            }
            Ok(())
        }
    }
}

/// Adds the faults of a file's imports.
fn add_file(
    alloc: Global,
    found: &mut Vec<Fault>,
    states: &ImportStates,
    rank: usize,
    file: &FileTree,
) -> Result<(), AllocError>
    ensures { OnOk result (AddsEach (IsFaultOfImport (state_in states.now)) found.old.items found.new.items (placed_imports (rank, source_of file.now))) }
{
    let tree = file.file();
    for decl in &tree.imports {
        add_import_decl(alloc, found, states, rank, file, decl)?;
    }
    Ok(())
}

/// Adds the faults of a package's imports.
pub(crate) fn add_imports(
    alloc: Global,
    found: &mut Vec<Fault>,
    states: &ImportStates,
    files: &[FileTree],
) -> Result<(), AllocError>
    ensures { OnOk result (AddsFaults found.old.items found.new.items (IsImportFault (state_in states.now) (map source_of files.now))) }
{
    for rank in 0..files.len() {
        add_file(alloc, found, states, rank, &files[rank])?;
    }
    Ok(())
}
