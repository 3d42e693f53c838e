//! The edits of a move in all Go files, by path.
ghost use Rattle.std.specs.Prelude.{◌≡◌, ◌<◌, ◌+◌, Some, length, map, IfOk, OnOk};
ghost use Rattle.std.specs.BTreeMap.{Updates};
ghost use Rattle.base_files.specs.Packages.{package_paths};
ghost use Rattle.base_files.specs.Workspace.{path_cmp};
ghost use Rattle.go_ast.specs.SourceFile.{source_of};
ghost use Rattle.types_declared.specs.Package.{Package};
ghost use Rattle.refs_binding.specs.Workspaces.{known_in};
ghost use Rattle.refactor_move.specs.Steps.{AddsEdits, AreEditsIn, HasFileIn, IsFileAt, AreEditsAt, KnowsEdits};
ghost use Rattle.refactor_move.specs.Uses.{AreMarkedEdits, IsPackageOfMove, KnowsUses, rows_at};

use crate::file_edits::{MovedFile, edits_of};
use crate::moved::Moved;
use crate::untouched::may_change;
use base_edits::Edits;
use base_files::Path;
use go_ast::FileTree;
use refs_binding::{FaultlessWorkspace, path_of, trees};
use std::alloc::{AllocError, Global};
use std::collections::BTreeMap;
use types_expr::symbol::SharedPath;

/// The path and the files of a package, with the marks of the names that refer to the package that moves, and the move.
#[derive(Clone, Copy)]
pub(crate) struct MovedPackage<'a> {
    pub(crate) path: &'a SharedPath,
    pub(crate) files: &'a [FileTree],
    pub(crate) moved: &'a Moved,
    pub(crate) rows: &'a [Vec<bool>],
}

/// A move, with the marks of the names that refer to the package that moves, by package.
#[derive(Clone, Copy)]
pub(crate) struct MarkedMove<'a> {
    pub(crate) moved: &'a Moved,
    pub(crate) uses: &'a [Vec<Vec<bool>>],
}

/// Adds the edits of a file.
fn insert(
    edits: &mut BTreeMap<Path, Edits>,
    file: &FileTree,
    found: Edits,
) -> Result<(), AllocError>
    ensures { OnOk result (Updates path_cmp edits.old edits.new file.now.path (Some found)) }
{
    let path = file.path().clone()?;
    edits.insert(path, found)?;
    Ok(())
}

/// The edits of the file of a rank in a package.
fn edits_in(
    alloc: Global,
    of: &MovedPackage<'_>,
    file: &FileTree,
    rank: usize,
) -> Result<Edits, AllocError>
    ensures { IfOk result (AreMarkedEdits of.now.path.now rank (source_of file.now) of.now.moved.now of.now.rows.now) }
{
    let of = MovedFile {
        path: of.path,
        file,
        rank,
        moved: of.moved,
        rows: of.rows,
    };
    if !may_change(alloc, &of)? {
        return Ok(Edits::new(Vec::new(alloc)));
    }
    Ok(Edits::new(edits_of(alloc, &of)?))
}

/// Adds the edits of the file of a rank in a package.
fn add_file(
    alloc: Global,
    edits: &mut BTreeMap<Path, Edits>,
    of: &MovedPackage<'_>,
    rank: usize,
) -> Result<(), AllocError>
    requires { rank < length of.now.files.now }
    ensures { OnOk result ((p : Package) → IsPackageOfMove p of.now → AddsEdits edits.old edits.new (AreEditsAt p of.now.moved.now rank) (IsFileAt p rank)) }
{
    let files = of.files;
    let file = &files[rank];
    let found = edits_in(alloc, of, file, rank)?;
    insert(edits, file, found)
}

/// Adds the edits of the files of a package.
fn add_files(
    alloc: Global,
    edits: &mut BTreeMap<Path, Edits>,
    of: &MovedPackage<'_>,
) -> Result<(), AllocError>
    ensures { OnOk result ((p : Package) → IsPackageOfMove p of.now → AddsEdits edits.old edits.new (AreEditsIn p of.now.moved.now) (HasFileIn p)) }
{
    for rank in 0..of.files.len() {
        add_file(alloc, edits, of, rank)?;
    }
    Ok(())
}

/// The marks of the package of a number. Where there are none for it, no token is marked.
fn rows_of(uses: &[Vec<Vec<bool>>], number: usize) -> &[Vec<bool>]
    ensures { result.now ≡ rows_at uses.now number }
{
    match uses.get(number) {
        None => &[],
        Some(rows) => rows.as_slice(),
    }
}

/// Adds the edits of the files of the package of a number.
fn add_package(
    alloc: Global,
    edits: &mut BTreeMap<Path, Edits>,
    workspace: &FaultlessWorkspace<'_>,
    number: usize,
    of: &MarkedMove<'_>,
) -> Result<(), AllocError>
    requires in_range { number < length (package_paths workspace.now.graph) }
    requires uses { KnowsUses workspace.now.graph (known_in workspace.now.findings) of.now.moved.now of.now.uses.now }
    ensures { OnOk result (KnowsEdits workspace.now.graph (known_in workspace.now.findings) of.now.moved.now number edits.old →
        KnowsEdits workspace.now.graph (known_in workspace.now.findings) of.now.moved.now (number + 1) edits.new) }
{
    workspace.has_no_faults();
    let package = MovedPackage {
        path: path_of(workspace, number),
        files: trees(workspace, number),
        moved: of.moved,
        rows: rows_of(of.uses, number),
    };
    add_files(alloc, edits, &package)
}

/// The edits of all Go files of a workspace without faults.
pub(crate) fn all_edits(
    alloc: Global,
    workspace: &FaultlessWorkspace<'_>,
    of: &MarkedMove<'_>,
) -> Result<BTreeMap<Path, Edits>, AllocError>
    requires { KnowsUses workspace.now.graph (known_in workspace.now.findings) of.now.moved.now of.now.uses.now }
    ensures { IfOk result (KnowsEdits workspace.now.graph (known_in workspace.now.findings) of.now.moved.now (length (package_paths workspace.now.graph))) }
{
    let mut edits = BTreeMap::new(alloc);
    for number in 0..workspace.len() {
        add_package(alloc, &mut edits, workspace, number, of)?;
    }
    Ok(edits)
}
