//! What the part leaves out: the packages with faults.
ghost use Rattle.std.specs.Prelude.{◌≡◌, ◌<◌, ◌+◌, ◌++◌, ◌∷◌, [], length, map, IfOk, OnOk};
ghost use Rattle.base_files.specs.Packages.{package_paths};
ghost use Rattle.workspace_check.specs.KnownFindings.{verdicts_by};
ghost use Rattle.workspace_graph.specs.Borrows.{names};
ghost use Rattle.refactor_part.specs.LeftOut.{AreFirstLeftOut, IsLeftOut, path_of_tree, path_of_unread};

use base_files::Path;
use go_ast::FileTree;
use std::alloc::{AllocError, Global};
use types_declared::ExportTable;
use workspace_graph::{FaultyFile, Graph, ParsedPackage};

/// The folders of the packages with faults, and the paths of their Go files.
#[derive(Drop)]
pub struct LeftOut<'a> {
    pub folders: Vec<&'a [u8]>,
    pub paths: Vec<&'a Path>,
}

/// Whether the package at a path has faults. A package without export data has some.
fn has_faults(table: &ExportTable, path: &[u8]) -> bool
    ensures { result ≡ (verdicts_by table.now path.now).faulty }
{
    table.scope(path).is_none()
}

/// Adds the paths of files with trees.
fn add_trees<'a>(paths: &mut Vec<&'a Path>, trees: &'a [FileTree]) -> Result<(), AllocError>
    ensures { OnOk result (names paths.new.items ≡ names paths.old.items ++ map path_of_tree trees.now) }
{
    for tree in trees {
        paths.push(tree.path())?;
    }
    Ok(())
}

/// Adds the paths of files without trees.
fn add_unread<'a>(paths: &mut Vec<&'a Path>, files: &'a [FaultyFile]) -> Result<(), AllocError>
    ensures { OnOk result (names paths.new.items ≡ names paths.old.items ++ map path_of_unread files.now) }
{
    for file in files {
        paths.push(file.path())?;
    }
    Ok(())
}

/// Adds a package: its folder, and the paths of its Go files.
fn add_package<'a>(left: &mut LeftOut<'a>, one: &'a ParsedPackage) -> Result<(), AllocError>
    ensures folders { OnOk result (names left.new.folders.items ≡ names left.old.folders.items ++ one.now.path.items ∷ []) }
    ensures paths { OnOk result (names left.new.paths.items ≡ (names left.old.paths.items ++ map path_of_tree one.now.trees.items) ++ map path_of_unread one.now.faulty.items) }
{
    left.folders.push(one.path.as_slice())?;
    add_trees(&mut left.paths, &one.trees)?;
    add_unread(&mut left.paths, &one.faulty)
}

/// Adds the package of a number, if it has faults.
fn add_if_faulty<'a>(
    left: &mut LeftOut<'a>,
    graph: &'a Graph,
    number: usize,
    table: &ExportTable,
) -> Result<(), AllocError>
    requires number { number < length (package_paths graph.now) }
    requires first { AreFirstLeftOut graph.now (verdicts_by table.now) number (names left.old.folders.items) (names left.old.paths.items) }
    ensures { OnOk result (AreFirstLeftOut graph.now (verdicts_by table.now) (number + 1) (names left.new.folders.items) (names left.new.paths.items)) }
{
    let one = graph.package(number);
    if !has_faults(table, &one.path) {
        return Ok(());
    }
    add_package(left, one)?;
    Ok(())
}

/// What the part of a workspace leaves out: the packages with faults.
pub fn left_out<'a>(
    alloc: Global,
    graph: &'a Graph,
    table: &ExportTable,
) -> Result<LeftOut<'a>, AllocError>
    ensures { IfOk result (λ left. IsLeftOut graph.now (verdicts_by table.now) (names left.folders.items) (names left.paths.items)) }
{
    let mut left = LeftOut {
        folders: Vec::new(alloc),
        paths: Vec::new(alloc),
    };
    for number in 0..graph.len() {
        add_if_faulty(&mut left, graph, number, table)?;
    }
    Ok(left)
}
