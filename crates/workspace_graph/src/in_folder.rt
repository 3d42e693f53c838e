//! The trees and the faulty files of a package, in the order of their paths, of which single ones are set.
ghost use Rattle.std.specs.Prelude.{◌≡◌, IfOk, IfSome, IsTrue, OnOk, Some, slice_get, MatchResult};
ghost use Rattle.std.specs.List.{Contains};
ghost use Rattle.std.specs.List.Sorted.{IsStrictlySortedBy};
ghost use Rattle.base_files.specs.Workspace.{path_cmp};
ghost use Rattle.workspace_graph.specs.Drafts.{WasTaken};
ghost use Rattle.workspace_graph.specs.InFolder.{fault_path, fault_paths, tree_path, tree_paths};
ghost use Rattle.workspace_graph.specs.Updated.{IsPlace, SetsIn, Removes};

use crate::faulty_file::FaultyFile;
use base_files::Path;
use go_ast::FileTree;
use std::alloc::AllocError;

/// The index of the tree at a path, or as `Err` the index at which it would be inserted.
fn tree_place(trees: &[FileTree], path: &Path) -> Result<usize, usize>
    requires { IsStrictlySortedBy path_cmp (tree_paths trees.now) }
    ensures { MatchResult result (λ number. slice_get (tree_paths trees.now) number ≡ Some path.now) (λ place. IsPlace (tree_paths trees.now) path.now place) }
{
    trees.binary_search_by(|tree| tree.path().cmp(path))
}

/// The index of the faulty file at a path, or as `Err` the index at which it would be inserted.
fn fault_place(faulty: &[FaultyFile], path: &Path) -> Result<usize, usize>
    requires { IsStrictlySortedBy path_cmp (fault_paths faulty.now) }
    ensures { MatchResult result (λ number. slice_get (fault_paths faulty.now) number ≡ Some path.now) (λ place. IsPlace (fault_paths faulty.now) path.now place) }
{
    faulty.binary_search_by(|file| file.path().cmp(path))
}

/// The tree at a path, if there is one.
pub(crate) fn tree_at<'a>(trees: &'a [FileTree], path: &Path) -> Option<&'a FileTree>
    requires { IsStrictlySortedBy path_cmp (tree_paths trees.now) }
    ensures { IfSome result (λ tree. Contains trees.now tree.now × (tree.now.path ≡ path.now)) }
{
    match tree_place(trees, path) {
        Ok(number) => Some(&trees[number]),
        Err(_) => None,
    }
}

/// The faulty file at a path, if there is one.
pub(crate) fn fault_at<'a>(faulty: &'a [FaultyFile], path: &Path) -> Option<&'a FaultyFile>
    requires { IsStrictlySortedBy path_cmp (fault_paths faulty.now) }
    ensures { IfSome result (λ file. Contains faulty.now file.now × (file.now.path ≡ path.now)) }
{
    match fault_place(faulty, path) {
        Ok(number) => Some(&faulty[number]),
        Err(_) => None,
    }
}

/// The tree that was removed at a path, if there was one, and the index at which a tree at that path would be inserted.
#[derive(Drop)]
pub(crate) struct TakenTree {
    pub(crate) tree: Option<FileTree>,
    pub(crate) place: usize,
}

/// Removes the tree at a path, if there is one.
pub(crate) fn take_tree(trees: &mut Vec<FileTree>, path: &Path) -> TakenTree
    requires { IsStrictlySortedBy path_cmp (tree_paths trees.old.items) }
    ensures out { Removes tree_path path.now trees.old.items trees.new.items result.place }
    ensures gone { WasTaken path.now trees.old.items result.tree }
{
    match tree_place(trees, path) {
        Ok(place) => TakenTree {
            tree: Some(trees.remove(place)),
            place,
        },
        Err(place) => TakenTree { tree: None, place },
    }
}

/// Removes the faulty file at a path, if there is one. Returns the index at which one would be inserted.
pub(crate) fn take_fault(faulty: &mut Vec<FaultyFile>, path: &Path) -> usize
    requires { IsStrictlySortedBy path_cmp (fault_paths faulty.old.items) }
    ensures { Removes fault_path path.now faulty.old.items faulty.new.items result }
{
    match fault_place(faulty, path) {
        Ok(number) => {
            let _ = faulty.remove(number);
            number
        }
        Err(place) => place,
    }
}

/// Sets the tree at its path. Returns the tree that it replaces, if there is one.
pub(crate) fn put_tree(
    trees: &mut Vec<FileTree>,
    tree: FileTree,
) -> Result<Option<FileTree>, AllocError>
    requires { IsStrictlySortedBy path_cmp (tree_paths trees.old.items) }
    ensures put { IfOk result (λ _. SetsIn tree_path tree trees.old.items trees.new.items) }
    ensures gone { IfOk result (WasTaken tree.path trees.old.items) }
{
    let taken = take_tree(trees, tree.path());
    trees.insert(taken.place, tree)?;
    Ok(taken.tree)
}

/// Sets the faulty file at its path.
pub(crate) fn put_fault(faulty: &mut Vec<FaultyFile>, file: FaultyFile) -> Result<(), AllocError>
    requires { IsStrictlySortedBy path_cmp (fault_paths faulty.old.items) }
    ensures { OnOk result (SetsIn fault_path file faulty.old.items faulty.new.items) }
{
    let place = take_fault(faulty, file.path());
    faulty.insert(place, file)?;
    Ok(())
}
