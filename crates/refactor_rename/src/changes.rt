//! The changes of a rename: one for each file in which something gets another name.
ghost use Rattle.std.specs.Prelude.{ℕ, ◌≡◌, ◌↔◌, Some, List, Contains, map, slice_get, IfOk, OnOk, MatchOption};
ghost use Rattle.std.specs.List.Sorted.{IsStrictlySortedBy};
ghost use Rattle.base_files.specs.Packages.{package_paths};
ghost use Rattle.base_files.specs.Workspace.{path_cmp};
ghost use Rattle.go_ast.specs.SourceFile.{SourceFile, FileParts, source_of};
ghost use Rattle.refs_binding.specs.Places.{place_cmp};
ghost use Rattle.refs_binding.specs.Workspaces.{known_in};
ghost use Rattle.refactor_rename.specs.RenameEdits.{IsSourceIn};
ghost use Rattle.refactor_rename.specs.Changes.{IsPathToEdit, AddsChange, AreSourceChanges};

use crate::file_edits::edits_near;
use crate::paths::paths_of;
use crate::renamed::Renamed;
use base_edits::{Edits, Fate, FileChange};
use base_files::Path;
use go_ast::FileTree;
use refs_binding::{FaultlessWorkspace, path_of, trees};
use std::alloc::{AllocError, Global};

/// The tree of the file at a path, if it is among these files, which are sorted by path.
fn tree_in<'a>(files: &'a [FileTree], path: &Path) -> Option<&'a FileTree>
    requires { IsStrictlySortedBy path_cmp (map (λ t. t.path) files.now) }
    ensures { MatchOption result ((t : FileParts) → Contains files.now t → t.path ≡ path.now → ⊥) (λ file. Contains files.now file.now × (file.now.path ≡ path.now)) }
{
    match files.binary_search_by(|file| file.path().cmp(path)) {
        Ok(place) => Some(&files[place]),
        Err(_) => None,
    }
}

/// Where the search for the next file starts: at this package, and at this file of it.
#[derive(Drop)]
struct SearchStart {
    package: usize,
    place: usize,
}

/// The number of the package at a path. The package `near` is tried first.
fn number_near(workspace: &FaultlessWorkspace<'_>, near: usize, path: &[u8]) -> Option<usize>
    ensures { MatchOption result (Contains (package_paths workspace.now.graph) path.now → ⊥) (λ number. slice_get (package_paths workspace.now.graph) number ≡ Some path.now) }
{
    if near < workspace.len() && path_of(workspace, near).path() == path {
        return Some(near);
    }
    workspace.number_of(path)
}

/// The tree of the file at a path, if it is a Go file of the workspace.
fn tree_of<'a>(
    workspace: &FaultlessWorkspace<'a>,
    at: &mut SearchStart,
    path: &Path,
) -> Option<&'a FileTree>
    ensures { MatchOption result ((f : SourceFile) → IsSourceIn workspace.now.graph (known_in workspace.now.findings) f → f.path ≡ path.now → ⊥)
        (λ file. IsSourceIn workspace.now.graph (known_in workspace.now.findings) (source_of file.now) × (file.now.path ≡ path.now)) }
{
    workspace.has_no_faults();
    match number_near(workspace, at.package, path.folder()) {
        None => None,
        Some(number) => {
            at.package = number;
            tree_in(trees(workspace, number), path)
        }
    }
}

/// Appends the change of a file, if something gets another name in it.
fn add_change(
    alloc: Global,
    changed: &mut Vec<FileChange>,
    file: &FileTree,
    renamed: &Renamed,
    at: &mut SearchStart,
) -> Result<(), AllocError>
    requires { IsStrictlySortedBy place_cmp renamed.now.places }
    ensures { OnOk result (AddsChange (source_of file.now) renamed.now changed.old.items changed.new.items) }
{
    let edits = edits_near(alloc, file, renamed, &mut at.place)?;
    if !edits.is_empty() {
        changed.push(FileChange {
            path: file.path().clone()?,
            edits: Edits::new(edits),
            fate: Fate::Stays,
        })?;
    }
    Ok(())
}

/// The changes of the files at these paths, which are sorted and are just those of the files in which something gets another name.
fn changes_in(
    alloc: Global,
    workspace: &FaultlessWorkspace<'_>,
    paths: &[Path],
    renamed: &Renamed,
) -> Result<Vec<FileChange>, AllocError>
    requires sorted { IsStrictlySortedBy place_cmp renamed.now.places }
    requires order { IsStrictlySortedBy path_cmp paths.now }
    requires each { (q : List ℕ) → Contains paths.now q ↔ IsPathToEdit renamed.now q }
    ensures { IfOk result (λ changed. AreSourceChanges workspace.now.graph (known_in workspace.now.findings) renamed.now changed.items) }
{
    let mut changed = Vec::with_capacity(alloc, paths.len())?;
    let mut at = SearchStart {
        package: 0,
        place: 0,
    };
    for path in paths {
        if let Some(file) = tree_of(workspace, &mut at, path) {
            add_change(alloc, &mut changed, file, renamed, &mut at)?;
        }
    }
    Ok(changed)
}

/// The changes of all files in which something gets another name, sorted by path.
pub(crate) fn changes_of(
    alloc: Global,
    workspace: &FaultlessWorkspace<'_>,
    renamed: &Renamed,
) -> Result<Vec<FileChange>, AllocError>
    requires { IsStrictlySortedBy place_cmp renamed.now.places }
    ensures { IfOk result (λ changed. AreSourceChanges workspace.now.graph (known_in workspace.now.findings) renamed.now changed.items) }
{
    let paths = paths_of(alloc, renamed)?;
    changes_in(alloc, workspace, paths.as_slice(), renamed)
}
