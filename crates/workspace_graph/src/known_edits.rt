//! Trees of files whose edits are known, made of the trees before the change. No texts are compared.
ghost use Rattle.std.specs.Prelude.{◌≡◌, ◌≤◌, IfOk, IfSome, IsTrue};
ghost use Rattle.std.specs.List.{All, Contains};
ghost use Rattle.std.specs.List.Sorted.{IsStrictlySortedBy};
ghost use Rattle.base_files.specs.Workspace.{path_cmp};
ghost use Rattle.base_edits.specs.Fits.{is_staying};
ghost use Rattle.workspace_graph.specs.Graphs.{paths_of};
ghost use Rattle.workspace_graph.specs.KnownEdits.{EditsMakeOf, IsTreeAmong, IsTreeOfPath};

use crate::shared_package::{SharedPackage, number_of};
use base_edits::{Fate, FileChange};
use base_files::{Files, Path};
use go_ast::FileTree;
use go_respelled::respelled_by;
use std::alloc::{AllocError, Global};

/// The packages before a change, single files that it changes by known edits, and all files after it.
#[derive(Clone, Copy)]
pub(crate) struct KnownEdits<'a> {
    pub(crate) before: &'a [SharedPackage],
    pub(crate) changed: &'a [FileChange],
    pub(crate) files: &'a Files,
}

/// Whether a change is of the file at a path.
fn changes_path(change: &FileChange, path: &Path) -> bool
    ensures { IsTrue result → change.now.path ≡ path.now }
{
    change.path == *path
}

/// Whether a change leaves its file at its path.
fn keeps_its_path(change: &FileChange) -> bool
    ensures { result ≡ is_staying change.now.fate }
{
    matches!(change.fate, Fate::Stays)
}

/// The change, where it is of the file at a path and leaves it there.
fn staying_at<'a>(change: &'a FileChange, path: &Path) -> Option<&'a FileChange>
    ensures { IfSome result (λ same. (same.now ≡ change.now) × (same.now.path ≡ path.now) × IsTrue (is_staying same.now.fate)) }
{
    if !changes_path(change, path) {
        return None;
    }
    if keeps_its_path(change) {
        Some(change)
    } else {
        None
    }
}

/// The change of a number, where it is of the file at a path and leaves it there.
fn staying_change<'a>(
    changed: &'a [FileChange],
    number: usize,
    path: &Path,
) -> Option<&'a FileChange>
    ensures { IfSome result (λ change. Contains changed.now change.now × (change.now.path ≡ path.now) × IsTrue (is_staying change.now.fate)) }
{
    match changed.get(number) {
        Some(change) => staying_at(change, path),
        None => None,
    }
}

/// The number of the next change, where the one of this number is of the file at a path. Otherwise the number itself.
pub(crate) fn behind_path(changed: &[FileChange], number: usize, path: &Path) -> usize
    ensures { number ≤ result }
{
    if number < changed.len() && changes_path(&changed[number], path) {
        number + 1
    } else {
        number
    }
}

/// The tree that one of the packages has at a path.
fn tree_of_path<'a>(packages: &'a [SharedPackage], path: &Path) -> Option<&'a FileTree>
    requires { IsStrictlySortedBy path_cmp (paths_of packages.now) }
    ensures { IfSome result (λ tree. IsTreeAmong packages.now path.now tree.now) }
{
    match number_of(packages, path.folder()) {
        Some(number) => packages[number].tree_at_path(path),
        None => None,
    }
}

/// The tree of the file at a path after the change, made by the edits of the change of a number. `None` where that is no such change of
/// this file, or an edit replaces anything but a name or an interpreted string.
pub(crate) fn tree_by_edits(
    alloc: Global,
    known: KnownEdits<'_>,
    number: usize,
    path: &Path,
) -> Result<Option<FileTree>, AllocError>
    requires sorted { IsStrictlySortedBy path_cmp (paths_of known.before.now) }
    requires edits { All (EditsMakeOf known.before.now known.files.now) known.changed.now }
    ensures { IfOk result (λ made. IfSome made (IsTreeOfPath known.entry.files.now path.now)) }
{
    let Some(change) = staying_change(known.changed, number, path) else {
        return Ok(None);
    };
    let Some(like) = tree_of_path(known.before, path) else {
        return Ok(None);
    };
    let Some(text) = known.files.get(path) else {
        return Ok(None);
    };
    let made = respelled_by(alloc, path, text, like, change.edits.as_slice())?;
    Ok(made)
}
