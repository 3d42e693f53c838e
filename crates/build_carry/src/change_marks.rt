//! Marks the packages that a change affects, by the Go files at the paths that its edit set names.
ghost use Rattle.std.specs.Prelude.{◌≡◌, ◌↔◌, Contains, IfOk, IsTrue, OnOk};
ghost use Rattle.workspace_graph.specs.Borrows.{names};
ghost use Rattle.workspace_graph.specs.SameGoFiles.{DiffersOnlyAt};
ghost use Rattle.build_carry.specs.Changes.{AreChanged, MarkChanges};
ghost use Rattle.build_carry.specs.Named.{AddsFolder, KeepsFile};

use crate::{Marks, closure_marks, has_text};
use base_files::Path;
use std::alloc::{AllocError, Global};
use workspace_graph::Graph;
use workspace_snapshot::MadeChange;

/// Whether the Go file at `path` has the same text before and after a change, or is in neither workspace. For the path of any other file it
/// is true.
fn keeps_file(before: &Graph, after: &Graph, path: &Path) -> bool
    ensures { IsTrue result ↔ KeepsFile before.now after.now path.now }
{
    if !path.is_go() {
        return true;
    }
    match before.files().get(path) {
        Some(text) => has_text(after.files(), path, text),
        None => after.files().get(path).is_none(),
    }
}

/// Whether `folder` is the last of these folders.
fn is_last(folders: &[&[u8]], folder: &[u8]) -> bool
    ensures { IsTrue result → Contains (names folders.now) folder.now }
{
    match folders.last() {
        None => false,
        Some(last) => *last == folder,
    }
}

/// Adds a folder, unless it is the last one already.
fn add_folder<'a>(folders: &mut Vec<&'a [u8]>, folder: &'a [u8]) -> Result<(), AllocError>
    ensures { OnOk result (AddsFolder folder.now (names folders.old.items) (names folders.new.items)) }
{
    if !is_last(folders.as_slice(), folder) {
        folders.push(folder)?;
    }
    Ok(())
}

/// The folders whose Go files differ before and after a change. It compares only the files at `paths`.
fn changed_among<'a>(
    alloc: Global,
    before: &Graph,
    after: &Graph,
    paths: &[&'a Path],
) -> Result<Vec<&'a [u8]>, AllocError>
    requires { DiffersOnlyAt (names paths.now) before.now after.now }
    ensures { IfOk result (λ changed. AreChanged before.now after.now (names changed.items)) }
{
    let mut changed = Vec::new(alloc);
    for path in paths {
        if !keeps_file(before, after, path) {
            add_folder(&mut changed, path.folder())?;
        }
    }
    Ok(changed)
}

/// Marks the packages in whose closures files differ between two workspaces, by the folders of the packages that differ.
pub fn marks_by(
    alloc: Global,
    before: &Graph,
    after: &Graph,
    changed: &[&[u8]],
) -> Result<Marks, AllocError>
    requires { AreChanged before.now after.now (names changed.now) }
    ensures before { IfOk result (λ marks. MarkChanges before.now after.now marks.before.items) }
    ensures after { IfOk result (λ marks. MarkChanges after.now before.now marks.after.items) }
{
    Ok(Marks {
        before: closure_marks(alloc, before, changed)?,
        after: closure_marks(alloc, after, changed)?,
    })
}

/// Marks the packages in whose closures files differ before and after a change. It compares only the files at `paths`.
fn marks_among(
    alloc: Global,
    before: &Graph,
    after: &Graph,
    paths: &[&Path],
) -> Result<Marks, AllocError>
    requires { DiffersOnlyAt (names paths.now) before.now after.now }
    ensures before { IfOk result (λ marks. MarkChanges before.now after.now marks.before.items) }
    ensures after { IfOk result (λ marks. MarkChanges after.now before.now marks.after.items) }
{
    let changed = changed_among(alloc, before, after, paths)?;
    marks_by(alloc, before, after, &changed)
}

/// Marks the packages in whose closures a change changes files, in its base and after it. It compares only the files that the edit set
/// names.
pub fn marks_of(alloc: Global, base: &Graph, change: &MadeChange) -> Result<Marks, AllocError>
    requires { change.now.base ≡ base.now }
    ensures before { IfOk result (λ marks. MarkChanges base.now change.now.files marks.before.items) }
    ensures after { IfOk result (λ marks. MarkChanges change.now.files base.now marks.after.items) }
{
    let paths = change.paths(alloc)?;
    marks_among(alloc, base, &change.get().files, &paths)
}
