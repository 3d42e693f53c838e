//! Collects the paths of the files that an edit set names.
ghost use Rattle.std.specs.Prelude.{◌≡◌, IfOk, OnOk};
ghost use Rattle.workspace_graph.specs.Borrows.{names};
ghost use Rattle.workspace_snapshot.specs.Named.{AddsEachPath, HasAll, NamesPath, IsPathOfAdded, IsPathOfChange, IsPathOfChanges};

use base_edits::{Fate, FileChange};
use base_files::{FileText, Path};
use std::alloc::{AllocError, Global};

/// Adds a path.
fn add_path<'a>(paths: &mut Vec<&'a Path>, path: &'a Path) -> Result<(), AllocError>
    ensures { OnOk result (AddsEachPath (λ p. path.now ≡ p) (names paths.old.items) (names paths.new.items)) }
{
    paths.push(path)?;
    Ok(())
}

/// Adds the path of a changed file, and the path to which it moves, if it does.
fn add_change<'a>(paths: &mut Vec<&'a Path>, change: &'a FileChange) -> Result<(), AllocError>
    ensures { OnOk result (AddsEachPath (IsPathOfChange change.now) (names paths.old.items) (names paths.new.items)) }
{
    add_path(paths, &change.path)?;
    match &change.fate {
        Fate::Moves(path) => add_path(paths, path),
        Fate::Stays => Ok(()),
        Fate::Dropped => Ok(()),
    }
}

/// Adds the paths of all changes, as `add_change` does for one.
fn add_changes<'a>(paths: &mut Vec<&'a Path>, changes: &'a [FileChange]) -> Result<(), AllocError>
    ensures { OnOk result (AddsEachPath (IsPathOfChanges changes.now) (names paths.old.items) (names paths.new.items)) }
{
    for change in changes {
        add_change(paths, change)?;
    }
    Ok(())
}

/// Adds the paths of the added files.
fn add_added<'a>(paths: &mut Vec<&'a Path>, added: &'a [(Path, FileText)]) -> Result<(), AllocError>
    ensures { OnOk result (AddsEachPath (IsPathOfAdded added.now) (names paths.old.items) (names paths.new.items)) }
{
    for file in added {
        add_path(paths, &file.0)?;
    }
    Ok(())
}

/// The paths of all files that changes and added files name, some perhaps several times.
pub(crate) fn named_paths<'a>(
    alloc: Global,
    changed: &'a [FileChange],
    added: &'a [(Path, FileText)],
) -> Result<Vec<&'a Path>, AllocError>
    ensures { IfOk result (λ paths. HasAll (NamesPath (record { changed = changed.now; added = added.now })) (names paths.items)) }
{
    let mut paths = Vec::new(alloc);
    add_changes(&mut paths, changed)?;
    add_added(&mut paths, added)?;
    Ok(paths)
}
