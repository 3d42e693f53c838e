//! Whether changes of files, and files that are added, are an edit set.
ghost use Rattle.std.specs.Prelude.{◌≡◌, ◌==◌, ◌↔◌, ◌++◌, IfOk, IsTrue, OnOk, option_to_list};
ghost use Rattle.std.specs.Cmp.Lexicographic.{pointwise};
ghost use Rattle.std.specs.List.{All, IsDistinct, list_any};
ghost use Rattle.std.specs.List.Sorted.{IsStrictlySortedBy};
ghost use Rattle.std.specs.declared.cmp.Ordering.TheVariants.{Less};
ghost use Rattle.base_edits.specs.Edits.{AreInOrder};
ghost use Rattle.base_edits.specs.EditSet.{paths_of};
ghost use Rattle.base_edits.specs.Fits.{IsEditSet, new_path, targets};
ghost use Rattle.base_files.specs.Workspace.{path_cmp};

use base_edits::{Edit, Fate, FileChange};
use base_files::{FileText, Path};
use std::alloc::{AllocError, Global};
use std::cmp::Ordering;

/// Whether the spans of edits are in order.
fn are_in_order(edits: &[Edit]) -> bool
    ensures { IsTrue result ↔ AreInOrder 0 edits.now }
{
    let mut at = 0;
    for edit in edits {
        if edit.span.start < at || edit.span.end < edit.span.start {
            return false;
        }
        at = edit.span.end;
    }
    true
}

/// Whether the edits of each file are in order.
fn are_all_in_order(changed: &[FileChange]) -> bool
    ensures { IsTrue result ↔ All (λ c. AreInOrder 0 c.edits) changed.now }
{
    changed
        .iter()
        .all(|change| are_in_order(change.edits.as_slice()))
}

/// Whether one path comes before another.
fn is_before(one: &Path, other: &Path) -> bool
    ensures { IsTrue result ↔ (path_cmp one.now other.now ≡ Less) }
{
    matches!(one.cmp(other), Ordering::Less)
}

/// Whether the changes are sorted by the paths of their files, and no path comes twice.
fn are_by_path(changed: &[FileChange]) -> bool
    ensures { IsTrue result ↔ IsStrictlySortedBy path_cmp (paths_of changed.now) }
{
    for i in 1..changed.len() {
        if !is_before(&changed[i - 1].path, &changed[i].path) {
            return false;
        }
    }
    true
}

/// Adds the path to which a file is moved, if it is.
fn add_new_path(paths: &mut Vec<Path>, change: &FileChange) -> Result<(), AllocError>
    ensures { OnOk result (paths.new.items ≡ paths.old.items ++ option_to_list (new_path change.now.fate)) }
{
    if let Fate::Moves(path) = &change.fate {
        paths.push(path.clone()?)?;
    }
    Ok(())
}

/// The paths to which files are moved, and those of the files that are added. They are shared.
fn new_paths(
    alloc: Global,
    changed: &[FileChange],
    added: &[(Path, FileText)],
) -> Result<Vec<Path>, AllocError>
    ensures { IfOk result (λ paths. paths.items ≡ targets (record { changed = changed.now; added = added.now })) }
{
    let mut paths = Vec::new(alloc);
    for change in changed {
        add_new_path(&mut paths, change)?;
    }
    for file in added {
        paths.push(file.0.clone()?)?;
    }
    Ok(paths)
}

/// Whether a path is one of others.
fn is_among(path: &Path, others: &[Path]) -> bool
    ensures { result ≡ list_any (pointwise ◌==◌ path.now) others.now }
{
    for other in others {
        if *path == *other {
            return true;
        }
    }
    false
}

/// Whether no path comes twice.
fn are_distinct(paths: &[Path]) -> bool
    ensures { IsTrue result ↔ IsDistinct (pointwise ◌==◌) paths.now }
{
    for i in 0..paths.len() {
        if is_among(&paths[i], &paths[i + 1..]) {
            return false;
        }
    }
    true
}

/// Whether the changes and the added files are an edit set.
pub(crate) fn is_edit_set(
    alloc: Global,
    changed: &[FileChange],
    added: &[(Path, FileText)],
) -> Result<bool, AllocError>
    ensures { IfOk result (λ is. IsTrue is ↔ IsEditSet (record { changed = changed.now; added = added.now })) }
{
    if !are_all_in_order(changed) || !are_by_path(changed) {
        return Ok(false);
    }
    let paths = new_paths(alloc, changed, added)?;
    Ok(are_distinct(paths.as_slice()))
}
