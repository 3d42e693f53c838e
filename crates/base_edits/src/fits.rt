//! Whether changes fit the files of a workspace.
ghost use Rattle.std.specs.Prelude.{◌≡◌, ◌↔◌, IsTrue, IfSome};
ghost use Rattle.std.specs.Option.{option_copied};
ghost use Rattle.std.specs.List.{All};
ghost use Rattle.std.specs.List.Sorted.{IsStrictlySortedBy};
ghost use Rattle.base_files.specs.Workspace.{path_cmp};
ghost use Rattle.base_edits.specs.Edits.{LieWithin};
ghost use Rattle.base_edits.specs.EditSet.{change_in, paths_of};
ghost use Rattle.base_edits.specs.Fits.{HasSpans, Remains, AreFree, new_path};

use crate::change::{Fate, FileChange};
use crate::edit::Edit;
use base_files::{FileText, Files, Path};

/// Whether all spans end within a text of `size` bytes.
fn lie_within(edits: &[Edit], size: usize) -> bool
    ensures { IsTrue result ↔ LieWithin size edits.now }
{
    edits.iter().all(|edit| edit.span.end <= size)
}

/// Whether the file of a change exists and contains the spans of its edits.
fn is_there(change: &FileChange, files: &Files) -> bool
    ensures { IsTrue result ↔ HasSpans files.now change.now }
{
    match files.get(&change.path) {
        Some(text) => lie_within(change.edits.as_slice(), text.len()),
        None => false,
    }
}

/// Whether all changed files exist and contain the spans of their edits.
pub(crate) fn are_there(changed: &[FileChange], files: &Files) -> bool
    ensures { IsTrue result ↔ All (HasSpans files.now) changed.now }
{
    changed.iter().all(|change| is_there(change, files))
}

/// The change of the file at the path, found by binary search.
fn change_at<'a>(changed: &'a [FileChange], path: &Path) -> Option<&'a FileChange>
    requires { IsStrictlySortedBy path_cmp (paths_of changed.now) }
    ensures { option_copied result ≡ change_in changed.now path.now }
{
    match changed.binary_search_by(|change| change.path.cmp(path)) {
        Ok(place) => Some(&changed[place]),
        Err(_) => None,
    }
}

/// Whether there is a file at the path, which the changes leave at this path.
fn is_kept(changed: &[FileChange], files: &Files, path: &Path) -> bool
    requires { IsStrictlySortedBy path_cmp (paths_of changed.now) }
    ensures { IsTrue result ↔ Remains changed.now files.now path.now }
{
    if files.get(path).is_none() {
        return false;
    }
    match change_at(changed, path) {
        None => true,
        Some(change) => matches!(&change.fate, Fate::Stays),
    }
}

/// Whether a change moves its file to no path at which a file stays.
fn has_free_target(changed: &[FileChange], files: &Files, change: &FileChange) -> bool
    requires { IsStrictlySortedBy path_cmp (paths_of changed.now) }
    ensures { IsTrue result ↔ IfSome (new_path change.now.fate) (λ path. ¬ (Remains changed.now files.now path)) }
{
    match &change.fate {
        Fate::Moves(path) => !is_kept(changed, files, path),
        _ => true,
    }
}

/// Whether no file stays at a path to which a file is moved or at which one is added.
pub(crate) fn are_free(changed: &[FileChange], added: &[(Path, FileText)], files: &Files) -> bool
    requires { IsStrictlySortedBy path_cmp (paths_of changed.now) }
    ensures { IsTrue result ↔ AreFree (record { changed = changed.now; added = added.now }) files.now }
{
    changed
        .iter()
        .all(|change| has_free_target(changed, files, change))
        && added.iter().all(|file| !is_kept(changed, files, &file.0))
}
