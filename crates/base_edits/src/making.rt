//! Makes the new files of an edit set, together with its inverse.
ghost use Rattle.std.specs.Prelude.{◌≡◌, [], ◌∷◌, ◌++◌, length, map, IfOk, OnOk};
ghost use Rattle.std.specs.List.{All, cons_option, filter_map};
ghost use Rattle.std.specs.FinMap as workspace;
ghost use Rattle.base_edits.specs.Edits.{AreInOrder, LieWithin, edited_text};
ghost use Rattle.base_edits.specs.EditSet.{file_by};
ghost use Rattle.base_edits.specs.Fits.{HasSpans};
ghost use Rattle.base_edits.specs.Inverse.{reversed, undo_by, drop_by, undo_of, drop_of, dropped, inverse};
ghost use Rattle.base_edits.specs.Made.{without_file, without_files, with_files, file_made, made};

use crate::change::{Fate, FileChange};
use crate::edit::{Edit, Edits};
use crate::new_text::new_text;
use crate::reversing::reversed_edits;
use base_files::{FileText, Files, Path};
use std::alloc::{AllocError, Global};

/// The new files made so far, the changes that lead back from them, and the files that were dropped.
#[derive(Drop)]
pub(crate) struct Making {
    pub(crate) files: Files,
    pub(crate) back: Vec<FileChange>,
    pub(crate) lost: Vec<(Path, FileText)>,
}

/// Removes the file of a change, unless it stays at its path.
fn take_one(files: &mut Files, change: &FileChange) -> Result<(), AllocError>
    ensures { OnOk result (files.new ≡ without_file change.now.fate change.now.path files.old) }
{
    match &change.fate {
        Fate::Stays => Ok(()),
        Fate::Moves(_) => files.remove(&change.path),
        Fate::Dropped => files.remove(&change.path),
    }
}

/// Removes the files of the changes that do not stay at their paths. The others are replaced where they stand.
fn take_out(files: &mut Files, changed: &[FileChange]) -> Result<(), AllocError>
    ensures { OnOk result (files.new ≡ without_files changed.now files.old) }
{
    for change in changed {
        take_one(files, change)?;
    }
    Ok(())
}

/// Inserts the added files.
fn put_added(files: &mut Files, added: &[(Path, FileText)]) -> Result<(), AllocError>
    ensures { OnOk result (files.new ≡ with_files added.now files.old) }
{
    for (path, text) in added {
        files.insert(path.clone()?, text.clone()?)?;
    }
    Ok(())
}

/// Adds to the inverse a change for each added file, which drops it again.
fn drop_added(back: &mut Vec<FileChange>, added: &[(Path, FileText)]) -> Result<(), AllocError>
    ensures { OnOk result (back.new.items ≡ back.old.items ++ map dropped added.now) }
{
    for (path, _) in added {
        let edits = Edits::new(Vec::new(*back.allocator()));
        back.push(FileChange {
            path: path.clone()?,
            edits,
            fate: Fate::Dropped,
        })?;
    }
    Ok(())
}

/// The last edit of the last change, if there is one.
fn last_edit(changed: &[FileChange]) -> Option<&Edit> {
    match changed.last() {
        Some(change) => change.edits.as_slice().last(),
        None => None,
    }
}

/// Inserts the edited text of a change at the path `to`. Adds to the inverse the change that restores the old text, with the fate `fate`.
fn put_edited(
    alloc: Global,
    making: &mut Making,
    text: &FileText,
    change: &FileChange,
    to: &Path,
    fate: Fate,
) -> Result<(), AllocError>
    requires order { AreInOrder 0 change.now.edits }
    requires within { LieWithin (length text.now) change.now.edits }
    ensures files { OnOk result (making.new.files ≡ workspace.insert making.old.files to.now (edited_text change.now.edits text.now)) }
    ensures back { OnOk result (making.new.back.items ≡ making.old.back.items ++ (record { path = to.now; edits = reversed change.now.edits text.now; fate = fate }) ∷ []) }
    ensures lost { OnOk result (making.new.lost.items ≡ making.old.lost.items) }
{
    let edits = change.edits.as_slice();
    let new = new_text(alloc, text, edits)?;
    let edits = reversed_edits(alloc, text, edits, &new, last_edit(&making.back))?;
    making.files.insert(to.clone()?, new)?;
    making.back.push(FileChange {
        path: to.clone()?,
        edits,
        fate,
    })?;
    Ok(())
}

/// Makes the new file of one change, and what takes the change back. A dropped file goes to `lost`.
fn make_change(
    alloc: Global,
    making: &mut Making,
    text: &FileText,
    change: &FileChange,
) -> Result<(), AllocError>
    requires order { AreInOrder 0 change.now.edits }
    requires within { LieWithin (length text.now) change.now.edits }
    ensures files { OnOk result (making.new.files ≡ with_files (cons_option (file_by (Some change.now) (change.now.path, text.now)) []) making.old.files) }
    ensures back { OnOk result (making.new.back.items ≡ making.old.back.items ++ cons_option (undo_by change.now.fate change.now.path (reversed change.now.edits text.now)) []) }
    ensures lost { OnOk result (making.new.lost.items ≡ making.old.lost.items ++ cons_option (drop_by change.now.fate (change.now.path, text.now)) []) }
{
    let path = &change.path;
    match &change.fate {
        Fate::Stays => put_edited(alloc, making, text, change, path, Fate::Stays),
        Fate::Moves(to) => {
            let from = Fate::Moves(path.clone()?);
            put_edited(alloc, making, text, change, to, from)
        }
        Fate::Dropped => {
            making.lost.push((path.clone()?, text.clone()?))?;
            Ok(())
        }
    }
}

/// Makes the new files of all changes, as `make_change` does for one.
fn make_changes(
    alloc: Global,
    making: &mut Making,
    files: &Files,
    changed: &[FileChange],
) -> Result<(), AllocError>
    requires order { All (λ c. AreInOrder 0 c.edits) changed.now }
    requires there { All (HasSpans files.now) changed.now }
    ensures files { OnOk result (making.new.files ≡ with_files (filter_map (file_made files.now) changed.now) making.old.files) }
    ensures back { OnOk result (making.new.back.items ≡ making.old.back.items ++ filter_map (undo_of files.now) changed.now) }
    ensures lost { OnOk result (making.new.lost.items ≡ making.old.lost.items ++ filter_map (drop_of files.now) changed.now) }
{
    for change in changed {
        if let Some(text) = files.get(&change.path) {
            make_change(alloc, making, text, change)?;
        }
    }
    Ok(())
}

/// Makes the new files, and all that takes the changes back. A file without a change shares its text.
pub(crate) fn made(
    alloc: Global,
    files: &Files,
    changed: &[FileChange],
    added: &[(Path, FileText)],
) -> Result<Making, AllocError>
    requires order { All (λ c. AreInOrder 0 c.edits) changed.now }
    requires there { All (HasSpans files.now) changed.now }
    ensures files { IfOk result (λ making. making.files ≡ made (record { changed = changed.now; added = added.now }) files.now) }
    ensures back { IfOk result (λ making. making.back.items ≡ (inverse (record { changed = changed.now; added = added.now }) files.now).changed) }
    ensures lost { IfOk result (λ making. making.lost.items ≡ (inverse (record { changed = changed.now; added = added.now }) files.now).added) }
{
    let mut making = Making {
        files: files.copy()?,
        back: Vec::new(alloc),
        lost: Vec::new(alloc),
    };
    take_out(&mut making.files, changed)?;
    make_changes(alloc, &mut making, files, changed)?;
    put_added(&mut making.files, added)?;
    drop_added(&mut making.back, added)?;
    Ok(making)
}
