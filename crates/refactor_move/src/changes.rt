//! The changes of a move, file by file.
ghost use Rattle.std.specs.Prelude.{◌≡◌, ◌++◌, IfOk, OnOk};
ghost use Rattle.std.specs.Option.{option_to_list};
ghost use Rattle.std.specs.FinMap as map;
ghost use Rattle.refactor_move.specs.Steps.{edits_found, FindsChange, FindsChanges, edited_or_none, change_by};

use crate::moved::Moved;
use crate::paths::new_path;
use base_edits::{Edit, Edits, Fate, FileChange};
use base_files::{Files, Path, Refusal};
use std::alloc::{AllocError, Global};
use std::collections::BTreeMap;

/// A copy of the edits, whose texts are shared.
fn copy(alloc: Global, edits: &[Edit]) -> Result<Edits, AllocError>
    ensures { IfOk result (λ copy. copy ≡ edits.now) }
{
    let mut copies = Vec::with_capacity(alloc, edits.len())?;
    for edit in edits {
        copies.push(Edit {
            span: edit.span,
            text: edit.text.clone()?,
        })?;
    }
    Ok(Edits::new(copies))
}

/// The change of a file.
fn change(alloc: Global, path: &Path, edits: &[Edit], fate: Fate) -> Result<FileChange, AllocError>
    ensures { IfOk result (λ change. change ≡ record { path = path.now; edits = edits.now; fate = fate }) }
{
    Ok(FileChange {
        path: path.clone()?,
        edits: copy(alloc, edits)?,
        fate,
    })
}

/// The change of a file that stays at its path, if it has edits.
fn edited(alloc: Global, path: &Path, edits: &[Edit]) -> Result<Option<FileChange>, AllocError>
    ensures { IfOk result (λ change. change ≡ edited_or_none path.now edits.now) }
{
    if edits.is_empty() {
        Ok(None)
    } else {
        Ok(Some(change(alloc, path, edits, Fate::Stays)?))
    }
}

/// The change of a file with these edits and this new path, if it has one of them.
fn change_to(
    alloc: Global,
    path: &Path,
    edits: &[Edit],
    new: Option<Path>,
) -> Result<Option<FileChange>, AllocError>
    ensures { IfOk result (λ change. change ≡ change_by path.now edits.now new) }
{
    match new {
        None => edited(alloc, path, edits),
        Some(new) => Ok(Some(change(alloc, path, edits, Fate::Moves(new))?)),
    }
}

/// The change of a file with these edits, if it moves or has edits. Refused where its new path would be too long.
fn change_of(
    alloc: Global,
    moved: &Moved,
    path: &Path,
    edits: &[Edit],
) -> Result<Option<FileChange>, Refusal>
    ensures { FindsChange moved.now path.now edits.now result }
{
    match new_path(alloc, moved, path) {
        Err(refusal) => Err(refusal),
        Ok(new) => Ok(change_to(alloc, path, edits, new)?),
    }
}

/// The edits of the file at a path. A file that is no Go file has none.
fn edits_at<'a>(edits: &'a BTreeMap<Path, Edits>, path: &Path) -> &'a [Edit]
    ensures { result.now ≡ edits_found edits.now path.now }
{
    if !path.is_go() {
        return &[];
    }
    match edits.get(path) {
        None => &[],
        Some(edits) => edits.as_slice(),
    }
}

/// Appends a change, if there is one.
fn push_some(changed: &mut Vec<FileChange>, change: Option<FileChange>) -> Result<(), AllocError>
    ensures { OnOk result (changed.new.items ≡ changed.old.items ++ option_to_list change) }
{
    match change {
        None => Ok(()),
        Some(change) => {
            changed.push(change)?;
            Ok(())
        }
    }
}

/// The changes of the files that move or have edits, sorted by path. Refused where a new path would be too long.
pub(crate) fn changes(
    alloc: Global,
    files: &Files,
    edits: &BTreeMap<Path, Edits>,
    moved: &Moved,
) -> Result<Vec<FileChange>, Refusal>
    ensures { FindsChanges moved.now edits.now (map.entries files.now) result }
{
    let mut changed = Vec::new(alloc);
    for (path, _) in files.iter() {
        match change_of(alloc, moved, path, edits_at(edits, path)) {
            Err(refusal) => return Err(refusal),
            Ok(change) => push_some(&mut changed, change)?,
        }
    }
    Ok(changed)
}
