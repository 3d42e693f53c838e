//! Reads lists of edits and of files, edit sets and changes.
ghost use Rattle.std.specs.Prelude.{◌≡◌, ◌∷◌, ℕ, IfErr, IfOk};
ghost use Rattle.history_records.specs.Encoded.{
  AreChangedFiles,
  AreCounted,
  FailsToDecode,
  IsAddedFile,
  AreBytesOf,
  IsEdit,
  IsFileChange,
  IsKeptSet,
  IsNoChange,
  IsNumber,
  StartsWith,
  added_bytes,
  edit_bytes,
  edit_set_bytes,
  file_change_bytes,
  list_bytes,
  number_bytes,
};

use crate::change::{ChangeFault, KeptChange};
use crate::decoding::{read_added, read_edit, read_fate, read_number, read_path};
use crate::edit_sets::is_edit_set;
use base_edits::{Edit, EditSet, Edits, FileChange};
use base_files::{FileText, Path};
use std::alloc::Global;

/// Reads the edits of a file. Returns them with the bytes behind them.
fn read_edits(alloc: Global, bytes: &[u8]) -> Result<(Vec<Edit>, &[u8]), ChangeFault>
    ensures ok { IfOk result (λ found. StartsWith (list_bytes edit_bytes) (AreCounted IsEdit) bytes.now found.0.items found.1.now) }
    ensures err { IfErr result (FailsToDecode (list_bytes edit_bytes) (AreCounted IsEdit) bytes.now) }
{
    let (count, behind) = read_number(bytes)?;
    let mut left = behind;
    let mut edits = Vec::new(alloc);
    for _number in 0..count {
        let (edit, rest) = read_edit(alloc, left)?;
        edits.push(edit)?;
        left = rest;
    }
    Ok((edits, left))
}

/// Reads the change of a file. Returns it with the bytes behind it.
fn read_file_change(alloc: Global, bytes: &[u8]) -> Result<(FileChange, &[u8]), ChangeFault>
    ensures ok { IfOk result (λ found. StartsWith file_change_bytes IsFileChange bytes.now found.0 found.1.now) }
    ensures err { IfErr result (FailsToDecode file_change_bytes IsFileChange bytes.now) }
{
    let (path, behind) = read_path(alloc, bytes)?;
    let (fate, after) = read_fate(alloc, behind)?;
    let (edits, rest) = read_edits(alloc, after)?;
    let edits = Edits::new(edits);
    Ok((FileChange { path, edits, fate }, rest))
}

/// Reads the changes of files. Returns them with the bytes behind them.
fn read_changed(alloc: Global, bytes: &[u8]) -> Result<(Vec<FileChange>, &[u8]), ChangeFault>
    ensures ok { IfOk result (λ found. StartsWith (list_bytes file_change_bytes) (AreCounted IsFileChange) bytes.now found.0.items found.1.now) }
    ensures err { IfErr result (FailsToDecode (list_bytes file_change_bytes) (AreCounted IsFileChange) bytes.now) }
{
    let (count, behind) = read_number(bytes)?;
    let mut left = behind;
    let mut changed = Vec::new(alloc);
    for _number in 0..count {
        let (change, rest) = read_file_change(alloc, left)?;
        changed.push(change)?;
        left = rest;
    }
    Ok((changed, left))
}

/// Reads files that are added. Returns them with the bytes behind them.
fn read_files(alloc: Global, bytes: &[u8]) -> Result<(Vec<(Path, FileText)>, &[u8]), ChangeFault>
    ensures ok { IfOk result (λ found. StartsWith (list_bytes added_bytes) (AreCounted IsAddedFile) bytes.now found.0.items found.1.now) }
    ensures err { IfErr result (FailsToDecode (list_bytes added_bytes) (AreCounted IsAddedFile) bytes.now) }
{
    let (count, behind) = read_number(bytes)?;
    let mut left = behind;
    let mut added = Vec::new(alloc);
    for _number in 0..count {
        let (file, rest) = read_added(alloc, left)?;
        added.push(file)?;
        left = rest;
    }
    Ok((added, left))
}

/// The files that an edit set changes and adds.
#[derive(Drop)]
struct ChangedFiles {
    changed: Vec<FileChange>,
    added: Vec<(Path, FileText)>,
}

/// Reads the files that an edit set changes and adds. Returns them with the bytes behind them.
fn read_changed_files(alloc: Global, bytes: &[u8]) -> Result<(ChangedFiles, &[u8]), ChangeFault>
    ensures ok { IfOk result (λ found. StartsWith edit_set_bytes AreChangedFiles bytes.now
        (record { changed = found.0.changed.items; added = found.0.added.items }) found.1.now) }
    ensures err { IfErr result (FailsToDecode edit_set_bytes AreChangedFiles bytes.now) }
{
    let (changed, behind) = read_changed(alloc, bytes)?;
    let (added, rest) = read_files(alloc, behind)?;
    Ok((ChangedFiles { changed, added }, rest))
}

/// Reads an edit set. Returns it with the bytes behind it.
fn read_edit_set(alloc: Global, bytes: &[u8]) -> Result<(EditSet, &[u8]), ChangeFault>
    ensures ok { IfOk result (λ found. StartsWith edit_set_bytes IsKeptSet bytes.now found.0 found.1.now) }
    ensures err { IfErr result (FailsToDecode edit_set_bytes IsKeptSet bytes.now) }
{
    let (files, rest) = read_changed_files(alloc, bytes)?;
    let ChangedFiles { changed, added } = files;
    if is_edit_set(alloc, &changed, &added)? {
        Ok((EditSet::new(changed, added), rest))
    } else {
        Err(ChangeFault::NoChange)
    }
}

/// Reads a commit behind its kind.
fn read_commit(alloc: Global, bytes: &[u8]) -> Result<KeptChange, ChangeFault>
    ensures ok { IfOk result (AreBytesOf (1 ∷ bytes.now)) }
    ensures err { IfErr result (IsNoChange (1 ∷ bytes.now)) }
{
    let (basis, behind) = read_number(bytes)?;
    let (edits, rest) = read_edit_set(alloc, behind)?;
    if rest.is_empty() {
        Ok(KeptChange::Commit(basis, edits))
    } else {
        Err(ChangeFault::NoChange)
    }
}

/// Reads the basis of an undo or a redo, behind which nothing stands.
fn read_basis(bytes: &[u8]) -> Result<u64, ChangeFault>
    ensures ok { IfOk result (λ basis. IsNumber basis × (bytes.now ≡ number_bytes basis)) }
    ensures err { IfErr result (λ fault. (fault ≡ ChangeFault.NoChange) × ((basis : ℕ) → IsNumber basis → bytes.now ≡ number_bytes basis → ⊥)) }
{
    let (basis, rest) = read_number(bytes)?;
    if rest.is_empty() {
        Ok(basis)
    } else {
        Err(ChangeFault::NoChange)
    }
}

/// Reads the change whose bytes these are.
pub fn read_change(alloc: Global, bytes: &[u8]) -> Result<KeptChange, ChangeFault>
    ensures ok { IfOk result (AreBytesOf bytes.now) }
    ensures err { IfErr result (IsNoChange bytes.now) }
{
    let Some((kind, rest)) = bytes.split_first() else {
        return Err(ChangeFault::NoChange);
    };
    match *kind {
        1 => read_commit(alloc, rest),
        2 => Ok(KeptChange::Undo(read_basis(rest)?)),
        3 => Ok(KeptChange::Redo(read_basis(rest)?)),
        _ => Err(ChangeFault::NoChange),
    }
}
