//! Makes the bytes of changes.
ghost use Rattle.std.specs.Prelude.{◌≡◌, ◌++◌, ◌∷◌, [], IfOk, OnOk};
ghost use Rattle.std.specs.List.{AllByRecursion, flat_map};
ghost use Rattle.history_records.specs.Encoded.{
  AreCounted,
  IsAddedFile,
  IsEdit,
  IsFate,
  IsFileChange,
  IsKeptChange,
  IsKeptSet,
  IsPathText,
  IsSpan,
  IsText,
  added_bytes,
  change_bytes,
  edit_bytes,
  edit_set_bytes,
  fate_bytes,
  file_change_bytes,
  list_bytes,
  number_bytes,
  span_bytes,
  text_bytes,
};
ghost use Rattle.history_records.specs.Asked.{kept_of};
ghost use Rattle.history_records.specs.declared.change.KeptChange.TheVariants.{Commit};

use crate::change::AskedChange;
use base_edits::{Edit, EditSet, Fate, FileChange};
use base_files::{FileText, Path, Span};
use std::alloc::{AllocError, Global};

/// Adds a number.
fn add_number(made: &mut Vec<u8>, number: u64) -> Result<(), AllocError>
    ensures { OnOk result (made.new.items ≡ made.old.items ++ number_bytes number) }
{
    made.extend_from_slice(&number.to_le_bytes())
}

/// Adds a text, behind the count of its bytes.
fn add_text(made: &mut Vec<u8>, text: &[u8]) -> Result<(), AllocError>
    ensures bytes { OnOk result (made.new.items ≡ made.old.items ++ text_bytes text.now) }
    ensures kept { OnOk result (IsText text.now) }
{
    add_number(made, text.len() as u64)?;
    made.extend_from_slice(text)
}

/// Adds a path.
fn add_path(made: &mut Vec<u8>, path: &Path) -> Result<(), AllocError>
    ensures bytes { OnOk result (made.new.items ≡ made.old.items ++ text_bytes path.now) }
    ensures kept { OnOk result (IsPathText path.now) }
{
    add_text(made, path.as_str().as_bytes())
}

/// Adds what becomes of a file's path.
fn add_fate(made: &mut Vec<u8>, fate: &Fate) -> Result<(), AllocError>
    ensures bytes { OnOk result (made.new.items ≡ made.old.items ++ fate_bytes fate.now) }
    ensures kept { OnOk result (IsFate fate.now) }
{
    match fate {
        Fate::Stays => made.extend_from_slice(&[0]),
        Fate::Moves(path) => {
            made.extend_from_slice(&[1])?;
            add_path(made, path)
        }
        Fate::Dropped => made.extend_from_slice(&[2]),
    }
}

/// Adds a span.
fn add_span(made: &mut Vec<u8>, span: &Span) -> Result<(), AllocError>
    ensures bytes { OnOk result (made.new.items ≡ made.old.items ++ span_bytes span.now) }
    ensures kept { OnOk result (IsSpan span.now) }
{
    add_number(made, span.start as u64)?;
    add_number(made, span.end as u64)
}

/// Adds an edit.
fn add_edit(made: &mut Vec<u8>, edit: &Edit) -> Result<(), AllocError>
    ensures bytes { OnOk result (made.new.items ≡ made.old.items ++ edit_bytes edit.now) }
    ensures kept { OnOk result (IsEdit edit.now) }
{
    add_span(made, &edit.span)?;
    add_text(made, edit.text.bytes())
}

/// Adds edits, one behind the other.
fn add_each_edit(made: &mut Vec<u8>, edits: &[Edit]) -> Result<(), AllocError>
    ensures bytes { OnOk result (made.new.items ≡ made.old.items ++ flat_map edit_bytes edits.now) }
    ensures kept { OnOk result (AllByRecursion IsEdit edits.now) }
{
    for edit in edits {
        add_edit(made, edit)?;
    }
    Ok(())
}

/// Adds the edits of a file, behind their count.
fn add_edits(made: &mut Vec<u8>, edits: &[Edit]) -> Result<(), AllocError>
    ensures bytes { OnOk result (made.new.items ≡ made.old.items ++ list_bytes edit_bytes edits.now) }
    ensures kept { OnOk result (AreCounted IsEdit edits.now) }
{
    add_number(made, edits.len() as u64)?;
    add_each_edit(made, edits)
}

/// Adds the change of a file.
fn add_file_change(made: &mut Vec<u8>, change: &FileChange) -> Result<(), AllocError>
    ensures bytes { OnOk result (made.new.items ≡ made.old.items ++ file_change_bytes change.now) }
    ensures kept { OnOk result (IsFileChange change.now) }
{
    add_path(made, &change.path)?;
    add_fate(made, &change.fate)?;
    add_edits(made, change.edits.as_slice())
}

/// Adds the changes of files, one behind the other.
fn add_each_change(made: &mut Vec<u8>, changed: &[FileChange]) -> Result<(), AllocError>
    ensures bytes { OnOk result (made.new.items ≡ made.old.items ++ flat_map file_change_bytes changed.now) }
    ensures kept { OnOk result (AllByRecursion IsFileChange changed.now) }
{
    for change in changed {
        add_file_change(made, change)?;
    }
    Ok(())
}

/// Adds the changes of files, behind their count.
fn add_changed(made: &mut Vec<u8>, changed: &[FileChange]) -> Result<(), AllocError>
    ensures bytes { OnOk result (made.new.items ≡ made.old.items ++ list_bytes file_change_bytes changed.now) }
    ensures kept { OnOk result (AreCounted IsFileChange changed.now) }
{
    add_number(made, changed.len() as u64)?;
    add_each_change(made, changed)
}

/// Adds a file that a change adds.
fn add_file(made: &mut Vec<u8>, file: &(Path, FileText)) -> Result<(), AllocError>
    ensures bytes { OnOk result (made.new.items ≡ made.old.items ++ added_bytes file.now) }
    ensures kept { OnOk result (IsAddedFile file.now) }
{
    add_path(made, &file.0)?;
    add_text(made, file.1.bytes())
}

/// Adds files that a change adds, one behind the other.
fn add_each_file(made: &mut Vec<u8>, added: &[(Path, FileText)]) -> Result<(), AllocError>
    ensures bytes { OnOk result (made.new.items ≡ made.old.items ++ flat_map added_bytes added.now) }
    ensures kept { OnOk result (AllByRecursion IsAddedFile added.now) }
{
    for file in added {
        add_file(made, file)?;
    }
    Ok(())
}

/// Adds files that a change adds, behind their count.
fn add_added(made: &mut Vec<u8>, added: &[(Path, FileText)]) -> Result<(), AllocError>
    ensures bytes { OnOk result (made.new.items ≡ made.old.items ++ list_bytes added_bytes added.now) }
    ensures kept { OnOk result (AreCounted IsAddedFile added.now) }
{
    add_number(made, added.len() as u64)?;
    add_each_file(made, added)
}

/// Adds an edit set.
fn add_edit_set(made: &mut Vec<u8>, set: &EditSet) -> Result<(), AllocError>
    ensures bytes { OnOk result (made.new.items ≡ made.old.items ++ edit_set_bytes set.now) }
    ensures kept { OnOk result (IsKeptSet set.now) }
{
    add_changed(made, set.changed())?;
    add_added(made, set.added())
}

/// Bytes that begin with the kind of a change, and its basis.
fn kind_and_basis(alloc: Global, kind: u8, basis: u64) -> Result<Vec<u8>, AllocError>
    ensures { IfOk result (λ made. made.items ≡ kind ∷ number_bytes basis) }
{
    let mut made = Vec::new(alloc);
    made.extend_from_slice(&[kind])?;
    add_number(&mut made, basis)?;
    Ok(made)
}

/// The bytes of a commit.
fn commit_bytes(alloc: Global, basis: u64, edits: &EditSet) -> Result<Vec<u8>, AllocError>
    ensures bytes { IfOk result (λ made. made.items ≡ change_bytes (Commit basis edits.now)) }
    ensures kept { IfOk result (λ _. IsKeptChange (Commit basis edits.now)) }
{
    let mut made = kind_and_basis(alloc, 1, basis)?;
    add_edit_set(&mut made, edits)?;
    Ok(made)
}

impl<'a> AskedChange<'a> {
    /// The bytes of the change.
    pub fn bytes(&self, alloc: Global) -> Result<Vec<u8>, AllocError>
        ensures bytes { IfOk result (λ made. made.items ≡ change_bytes (kept_of self.now)) }
        ensures kept { IfOk result (λ _. IsKeptChange (kept_of self.now)) }
    {
        match self {
            AskedChange::Commit(basis, edits) => commit_bytes(alloc, *basis, edits),
            AskedChange::Undo(basis) => kind_and_basis(alloc, 2, *basis),
            AskedChange::Redo(basis) => kind_and_basis(alloc, 3, *basis),
        }
    }
}
