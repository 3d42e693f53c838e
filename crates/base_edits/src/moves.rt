//! Where an edit set moves places, and the new names of identifiers.
ghost use Rattle.std.specs.Prelude.{◌≡◌, ◌+◌, ◌-◌, ◌<◌, ◌≤◌, ◌↔◌, ◌^◌, List, length, None, Some, find, slice_get, unwrap_or, IfOk, IsTrue, MatchOption, OkIff};
ghost use Rattle.base_edits.specs.EditSet.{change_of};
ghost use Rattle.base_edits.specs.Edits.{AreInOrder};
ghost use Rattle.base_edits.specs.Fits.{path_after};
ghost use Rattle.base_edits.specs.Moved.{moved, moved_offset, edits_by};
ghost use Rattle.base_edits.specs.declared.edit.Edit.{Edit as Edited};
ghost use Rattle.base_edits.specs.Ends.{AreEnds, AreEndsOf, IsLastEnd, IsChangeOf};
ghost use Rattle.base_edits.specs.FilesMoved.{AreMovesOf, new_path_by};
ghost use Rattle.base_edits.specs.RevisionsOfEdits.{new_name_at, replaces_at, text_or};

use crate::{Edit, EditSet, Fate, FileChange};
use base_files::{Path, Place};
use std::alloc::{AllocError, Global};
use std::marker::Model;

/// The end of an edit: its byte offset in the old text and in the new text.
#[derive(Clone, Copy)]
struct End {
    old: usize,
    new: usize,
}

/// An edit set with the table of the ends of its edits, so that a place is moved by a binary search.
#[derive(Drop)]
pub struct Moves<'a> {
    edits: &'a EditSet,
    ends: Vec<Vec<End>>,
}

impl<'a> Model for Moves<'a> {
    ghost use Rattle.std.specs.Prelude.{length};
    ghost use Rattle.base_edits.specs.EditSet.{FileChanges};
    ghost use Rattle.base_edits.specs.Ends.{AreEndsOf};

    ghost Value = { FileChanges };

    ghost view = { λ a. a.edits.now };

    ghost invariant = { λ a. AreEndsOf a.edits.now.changed (length a.edits.now.changed) a.ends.items };
}

/// How the places of one file move: to which path, and the ends of the file's edits, if it is changed.
#[derive(Clone, Copy)]
pub struct FileMoves<'a> {
    pub old: &'a Path,
    pub new: &'a Path,
    ends: Option<&'a [End]>,
}

/// The path of a file after its change. A dropped file keeps its path here.
fn new_path<'a>(change: &'a FileChange, path: &'a Path) -> &'a Path
    ensures { result.now ≡ new_path_by change.now path.now }
{
    match &change.fate {
        Fate::Moves(new) => new,
        Fate::Stays | Fate::Dropped => path,
    }
}

/// The sum of two lengths of texts, or `AllocError` exactly where it is over 64 bits: no memory holds so many bytes.
fn sum(one: usize, other: usize) -> Result<usize, AllocError>
    ensures { OkIff result (one + other < 2 ^ 64) (one + other) }
{
    one.checked_add(other).ok_or(AllocError)
}

/// The end of an edit, computed from the end of the edit before it.
fn next_end(end: End, edit: &Edit) -> Result<End, AllocError>
    requires { end.old ≤ edit.now.span.start }
    ensures { IfOk result (λ next. next ≡ record { old = edit.now.span.end; new = end.new + ((edit.now.span.start - end.old) + length edit.now.text) }) }
{
    let added = sum(edit.span.start - end.old, edit.text.len())?;
    let new = sum(end.new, added)?;
    Ok(End {
        old: edit.span.end,
        new,
    })
}

/// Offset 0 of both texts, followed by the end of each edit of a file.
fn ends_of(alloc: Global, edits: &[Edit]) -> Result<Vec<End>, AllocError>
    requires { AreInOrder 0 edits.now }
    ensures { IfOk result (λ ends. AreEnds edits.now ends.items) }
{
    let mut ends = Vec::new(alloc);
    let mut end = End { old: 0, new: 0 };
    ends.push(end)?;
    for edit in edits {
        end = next_end(end, edit)?;
        ends.push(end)?;
    }
    Ok(ends)
}

/// The ends of the edits of each changed file, in the order of the changes.
fn all_ends(alloc: Global, edits: &EditSet) -> Result<Vec<Vec<End>>, AllocError>
    ensures { IfOk result (λ ends. AreEndsOf edits.now.changed (length edits.now.changed) ends.items) }
{
    let changed = edits.changed();
    let mut ends = Vec::new(alloc);
    for change in changed {
        ends.push(ends_of(alloc, change.edits.as_slice())?)?;
    }
    Ok(ends)
}

/// The number of the last end at or before an old offset, found by binary search.
fn last_end(ends: &[End], offset: usize) -> usize
    requires some { 0 < length ends.now }
    requires first { (end : End) → slice_get ends.now 0 ≡ Some end → end.old ≡ 0 }
    ensures { IsLastEnd ends.now offset result }
{
    let mut low = 0;
    let mut high = ends.len();
    while 1 < high - low {
        let middle = low + (high - low) / 2;
        if ends[middle].old <= offset {
            low = middle;
        } else {
            high = middle;
        }
    }
    low
}

/// The new offset of an old one, by the last end at or before it.
fn moved_by(end: End, offset: usize) -> Result<usize, AllocError>
    requires { end.old ≤ offset }
    ensures { OkIff result (end.new + (offset - end.old) < 2 ^ 64) (end.new + (offset - end.old)) }
{
    sum(end.new, offset - end.old)
}

/// The new offset of an old one, by the ends of the edits of its file.
fn moved_past(ends: &[End], offset: usize) -> Result<usize, AllocError>
    requires some { 0 < length ends.now }
    requires first { (end : End) → slice_get ends.now 0 ≡ Some end → end.old ≡ 0 }
    ensures { (edits : List Edited) → AreEnds edits ends.now → OkIff result (moved_offset edits offset < 2 ^ 64) (moved_offset edits offset) }
{
    let number = last_end(ends, offset);
    moved_by(ends[number], offset)
}

/// The new bytes of the edit of that number if it begins at `offset`, and otherwise `name`. `number` counts the edits that end at or before
/// the offset.
fn text_at<'a>(edits: &'a [Edit], number: usize, offset: usize, name: &'a [u8]) -> &'a [u8]
    ensures { (ends : List End) → AreInOrder 0 edits.now → AreEnds edits.now ends → IsLastEnd ends offset number → result.now ≡ text_or name.now (find (replaces_at offset) edits.now) }
{
    match edits.get(number) {
        None => name,
        Some(edit) => {
            if edit.span.start == offset {
                edit.text.bytes()
            } else {
                name
            }
        }
    }
}

impl<'a> Moves<'a> {
    /// Computes the table of ends of an edit set.
    pub fn of(alloc: Global, edits: &'a EditSet) -> Result<Moves<'a>, AllocError>
        ensures { IfOk result (λ moves. moves ≡ edits.now) }
    {
        let ends = all_ends(alloc, edits)?;
        Ok(Moves { edits, ends })
    }

    /// The number of the change of the file at a path, if it is changed.
    fn number_of(&self, path: &Path) -> Option<usize>
        ensures { MatchOption result (change_of self.now path.now ≡ None) (IsChangeOf self.now path.now) }
    {
        let changed = self.edits.changed();
        match changed.binary_search_by(|change| change.path.cmp(path)) {
            Ok(number) => Some(number),
            Err(_) => None,
        }
    }

    /// How the places of the file at a path move.
    pub fn file<'b>(&'b self, path: &'b Path) -> FileMoves<'b>
        ensures old { result.old.now ≡ path.now }
        ensures moves { AreMovesOf self.now result }
    {
        match self.number_of(path) {
            None => FileMoves {
                old: path,
                new: path,
                ends: None,
            },
            Some(number) => FileMoves {
                old: path,
                new: new_path(&self.edits.changed()[number], path),
                ends: Some(&self.ends[number]),
            },
        }
    }

    /// How the places of the file at a path move. Returns `near` without a search where it is of this file, as in a row of queries it often
    /// is.
    pub fn file_near<'b>(&'b self, near: FileMoves<'b>, path: &'b Path) -> FileMoves<'b>
        requires { AreMovesOf self.now near }
        ensures old { result.old.now ≡ path.now }
        ensures moves { AreMovesOf self.now result }
    {
        if *near.old == *path {
            near
        } else {
            self.file(path)
        }
    }

    /// The path after the edit set of the file at `path` before it. A dropped file keeps its path.
    pub fn path<'b>(&'b self, path: &'b Path) -> &'b Path
        ensures { result.now ≡ unwrap_or (path_after self.now path.now) path.now }
    {
        self.file(path).new
    }

    /// The byte offset after the edit set of an offset of a file before it. It fails exactly where that is over 64 bits.
    pub fn offset(&self, file: FileMoves<'_>, offset: usize) -> Result<usize, AllocError>
        requires { AreMovesOf self.now file }
        ensures { OkIff result (moved_offset (edits_by (change_of self.now file.entry.old.now)) offset < 2 ^ 64) (moved_offset (edits_by (change_of self.now file.entry.old.now)) offset) }
    {
        match file.ends {
            None => Ok(offset),
            Some(ends) => moved_past(ends, offset),
        }
    }

    /// The place after the edit set of a place before it.
    pub fn place(&self, path: &Path, offset: usize) -> Result<Place, AllocError>
        ensures { IfOk result (λ place. place ≡ moved self.now (record { path = path.now; offset = offset })) }
    {
        let file = self.file(path);
        Ok(Place {
            path: file.new.clone()?,
            offset: self.offset(file, offset)?,
        })
    }

    /// Whether an offset of a file moves to the place `path:to`.
    pub fn goes_to(
        &self,
        file: FileMoves<'_>,
        offset: usize,
        path: &Path,
        to: usize,
    ) -> Result<bool, AllocError>
        requires { AreMovesOf self.now file }
        ensures { IfOk result (λ yes. IsTrue yes ↔ (moved self.now (record { path = file.entry.old.now; offset = offset }) ≡ record { path = path.now; offset = to })) }
    {
        let new = self.offset(file, offset)?;
        Ok(new == to && *file.new == *path)
    }

    /// The name after the edit set of the identifier at `path:offset`, whose name before it is `name`.
    pub fn called<'b>(&'b self, path: &Path, offset: usize, name: &'b [u8]) -> &'b [u8]
        ensures { result.now ≡ new_name_at self.now (record { path = path.now; offset = offset }) name.now }
    {
        match self.number_of(path) {
            None => name,
            Some(number) => {
                let edits = self.edits.changed()[number].edits.as_slice();
                let last = last_end(&self.ends[number], offset);
                text_at(edits, last, offset, name)
            }
        }
    }
}
