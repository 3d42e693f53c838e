//! Changes of files, packed into three lists.
ghost use Rattle.std.specs.Prelude.{◌≡◌, ◌↔◌, IfOk, IsTrue};
ghost use Rattle.std.specs.List.{All};
ghost use Rattle.base_edits.specs.Edits.{AreInOrder};

use crate::comparing::{all_same, same_edits};
use crate::packing::{Packing, pack};
use base_edits::{Fate, FileChange};
use base_files::{FileText, Path};
use std::alloc::{AllocError, Global};
use std::marker::Model;

/// What an edit does at its offset: how many bytes it replaces, and by which text.
#[derive(Drop)]
pub struct EditKind {
    pub(crate) size: u32,
    pub(crate) text: FileText,
}

/// An edit: where it begins, and the number of its kind.
#[derive(Clone, Copy)]
pub struct PackedEdit {
    pub(crate) start: u32,
    pub(crate) kind: u32,
}

/// The change of one file: its path before, what becomes of it, and how many edits the file has.
#[derive(Drop)]
pub struct PackedFile {
    pub(crate) path: Path,
    pub(crate) fate: Fate,
    pub(crate) count: usize,
}

/// The changes of files in little room. The edits of all files lie in one list, and edits of one kind share it. Its value in contracts is
/// the list of the changes.
pub struct PackedChanges {
    files: Vec<PackedFile>,
    edits: Vec<PackedEdit>,
    kinds: Vec<EditKind>,
}

/// Written out so that crates above need not prove again how each part is dropped.
impl Drop for PackedChanges {
    fn drop(self) {
        let PackedChanges {
            files,
            edits,
            kinds,
        } = self;
        drop(files);
        drop(edits);
        drop(kinds);
    }
}

impl Model for PackedChanges {
    ghost use Rattle.std.specs.Prelude.{List};
    ghost use Rattle.base_edits.specs.declared.change.FileChange.{FileChange};
    ghost use Rattle.base_packed.specs.Packed.{ArePacked, packed_changes};

    ghost Value = { List FileChange };

    ghost view = { λ a. packed_changes a.kinds.items a.files.items a.edits.items };

    ghost invariant = { λ a. ArePacked a.kinds.items a.files.items a.edits.items };
}

impl PackedChanges {
    /// Packs changes. An offset of 2^32 or more does not fit, nor do so many replaced bytes or kinds: this counts as want of memory.
    pub fn new(alloc: Global, changed: &[FileChange]) -> Result<PackedChanges, AllocError>
        requires { All (λ c. AreInOrder 0 c.edits) changed.now }
        ensures { IfOk result (λ packed. packed ≡ changed.now) }
    {
        let Packing {
            files,
            edits,
            kinds,
        } = pack(alloc, changed)?;
        Ok(PackedChanges {
            files,
            edits,
            kinds,
        })
    }

    /// Whether both are the same changes. Their texts are compared byte by byte.
    pub fn same(&self, other: &PackedChanges) -> bool
        ensures { IsTrue result ↔ (self.now ≡ other.now) }
    {
        if !all_same(&self.files, &other.files) {
            return false;
        }
        same_edits(&self.kinds, &self.edits, &other.kinds, &other.edits)
    }
}
