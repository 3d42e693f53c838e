//! Edit sets in little room.
ghost use Rattle.std.specs.Prelude.{◌≡◌, ◌↔◌, IfOk, IsTrue};
ghost use Rattle.std.specs.List.{All};
ghost use Rattle.base_edits.specs.Edits.{AreInOrder};

use crate::comparing::all_same;
use crate::packed::PackedChanges;
use base_edits::{EditSet, FileChange};
use base_files::{FileText, Path};
use std::alloc::{AllocError, Global};
use std::marker::Model;

/// Changes of files, packed, and files that are added. A journal keeps edit sets so.
pub struct PackedSet {
    changed: PackedChanges,
    added: Vec<(Path, FileText)>,
}

/// Written out so that crates above need not prove again how each part is dropped.
impl Drop for PackedSet {
    fn drop(self) {
        let PackedSet { changed, added } = self;
        drop(changed);
        drop(added);
    }
}

impl Model for PackedSet {
    ghost use Rattle.base_edits.specs.EditSet.{FileChanges};

    ghost Value = { FileChanges };

    ghost view = { λ a. record { changed = a.changed; added = a.added.items } };
}

/// A copy of a file. It shares the path and the text.
fn copied_file(file: &(Path, FileText)) -> Result<(Path, FileText), AllocError>
    ensures { IfOk result (λ copy. copy ≡ file.now) }
{
    let path = file.0.clone()?;
    let text = file.1.clone()?;
    Ok((path, text))
}

/// Copies of files. They share the paths and the texts.
fn copied_files(
    alloc: Global,
    files: &[(Path, FileText)],
) -> Result<Vec<(Path, FileText)>, AllocError>
    ensures { IfOk result (λ copies. copies.items ≡ files.now) }
{
    let mut copies = Vec::with_capacity(alloc, files.len())?;
    for file in files {
        copies.push(copied_file(file)?)?;
    }
    Ok(copies)
}

/// Packs changes, and copies the files that are added.
fn pack_parts(
    alloc: Global,
    changed: &[FileChange],
    added: &[(Path, FileText)],
) -> Result<PackedSet, AllocError>
    requires { All (λ c. AreInOrder 0 c.edits) changed.now }
    ensures { IfOk result (λ packed. packed ≡ record { changed = changed.now; added = added.now }) }
{
    let changed = PackedChanges::new(alloc, changed)?;
    let added = copied_files(alloc, added)?;
    Ok(PackedSet { changed, added })
}

impl PackedSet {
    /// Packs an edit set.
    pub fn new(alloc: Global, set: &EditSet) -> Result<PackedSet, AllocError>
        ensures { IfOk result (λ packed. packed ≡ set.now) }
    {
        pack_parts(alloc, set.changed(), set.added())
    }

    /// Whether both are the same edit set. Their texts are compared byte by byte.
    pub fn same(&self, other: &PackedSet) -> bool
        ensures { IsTrue result ↔ (self.now ≡ other.now) }
    {
        self.changed.same(&other.changed) && all_same(&self.added, &other.added)
    }
}
