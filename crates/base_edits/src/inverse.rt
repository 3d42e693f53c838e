//! The inverse of an edit set, by which it is undone.
ghost use Rattle.std.specs.Prelude.{◌≡◌, IfOk, IfErr, OnOk, OnErr};
ghost use Rattle.base_edits.specs.EditSet.{edited};
ghost use Rattle.base_edits.specs.Fits.{Fits};
ghost use Rattle.base_edits.specs.Inverse.{AreChanges, IsInverse};
ghost use Rattle.base_edits.specs.Prepared.{IsPrepared};

use crate::change::FileChange;
use crate::prepared::{Prepared, prepare_changes};
use crate::way_back::WayBack;
use base_files::{FileText, Files, Path};
use std::alloc::AllocError;
use std::marker::Model;
use std::mem;

/// The changes that lead back to the files before an edit set: edits that restore the old bytes, and the dropped files. A value cannot be
/// dropped: it ends in `undo` or in `retire`.
#[must_use]
pub struct Inverse {
    changed: Vec<FileChange>,
    added: Vec<(Path, FileText)>,
}

impl Model for Inverse {
    ghost use Rattle.base_edits.specs.EditSet.{FileChanges};
    ghost use Rattle.base_edits.specs.Inverse.{AreChanges};

    ghost Value = { FileChanges };

    ghost view = { λ a. record { changed = a.changed.items; added = a.added.items } };

    ghost invariant = { λ a. AreChanges (record { changed = a.changed.items; added = a.added.items }) };
}

impl Inverse {
    /// The inverse that consists of these changes and added files.
    pub(crate) fn new(changed: Vec<FileChange>, added: Vec<(Path, FileText)>) -> Inverse
        requires { AreChanges (record { changed = changed.items; added = added.items }) }
        ensures { result ≡ record { changed = changed.items; added = added.items } }
    {
        Inverse { changed, added }
    }

    /// The changes of files.
    pub fn changed(&self) -> &[FileChange]
        ensures changed { result.now ≡ self.now.changed }
        ensures changes { AreChanges self.now }
    {
        self.changed.as_slice()
    }

    /// The files that are added again, as pairs of path and text.
    pub fn added(&self) -> &[(Path, FileText)]
        ensures { result.now ≡ self.now.added }
    {
        self.added.as_slice()
    }

    /// Makes the files to which the inverse leads from these files, with the inverse of that. Nothing changes.
    pub fn prepare(&self, files: &Files) -> Result<Prepared, AllocError>
        requires { Fits self.now files.now }
        ensures { IfOk result (IsPrepared self.now files.now) }
    {
        prepare_changes(*self.changed.allocator(), files, &self.changed, &self.added)
    }

    /// The same changes as plain data. It takes no memory.
    pub fn set_aside(self) -> WayBack
        ensures { result ≡ self }
    {
        let Inverse { changed, added } = self;
        WayBack::new(changed, added)
    }

    /// Restores the files before the edit set, and returns the inverse of that. For want of memory nothing changes, and `Err` returns
    /// `self`.
    pub fn undo(self, files: &mut Files) -> Result<Inverse, (Inverse, AllocError)>
        requires { Fits self files.old }
        ensures done { OnOk result (files.new ≡ edited self files.old) }
        ensures redo { IfOk result (λ redo. IsInverse redo files.new files.old) }
        ensures back { IfErr result (λ e. e.0 ≡ self) }
        ensures err { OnErr result (files.new ≡ files.old) }
    {
        match prepare_changes(*self.changed.allocator(), files, &self.changed, &self.added) {
            Ok(
                Prepared {
                    files: made,
                    inverse,
                },
            ) => {
                drop(mem::replace(files, made));
                self.retire();
                Ok(inverse)
            }
            Err(refused) => Err((self, refused)),
        }
    }

    /// Gives the inverse up. No files change.
    pub fn retire(self) {
        let Inverse { changed, added } = self;
        drop(changed);
        drop(added);
    }
}
