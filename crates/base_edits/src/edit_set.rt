//! Edit sets: changes of several files.
ghost use Rattle.std.specs.Prelude.{◌≡◌, ◌↔◌, IsTrue};
ghost use Rattle.base_edits.specs.Fits.{IsEditSet, Fits};

use crate::change::FileChange;
use crate::fits::{are_free, are_there};
use base_files::{FileText, Files, Path};
use std::marker::Model;

/// An edit set: changes of files in the order of their paths, and files that are added, with their texts.
pub struct EditSet {
    changed: Vec<FileChange>,
    added: Vec<(Path, FileText)>,
}

/// Written out so that crates above need not prove again how each part is dropped.
impl Drop for EditSet {
    fn drop(self) {
        let EditSet { changed, added } = self;
        drop(changed);
        drop(added);
    }
}

impl Model for EditSet {
    ghost use Rattle.base_edits.specs.EditSet.{FileChanges};
    ghost use Rattle.base_edits.specs.Fits.{IsEditSet};

    ghost Value = { FileChanges };

    ghost view = { λ a. record { changed = a.changed.items; added = a.added.items } };

    ghost invariant = { λ a. IsEditSet (record { changed = a.changed.items; added = a.added.items }) };
}

impl EditSet {
    /// The edit set of the changes and the added files.
    pub fn new(changed: Vec<FileChange>, added: Vec<(Path, FileText)>) -> EditSet
        requires { IsEditSet (record { changed = changed.items; added = added.items }) }
        ensures { result ≡ record { changed = changed.items; added = added.items } }
    {
        EditSet { changed, added }
    }

    /// The changes in the order of the paths of their files before the change.
    pub fn changed(&self) -> &[FileChange]
        ensures changed { result.now ≡ self.now.changed }
        ensures set { IsEditSet self.now }
    {
        self.changed.as_slice()
    }

    /// The added files, as pairs of path and text.
    pub fn added(&self) -> &[(Path, FileText)]
        ensures { result.now ≡ self.now.added }
    {
        self.added.as_slice()
    }

    /// Whether the edit set fits the files: the changed files exist and contain the spans of their edits, and no two files get one path.
    pub fn fits(&self, files: &Files) -> bool
        ensures { IsTrue result ↔ Fits self.now files.now }
    {
        let changed = self.changed();
        are_there(changed, files) && are_free(changed, self.added(), files)
    }
}
