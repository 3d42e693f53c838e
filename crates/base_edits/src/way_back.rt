//! The changes of an inverse as plain data.
ghost use Rattle.std.specs.Prelude.{◌≡◌};
ghost use Rattle.base_edits.specs.Inverse.{AreChanges};

use crate::change::FileChange;
use crate::inverse::Inverse;
use base_files::{FileText, Path};
use std::marker::Model;

/// The changes of an inverse that was set aside. A value can be dropped, unlike the inverse itself, which `take_up` gives back.
pub struct WayBack {
    changed: Vec<FileChange>,
    added: Vec<(Path, FileText)>,
}

/// Written out so that crates above need not prove again how each part is dropped.
impl Drop for WayBack {
    fn drop(self) {
        let WayBack { changed, added } = self;
        drop(changed);
        drop(added);
    }
}

impl Model for WayBack {
    ghost use Rattle.base_edits.specs.EditSet.{FileChanges};
    ghost use Rattle.base_edits.specs.Inverse.{AreChanges};

    ghost Value = { FileChanges };

    ghost view = { λ a. record { changed = a.changed.items; added = a.added.items } };

    ghost invariant = { λ a. AreChanges (record { changed = a.changed.items; added = a.added.items }) };
}

impl WayBack {
    /// The way back that consists of these changes and added files.
    pub(crate) fn new(changed: Vec<FileChange>, added: Vec<(Path, FileText)>) -> WayBack
        requires { AreChanges (record { changed = changed.items; added = added.items }) }
        ensures { result ≡ record { changed = changed.items; added = added.items } }
    {
        WayBack { changed, added }
    }

    /// The inverse with the same changes. It takes no memory.
    pub fn take_up(self) -> Inverse
        ensures { result ≡ self }
    {
        let WayBack { changed, added } = self;
        Inverse::new(changed, added)
    }
}
