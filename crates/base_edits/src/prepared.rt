//! An edit set whose new files are made and not yet committed.
ghost use Rattle.std.specs.Prelude.{◌≡◌, IfOk};
ghost use Rattle.base_edits.specs.Fits.{Fits};
ghost use Rattle.base_edits.specs.Inverse.{AreChanges, IsInverse};
ghost use Rattle.base_edits.specs.Prepared.{IsPrepared};

use crate::change::FileChange;
use crate::edit_set::EditSet;
use crate::inverse::Inverse;
use crate::making::made;
use base_files::{FileText, Files, Path};
use std::alloc::{AllocError, Global};
use std::mem;

/// The files after an edit set, and its inverse. A value cannot be dropped: it ends in `commit`.
#[must_use]
pub struct Prepared {
    pub files: Files,
    pub inverse: Inverse,
}

/// Makes the new files of the changes and the added files, with the inverse.
pub(crate) fn prepare_changes(
    alloc: Global,
    files: &Files,
    changed: &[FileChange],
    added: &[(Path, FileText)],
) -> Result<Prepared, AllocError>
    requires changes { AreChanges (record { changed = changed.now; added = added.now }) }
    requires fits { Fits (record { changed = changed.now; added = added.now }) files.now }
    ensures { IfOk result (IsPrepared (record { changed = changed.now; added = added.now }) files.now) }
{
    let making = made(alloc, files, changed, added)?;
    let inverse = Inverse::new(making.back, making.lost);
    Ok(Prepared {
        files: making.files,
        inverse,
    })
}

/// Makes all that the commit of an edit set needs, so that `commit` itself takes no memory.
pub fn prepare(alloc: Global, set: &EditSet, files: &Files) -> Result<Prepared, AllocError>
    requires { Fits set.now files.now }
    ensures { IfOk result (IsPrepared set.now files.now) }
{
    prepare_changes(alloc, files, set.changed(), set.added())
}

impl Prepared {
    /// Replaces the files for which the edit set was prepared by the new ones, and returns the inverse. It takes no memory.
    pub fn commit(self, files: &mut Files) -> Inverse
        requires { IsInverse self.inverse self.files files.old }
        ensures done { files.new ≡ self.files }
        ensures back { IsInverse result files.new files.old }
    {
        let Prepared {
            files: made,
            inverse,
        } = self;
        drop(mem::replace(files, made));
        inverse
    }
}
