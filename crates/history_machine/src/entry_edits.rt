//! Makes an admitted change's edits ready for two entries: that of the journal and its copy.
ghost use Rattle.std.specs.Prelude.{◌≡◌, IfOk};

use crate::entry::{Entry, Line, SharedEdits};
use base_edits::EditSet;
use std::alloc::{AllocError, Global};
use std::marker::Model;

/// The edits of a change, held twice: for the entry of the journal, and for its copy. So the copy needs no memory once the change is
/// admitted.
#[derive(Drop)]
pub struct EntryEdits {
    kept: SharedEdits,
    copy: SharedEdits,
}

impl Model for EntryEdits {
    ghost use Rattle.std.specs.Prelude.{◌≡◌};
    ghost use Rattle.base_edits.specs.EditSet.{FileChanges};

    ghost Value = { FileChanges };

    ghost view = { λ a. a.kept };

    ghost invariant = { λ a. a.copy ≡ a.kept };
}

impl EntryEdits {
    /// Shares an edit set, and clones the share once.
    pub fn new(alloc: Global, edits: EditSet) -> Result<EntryEdits, AllocError>
        ensures { IfOk result (λ made. made ≡ edits) }
    {
        let kept = SharedEdits::new(alloc, edits)?;
        let copy = kept.clone()?;
        Ok(EntryEdits { kept, copy })
    }

    /// The edits for the entry, and those for its copy.
    fn into_both(self) -> (SharedEdits, SharedEdits)
        ensures kept { result.0 ≡ self }
        ensures copy { result.1 ≡ self }
    {
        let EntryEdits { kept, copy } = self;
        (kept, copy)
    }
}

/// Makes an entry and a copy of it. It takes no memory.
pub fn entry_and_copy(line: Line, subject: Option<u64>, made: Option<EntryEdits>) -> (Entry, Entry)
    ensures entry { result.0 ≡ record { line = line; subject = subject; edits = made } }
    ensures copy { result.1 ≡ record { line = line; subject = subject; edits = made } }
{
    let (edits, copied) = match made {
        Some(made) => {
            let (kept, copy) = made.into_both();
            (Some(kept), Some(copy))
        }
        None => (None, None),
    };
    let entry = Entry {
        line,
        subject,
        edits,
    };
    let copy = Entry {
        line,
        subject,
        edits: copied,
    };
    (entry, copy)
}
