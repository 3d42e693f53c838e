//! Changes of a workspace, as records keep them.
ghost use Rattle.std.specs.Prelude.{◌≡◌};
ghost use Rattle.history_records.specs.Asked.{basis_of, kept_of};
ghost use Rattle.history_records.specs.declared.change.ChangeFault.TheVariants.{Memory};

use base_edits::EditSet;
use std::alloc::{AllocError, AllocFailed};

/// A change that was admitted. The number is its basis: that of the state before it.
#[derive(Drop)]
pub enum KeptChange {
    /// The edits made the new state of the one before it.
    Commit(u64, EditSet),
    Undo(u64),
    Redo(u64),
}

/// A change that is asked for, with its basis. It borrows the edits of a commit.
#[derive(Clone, Copy)]
pub enum AskedChange<'a> {
    Commit(u64, &'a EditSet),
    Undo(u64),
    Redo(u64),
}

impl<'a> AskedChange<'a> {
    /// The number of the state for which it is meant.
    pub fn basis(&self) -> u64
        ensures { result ≡ basis_of (kept_of self.now) }
    {
        match self {
            AskedChange::Commit(basis, _) | AskedChange::Undo(basis) | AskedChange::Redo(basis) =>
                *basis,
        }
    }
}

/// Why no change is read.
#[derive(Clone, Copy, Debug, PartialEq, Eq)]
pub enum ChangeFault {
    /// Memory was wanting.
    Memory,
    /// The bytes are those of no change.
    NoChange,
}

impl From<AllocError> for ChangeFault {
    ghost from_gives = { λ _ fault. fault ≡ Memory };

    fn from(_: AllocError) -> ChangeFault {
        ChangeFault::Memory
    }
}

impl<T: Drop> From<AllocFailed<T>> for ChangeFault {
    ghost from_gives = { λ _ fault. fault ≡ Memory };

    fn from(_: AllocFailed<T>) -> ChangeFault {
        ChangeFault::Memory
    }
}
