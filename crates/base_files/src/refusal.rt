//! The reasons for which commands are refused.
ghost use Rattle.std.specs.Prelude.{◌≡◌};
ghost use Rattle.base_files.specs.declared.refusal.Refusal.TheVariants.{Memory};

use crate::fault_kind::FaultKind;
use crate::path::Path;
use crate::place::Place;
use std::alloc::{AllocError, AllocFailed};

/// The reason for which a command is refused, with the place or the number that its reply names.
#[derive(Drop)]
pub enum Refusal {
    Memory,
    BadCommand,
    BadPath,
    NoFile,
    TooLarge,
    Moved { current: u64 },
    NothingToUndo,
    NothingToRedo,
    Faulty { place: Place, kind: FaultKind },
    NoIdentifier,
    NotRenamable,
    BadName,
    Same,
    Captured { used: Place, by: Option<Place> },
    Lost { used: Place },
    NoPackage,
    TargetTaken,
    InsideItself,
    JournalFull,
    Pending { package: Path },
    Stale { current: u64 },
    Already,
    NoJob,
    BodyShort,
    Coupled { place: Place },
    /// The change could not be kept on the disk.
    Disk,
}

impl From<AllocError> for Refusal {
    ghost from_gives = { λ _ refusal. refusal ≡ Memory };

    fn from(_: AllocError) -> Refusal {
        Refusal::Memory
    }
}

impl<T: Drop> From<AllocFailed<T>> for Refusal {
    ghost from_gives = { λ _ refusal. refusal ≡ Memory };

    fn from(_: AllocFailed<T>) -> Refusal {
        Refusal::Memory
    }
}
