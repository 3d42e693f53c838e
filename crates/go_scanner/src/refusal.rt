//! The faults of scanning.
ghost use Rattle.std.specs.Prelude.{◌≡◌};
ghost use Rattle.go_scanner.specs.declared.refusal.ScanRefusal.TheVariants.{Memory};

use base_files::FaultKind;
use std::alloc::{AllocError, AllocFailed};

/// The kind of rule that a text breaks, and the offset at which it does.
#[derive(Clone, Copy, Debug, PartialEq, Eq)]
pub struct TextFault {
    pub offset: usize,
    pub kind: FaultKind,
}

/// Why a text was not cut: its first fault, or too little memory.
#[derive(Debug, Drop)]
pub enum ScanRefusal {
    Fault(TextFault),
    Memory,
}

impl From<AllocError> for ScanRefusal {
    ghost from_gives = { λ _ refusal. refusal ≡ Memory };

    fn from(_: AllocError) -> ScanRefusal {
        ScanRefusal::Memory
    }
}

impl<T: Drop> From<AllocFailed<T>> for ScanRefusal {
    ghost from_gives = { λ _ refusal. refusal ≡ Memory };

    fn from(_: AllocFailed<T>) -> ScanRefusal {
        ScanRefusal::Memory
    }
}
