//! The refusals of parsing a file.
ghost use Rattle.std.specs.Prelude.{◌≡◌};
ghost use Rattle.go_parser.specs.declared.refusal.ParseRefusal.TheVariants.{Memory};

use go_scanner::TextFault;
use std::alloc::{AllocError, AllocFailed};

/// Why a file was not parsed: its first fault, or too little memory.
#[derive(Debug, Drop)]
pub enum ParseRefusal {
    Fault(TextFault),
    Memory,
}

impl From<AllocError> for ParseRefusal {
    ghost from_gives = { λ _ refusal. refusal ≡ Memory };

    fn from(_: AllocError) -> ParseRefusal {
        ParseRefusal::Memory
    }
}

impl<T: Drop> From<AllocFailed<T>> for ParseRefusal {
    ghost from_gives = { λ _ refusal. refusal ≡ Memory };

    fn from(_: AllocFailed<T>) -> ParseRefusal {
        ParseRefusal::Memory
    }
}
