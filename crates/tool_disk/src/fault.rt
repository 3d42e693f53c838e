//! Why a command over a folder ended.
ghost use Rattle.std.specs.Prelude.{◌≡◌};

use std::alloc::{AllocError, AllocFailed, Global};
use std::fmt::Display;
use std::io;
use std::io::ErrorKind;
use thiserror::Error;

/// Why a command over a folder ended before it was planned, or while files were written.
#[derive(Debug, Drop, Error)]
pub enum ToolFault {
    #[error("memory fault")]
    Memory,
    #[error("{0}")]
    Told(String),
}

impl From<AllocError> for ToolFault {
    ghost use Rattle.tool_disk.specs.declared.fault.ToolFault.TheVariants.{Memory};

    ghost from_gives = { λ _ fault. fault ≡ Memory };

    fn from(_: AllocError) -> ToolFault {
        ToolFault::Memory
    }
}

impl<T: Drop> From<AllocFailed<T>> for ToolFault {
    ghost use Rattle.tool_disk.specs.declared.fault.ToolFault.TheVariants.{Memory};

    ghost from_gives = { λ _ fault. fault ≡ Memory };

    fn from(_: AllocFailed<T>) -> ToolFault {
        ToolFault::Memory
    }
}

/// What is told of a path.
fn line(alloc: Global, path: &str, what: impl Display + Drop) -> Result<String, AllocError> {
    format!(in alloc; "{path}: {what}")
}

/// The fault of which this is told, unless memory was wanting for it.
fn fault_of(line: Result<String, AllocError>) -> ToolFault {
    match line {
        Ok(line) => ToolFault::Told(line),
        Err(_) => ToolFault::Memory,
    }
}

/// The fault of this text about a path.
pub fn told(alloc: Global, path: &str, text: &str) -> ToolFault {
    fault_of(line(alloc, path, text))
}

/// The fault that the system told of a path.
fn failed(alloc: Global, path: &str, error: io::Error) -> ToolFault {
    match error.kind() {
        ErrorKind::OutOfMemory => ToolFault::Memory,
        _ => fault_of(line(alloc, path, error)),
    }
}

/// What came of a call on a path, with the fault that it told.
pub(crate) fn at<T>(alloc: Global, path: &str, came: io::Result<T>) -> Result<T, ToolFault> {
    match came {
        Ok(value) => Ok(value),
        Err(error) => Err(failed(alloc, path, error)),
    }
}
