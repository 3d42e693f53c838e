//! Why a session ends before it is to.
use server_read::InputFault;
use std::alloc::{AllocError, AllocFailed};
use std::io;
use thiserror::Error;

/// Why the session of an editor ended before it was to.
#[derive(Debug, Drop, Error)]
pub enum LspFault {
    #[error("memory fault")]
    Memory,
    #[error("read fault")]
    Read,
    #[error("write fault")]
    Write,
    #[error("turns fault")]
    Turns,
}

impl From<AllocError> for LspFault {
    fn from(_: AllocError) -> LspFault {
        LspFault::Memory
    }
}

impl<T: Drop> From<AllocFailed<T>> for LspFault {
    fn from(_: AllocFailed<T>) -> LspFault {
        LspFault::Memory
    }
}

impl From<io::Error> for LspFault {
    fn from(_: io::Error) -> LspFault {
        LspFault::Write
    }
}

impl From<InputFault> for LspFault {
    fn from(fault: InputFault) -> LspFault {
        match fault {
            InputFault::Read => LspFault::Read,
            InputFault::Turns => LspFault::Turns,
        }
    }
}
