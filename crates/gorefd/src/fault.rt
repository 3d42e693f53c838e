//! Why a session of the program ended before its input.
use lsp_session::LspFault;
use server_session::SessionFault;
use std::alloc::AllocError;
use thiserror::Error;

/// Why a session of the program ended before its input. Each message goes to standard error.
#[derive(Debug, Drop, Error)]
pub enum ProgramFault {
    #[error("memory fault")]
    Memory,
    #[error("read fault")]
    Read,
    #[error("write fault")]
    Write,
    #[error("turns fault")]
    Turns,
}

impl From<AllocError> for ProgramFault {
    fn from(_: AllocError) -> ProgramFault {
        ProgramFault::Memory
    }
}

impl From<SessionFault> for ProgramFault {
    fn from(fault: SessionFault) -> ProgramFault {
        match fault {
            SessionFault::Memory => ProgramFault::Memory,
            SessionFault::Read => ProgramFault::Read,
            SessionFault::Write => ProgramFault::Write,
            SessionFault::Turns => ProgramFault::Turns,
        }
    }
}

impl From<LspFault> for ProgramFault {
    fn from(fault: LspFault) -> ProgramFault {
        match fault {
            LspFault::Memory => ProgramFault::Memory,
            LspFault::Read => ProgramFault::Read,
            LspFault::Write => ProgramFault::Write,
            LspFault::Turns => ProgramFault::Turns,
        }
    }
}
