//! Why a server failed.
ghost use Rattle.std.specs.Prelude.{◌≡◌};

use server_journal::JournalFault;
use std::alloc::AllocError;
use thiserror::Error;

/// Why a server failed. Each message goes to standard error.
#[derive(Debug, Drop, Error)]
pub enum ServeFault {
    /// Memory was wanting at the start, or a thread could not be made.
    #[error("memory fault")]
    Memory,
    /// The socket could not be made.
    #[error("socket fault")]
    Socket,
    /// Another server is at work at the socket's path.
    #[error("another server is at work at this path")]
    InUse,
    /// The folder of the journal could not be opened, its file is damaged, or it is no journal.
    #[error("journal fault")]
    Journal,
    /// Another server keeps its journal in the folder.
    #[error("another server keeps its journal in this folder")]
    JournalInUse,
    /// The journal's entries are not exactly those of the receipts of all seats.
    #[error("unsettled")]
    Unsettled,
}

impl From<JournalFault> for ServeFault {
    ghost use Rattle.std.specs.Prelude.{◌≢◌};
    ghost use Rattle.server_socket.specs.declared.fault.ServeFault.TheVariants.{Unsettled};

    ghost from_gives = { λ _ fault. fault ≢ Unsettled };

    fn from(fault: JournalFault) -> ServeFault {
        match fault {
            JournalFault::Memory => ServeFault::Memory,
            JournalFault::InUse => ServeFault::JournalInUse,
            JournalFault::Disk | JournalFault::Full | JournalFault::Unfit => ServeFault::Journal,
        }
    }
}

impl From<AllocError> for ServeFault {
    ghost use Rattle.server_socket.specs.declared.fault.ServeFault.TheVariants.{Memory};

    ghost from_gives = { λ _ fault. fault ≡ Memory };

    fn from(_: AllocError) -> ServeFault {
        ServeFault::Memory
    }
}
