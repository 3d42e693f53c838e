//! Opens the folder of a server's journal.
ghost use Rattle.std.specs.Prelude.{◌≡◌, ℕ, IfOk, List};
ghost use Rattle.server_journal.specs.Opened.{IsBookIn};

use crate::beginning::keep_behind;
use crate::disk::{DiskStore, open_lock, open_store, sync_entries};
use crate::kept::Kept;
use crate::opened::{HEADING, JournalFault, RecoveredBook, book_in};
use base_files::Limits;
use history_book::Book;
use std::alloc::Global;
use std::fs::{DirBuilder, File, TryLockError};
use std::io;
use std::io::ErrorKind;
use std::os::unix::fs::DirBuilderExt;
use std::rt::Files;

/// Only its owner can enter the folder.
const OWNER_WORKS: u32 = 0o700;

/// A book that was recovered, and the store of the records of its changes.
#[must_use]
pub struct KeptBook {
    pub book: Book,
    pub kept: Kept<DiskStore>,
}

/// Makes a folder that only its owner can enter, unless there is one.
fn make_folder<R: Files>(rt: &R, folder: &str) -> io::Result<()> {
    let mut builder = DirBuilder::new();
    builder.mode(OWNER_WORKS);
    match builder.create(rt, folder) {
        Ok(()) => Ok(()),
        Err(fault) => {
            if fault.kind() == ErrorKind::AlreadyExists {
                Ok(())
            } else {
                Err(fault)
            }
        }
    }
}

/// Holds the folder, unless another server does.
fn hold<R: Files<File = File>>(rt: &R, path: &str) -> Result<File, JournalFault> {
    let Ok(lock) = open_lock(rt, path) else {
        return Err(JournalFault::Disk);
    };
    match lock.try_lock() {
        Ok(()) => Ok(lock),
        Err(TryLockError::WouldBlock) => Err(JournalFault::InUse),
        Err(TryLockError::Error(_)) => Err(JournalFault::Disk),
    }
}

/// Opens the file of a folder, which is held, and reads it. The files of the folder are flushed, so that they are there after a crash.
fn open_files<R: Files<File = File>>(
    rt: &R,
    alloc: Global,
    folder: &str,
) -> Result<(DiskStore, Vec<u8>), JournalFault> {
    if make_folder(rt, folder).is_err() {
        return Err(JournalFault::Disk);
    }
    let place = format!(in alloc; "{folder}/lock")?;
    let lock = hold(rt, place.as_str())?;
    let path = format!(in alloc; "{folder}/changes")?;
    let Ok(opened) = open_store(rt, alloc, path.as_str(), lock) else {
        return Err(JournalFault::Disk);
    };
    let above = format!(in alloc; "{folder}/..")?;
    if sync_entries(rt, folder).is_err() || sync_entries(rt, above.as_str()).is_err() {
        return Err(JournalFault::Disk);
    }
    Ok(opened)
}

/// Opens the folder of a journal, and recovers the book from its records. A record that was cut off at the end is taken away. Where no book is
/// recovered, nothing is written.
pub fn open_journal<R: Files<File = File>>(
    rt: &R,
    alloc: Global,
    folder: &str,
    limits: Limits,
) -> Result<KeptBook, JournalFault>
    ensures ok { IfOk result (λ opened. (bytes : List ℕ) × (whole : ℕ) × IsBookIn limits HEADING.now bytes opened.book whole) }
    ensures limits { IfOk result (λ opened. opened.book.limits ≡ limits) }
{
    let (store, bytes) = open_files(rt, alloc, folder)?;
    let RecoveredBook { book, whole } = book_in(alloc, limits, bytes.as_slice())?;
    match keep_behind(alloc, store, whole) {
        Ok(kept) => Ok(KeptBook { book, kept }),
        Err(fault) => {
            let _entries = book.close();
            Err(fault)
        }
    }
}
