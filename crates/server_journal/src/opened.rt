//! The book that the bytes of a journal lead to.
ghost use Rattle.std.specs.Prelude.{◌≡◌, ◌↔◌, IfErr, IfOk, IsTrue, map};
ghost use Rattle.server_journal.specs.Opened.{FailsFrom, FailsToOpen, IsBookIn, IsRecoveredFrom, of_records, of_recovery};
ghost use Rattle.server_journal.specs.Recovered.{FailsToRecover, IsRecovered};
ghost use Rattle.server_journal.specs.declared.repeating.RecoveryFault.{RecoveryFault as Why};

use crate::recovery::recovered;
use crate::repeating::RecoveryFault;
use base_files::Limits;
use history_book::Book;
use history_records::{RecordsFault, whole_records};
use std::alloc::{AllocError, Global};

/// What the first record holds.
pub const HEADING: &[u8] = b"gorefd changes 1";

/// Why the folder of a journal could not be opened.
#[derive(Clone, Copy, Debug, PartialEq, Eq)]
pub enum JournalFault {
    /// Memory was wanting.
    Memory,
    /// The disk failed, or the folder is not the server's own.
    Disk,
    /// Another server keeps its journal in the folder.
    InUse,
    /// The journal of the history has no room.
    Full,
    /// The file is no journal, it is damaged, or its changes are those of no history.
    Unfit,
}

impl From<AllocError> for JournalFault {
    ghost use Rattle.server_journal.specs.declared.opened.JournalFault.TheVariants.{Memory};

    ghost from_gives = { λ _ fault. fault ≡ Memory };

    fn from(_: AllocError) -> JournalFault {
        JournalFault::Memory
    }
}

impl From<RecoveryFault> for JournalFault {
    ghost from_gives = { λ why fault. fault ≡ of_recovery why };

    fn from(fault: RecoveryFault) -> JournalFault {
        match fault {
            RecoveryFault::Memory => JournalFault::Memory,
            RecoveryFault::Full => JournalFault::Full,
            RecoveryFault::NoHistory => JournalFault::Unfit,
        }
    }
}

impl From<RecordsFault> for JournalFault {
    ghost from_gives = { λ why fault. fault ≡ of_records why };

    fn from(fault: RecordsFault) -> JournalFault {
        match fault {
            RecordsFault::Memory => JournalFault::Memory,
            RecordsFault::Damaged => JournalFault::Unfit,
        }
    }
}

/// A book that was recovered, and how many bytes its records have.
#[must_use]
pub struct RecoveredBook {
    pub book: Book,
    pub whole: u64,
}

/// Whether a record is the heading.
fn is_heading(held: &[u8]) -> bool
    ensures { IsTrue result ↔ (held.now ≡ HEADING.now) }
{
    held == HEADING
}

/// The book that the records of changes lead to.
fn book_of_changes(alloc: Global, limits: Limits, held: &[&[u8]]) -> Result<Book, JournalFault>
    ensures ok { IfOk result (IsRecovered limits (map (λ h. h.now) held.now)) }
    ensures limits { IfOk result (λ book. book.limits ≡ limits) }
    ensures err { IfErr result (λ fault. (why : Why) × (fault ≡ of_recovery why) × FailsToRecover limits (map (λ h. h.now) held.now) why) }
{
    match recovered(alloc, limits, held) {
        Ok(book) => Ok(book),
        Err(why) => Err(JournalFault::from(why)),
    }
}

/// The book that records lead to, of which the first one is the heading. Without records it is a new book.
fn book_of(alloc: Global, limits: Limits, held: &[&[u8]]) -> Result<Book, JournalFault>
    ensures ok { IfOk result (IsRecoveredFrom limits HEADING.now (map (λ h. h.now) held.now)) }
    ensures limits { IfOk result (λ book. book.limits ≡ limits) }
    ensures err { IfErr result (FailsFrom limits HEADING.now (map (λ h. h.now) held.now)) }
{
    let Some((heading, changes)) = held.split_first() else {
        return book_of_changes(alloc, limits, &[]);
    };
    if !is_heading(heading) {
        return Err(JournalFault::Unfit);
    }
    book_of_changes(alloc, limits, changes)
}

/// The book that the records lead to with which the bytes begin. Behind them at most a record stands that was cut off.
pub fn book_in(alloc: Global, limits: Limits, bytes: &[u8]) -> Result<RecoveredBook, JournalFault>
    ensures ok { IfOk result (λ found. IsBookIn limits HEADING.now bytes.now found.book found.whole) }
    ensures limits { IfOk result (λ found. found.book.limits ≡ limits) }
    ensures err { IfErr result (FailsToOpen limits HEADING.now bytes.now) }
{
    let found = whole_records(alloc, bytes)?;
    let whole = (bytes.len() - found.torn) as u64;
    let book = book_of(alloc, limits, found.held.as_slice())?;
    Ok(RecoveredBook { book, whole })
}
