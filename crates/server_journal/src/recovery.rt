//! The book that the changes of records lead to.
ghost use Rattle.std.specs.Prelude.{◌≡◌, ◌⊎◌, IfErr, IfOk, OnOk, map};
ghost use Rattle.history_machine.specs.Machine.{closed, opening};
ghost use Rattle.server_journal.specs.Recovered.{FailsToRecover, IsRecovered};

use crate::repeating::{RecoveryFault, repeat_record};
use base_files::{Limits, Refusal};
use history_book::Book;
use std::alloc::Global;

/// With so many entries the journal of a book that is recovered is closed.
const CLOSED_AT: usize = 900_000;

/// Closes the journal of a book if it is long. So it has room for the next change.
fn make_room(book: &mut Book) -> Result<(), RecoveryFault>
    ensures ok { OnOk result ((book.new ≡ book.old) ⊎ (book.new ≡ closed book.old)) }
    ensures err { result ≡ Err RecoveryFault.NoHistory → ⊥ }
{
    if book.journal().len() < CLOSED_AT {
        return Ok(());
    }
    match book.close_chapter() {
        Ok(entries) => {
            drop(entries);
            Ok(())
        }
        Err(Refusal::Memory) => Err(RecoveryFault::Memory),
        Err(_) => Err(RecoveryFault::Full),
    }
}

/// Goes on with the changes of records.
fn go_on(alloc: Global, book: &mut Book, held: &[&[u8]]) -> Result<(), RecoveryFault>
    requires { book.old ≡ opening book.old.limits }
    ensures ok { OnOk result (IsRecovered book.old.limits (map (λ h. h.now) held.now) book.new) }
    ensures limits { OnOk result (book.new.limits ≡ book.old.limits) }
    ensures err { IfErr result (FailsToRecover book.old.limits (map (λ h. h.now) held.now)) }
{
    for record in held {
        repeat_record(alloc, book, record)?;
        make_room(book)?;
    }
    Ok(())
}

/// A book whose history has exactly the changes that the records hold, in their order.
pub fn recovered(alloc: Global, limits: Limits, held: &[&[u8]]) -> Result<Book, RecoveryFault>
    ensures ok { IfOk result (IsRecovered limits (map (λ h. h.now) held.now)) }
    ensures limits { IfOk result (λ book. book.limits ≡ limits) }
    ensures err { IfErr result (FailsToRecover limits (map (λ h. h.now) held.now)) }
{
    let mut book = Book::new(alloc, limits)?;
    match go_on(alloc, &mut book, held) {
        Ok(()) => Ok(book),
        Err(fault) => {
            let _entries = book.close();
            Err(fault)
        }
    }
}
