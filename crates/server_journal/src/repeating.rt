//! Makes a change once more in a book, as a record keeps it.
ghost use Rattle.std.specs.Prelude.{◌≡◌, ◌↔◌, Err, IfErr, IfOk, IsOk, OnOk};
ghost use Rattle.base_edits.specs.Fits.{Fits};
ghost use Rattle.history_records.specs.Encoded.{AreBytesOf};
ghost use Rattle.history_records.specs.declared.change.KeptChange.{KeptChange as Kept};
ghost use Rattle.history_records.specs.declared.change.KeptChange.TheVariants.{Commit};
ghost use Rattle.server_journal.specs.Recovered.{FailsAtRecord, FailsToRepeat, IsForGood, Repeats};

use base_edits::EditSet;
use base_files::Refusal;
use history_book::{Book, Changing};
use history_records::{ChangeFault, KeptChange, read_change};
use std::alloc::{AllocError, Global};
use workspace_snapshot::{ChangeKind, MadeChange};

/// Why no book is recovered.
#[derive(Clone, Copy, Debug, PartialEq, Eq)]
pub enum RecoveryFault {
    /// Memory was wanting.
    Memory,
    /// The journal of the history has no room.
    Full,
    /// No history has the changes of the records.
    NoHistory,
}

impl From<AllocError> for RecoveryFault {
    ghost use Rattle.server_journal.specs.declared.repeating.RecoveryFault.TheVariants.{Memory};

    ghost from_gives = { λ _ fault. fault ≡ Memory };

    fn from(_: AllocError) -> RecoveryFault {
        RecoveryFault::Memory
    }
}

/// What the answer to a change that is made once more tells. It is to be done.
fn is_done(answer: Result<u64, Refusal>) -> Result<(), RecoveryFault>
    ensures ok { IsOk result ↔ IsOk answer }
    ensures err { result ≡ Err RecoveryFault.NoHistory → IfErr answer IsForGood }
{
    match answer {
        Ok(_) => Ok(()),
        Err(Refusal::Memory) => Err(RecoveryFault::Memory),
        Err(Refusal::JournalFull) => Err(RecoveryFault::Full),
        Err(_) => Err(RecoveryFault::NoHistory),
    }
}

/// The change that edits make of the current files, or the fault that they don't fit these. The command that planned it is not known.
fn edited_change(alloc: Global, book: &Book, edits: EditSet) -> Result<MadeChange, RecoveryFault>
    ensures ok { IfOk result (λ change. (change.base ≡ book.now.current.files) × (change.edits ≡ edits)) }
    ensures err { result ≡ Err RecoveryFault.NoHistory → Fits edits book.now.current.files → ⊥ }
{
    let snapshot = book.snapshot()?;
    if !edits.fits(snapshot.files().files()) {
        return Err(RecoveryFault::NoHistory);
    }
    Ok(MadeChange::of(alloc, snapshot.get(), ChangeKind::Put, edits)?)
}

/// Makes a commit once more.
fn commit_again(
    alloc: Global,
    book: &mut Book,
    basis: u64,
    edits: EditSet,
) -> Result<(), RecoveryFault>
    ensures ok { OnOk result (Repeats book.old (Commit basis edits) book.new) }
    ensures err { IfErr result (FailsToRepeat book.old (Commit basis edits)) }
{
    let change = edited_change(alloc, book, edits)?;
    let (answer, _entry) = book.commit_on_current(basis, change);
    is_done(answer)
}

/// Makes a change once more.
fn make_again(alloc: Global, book: &mut Book, change: KeptChange) -> Result<(), RecoveryFault>
    ensures ok { OnOk result (Repeats book.old change book.new) }
    ensures err { IfErr result (FailsToRepeat book.old change) }
{
    match change {
        KeptChange::Commit(basis, edits) => commit_again(alloc, book, basis, edits),
        KeptChange::Undo(basis) => is_done(book.step(Changing::Undo(basis))),
        KeptChange::Redo(basis) => is_done(book.step(Changing::Redo(basis))),
    }
}

/// Makes the change of a record once more.
pub(crate) fn repeat_record(
    alloc: Global,
    book: &mut Book,
    held: &[u8],
) -> Result<(), RecoveryFault>
    ensures ok { OnOk result ((change : Kept) × AreBytesOf held.now change × Repeats book.old change book.new) }
    ensures limits { OnOk result (book.new.limits ≡ book.old.limits) }
    ensures err { IfErr result (FailsAtRecord book.old held.now) }
{
    match read_change(alloc, held) {
        Ok(change) => make_again(alloc, book, change),
        Err(ChangeFault::Memory) => Err(RecoveryFault::Memory),
        Err(ChangeFault::NoChange) => Err(RecoveryFault::NoHistory),
    }
}
