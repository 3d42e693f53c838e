//! Makes steps of a book whose changes are kept: the record of a change is in the store before the change is made.
ghost use Rattle.std.specs.Prelude.{◌≡◌, ◌<◌, ◌≤◌, ◌⊎◌, ◌↔◌, IfErr, IfOk, IsSome, IsTrue, List, OnOk, Some, length, true, ℕ};
ghost use Rattle.base_files.specs.declared.limits.Limits.{Limits as BookLimits};
ghost use Rattle.history_machine.specs.JournalSteps.{JournalStep};
ghost use Rattle.history_machine.specs.Machine.{content};
ghost use Rattle.history_machine.specs.Step.{done as answered};
ghost use Rattle.history_machine.specs.declared.event.Event.{Event};
ghost use Rattle.history_machine.specs.declared.event.Event.TheVariants.{Commit};
ghost use Rattle.history_records.specs.Asked.{kept_of};
ghost use Rattle.law_changes.specs.Changes.{change_asked, states_kept};
ghost use Rattle.server_journal.specs.Keeping.{Intends, IsDoneEntry, IsIntended, KeepsChanges, KeptStep};
ghost use Rattle.server_journal.specs.Recovered.{IsPossible};
ghost use Rattle.server_journal.specs.Stores.{FailsToKeep, Returns};

use crate::kept::{Kept, KeptFault};
use crate::store::Store;
use base_files::Refusal;
use history_book::{Book, Question};
use history_machine::{Entry, Told};
use history_records::AskedChange;
use std::alloc::Global;
use workspace_snapshot::MadeChange;

/// Whether an event was done, by the entry that it left.
fn is_done_entry(left: &Option<Entry>) -> bool
    ensures { IsTrue result ↔ IsDoneEntry left.now }
{
    match left {
        Some(entry) => matches!(entry.line.out, Told::Done(_)),
        None => false,
    }
}

/// Adds the record of a change to the store, and has it flushed.
fn intend_change<S: Store + Drop>(
    alloc: Global,
    kept: &mut Kept<S>,
    change: &AskedChange<'_>,
) -> Result<(), KeptFault>
    ensures ok { OnOk result (Intends (S.holds kept.old.store) (S.holds kept.new.store) kept.old.is_lost kept.new.is_lost (kept_of change.now)) }
    ensures longer { OnOk result (kept.old.length ≤ kept.new.length) }
    ensures err { IfErr result (λ fault. FailsToKeep fault (S.holds kept.old.store) (S.holds kept.new.store) kept.old.is_lost kept.new.is_lost) }
{
    let bytes = change.bytes(alloc)?;
    kept.intend(alloc, bytes.as_slice())
}

/// Whether undo has a state to which it leads.
fn can_undo(book: &Book) -> bool
    ensures { IsTrue result ↔ (0 < length book.now.earlier) }
{
    book.undo_steps() > 0
}

/// Whether redo has a state to which it leads.
fn can_redo(book: &Book) -> bool
    ensures { IsTrue result ↔ (0 < length book.now.later) }
{
    book.redo_steps() > 0
}

/// Whether a change is possible in the states of a book.
fn is_possible(book: &Book, change: &AskedChange<'_>) -> bool
    ensures { IsTrue result ↔ IsPossible (kept_of change.now) (states_kept (content book.now)) }
{
    if change.basis() != book.number() {
        return false;
    }
    match change {
        AskedChange::Commit(_, edits) => book.fits(edits),
        AskedChange::Undo(_) => can_undo(book),
        AskedChange::Redo(_) => can_redo(book),
    }
}

/// Adds the record of a change, if it is possible in the states of the book. Returns whether it was added.
fn intend_possible<S: Store + Drop>(
    alloc: Global,
    book: &Book,
    kept: &mut Kept<S>,
    change: &AskedChange<'_>,
) -> Result<bool, KeptFault>
    ensures ok { IfOk result (λ added. (event : Event) → change_asked event ≡ Some (kept_of change.now) → IsIntended book.now event (S.holds kept.old.store) (S.holds kept.new.store) kept.old.is_lost kept.new.is_lost added) }
    ensures longer { OnOk result (kept.old.length ≤ kept.new.length) }
    ensures err { IfErr result (λ fault. FailsToKeep fault (S.holds kept.old.store) (S.holds kept.new.store) kept.old.is_lost kept.new.is_lost) }
{
    if !is_possible(book, change) {
        return Ok(false);
    }
    match intend_change(alloc, kept, change) {
        Ok(()) => Ok(true),
        Err(fault) => Err(fault),
    }
}

/// Adds the record of the change for which a question asks, if it is possible. Returns whether it was added.
fn intend_for<S: Store + Drop, Q: Question>(
    alloc: Global,
    book: &Book,
    kept: &mut Kept<S>,
    question: &Q,
) -> Result<bool, KeptFault>
    ensures ok { IfOk result (IsIntended book.now (Q.event question.now) (S.holds kept.old.store) (S.holds kept.new.store) kept.old.is_lost kept.new.is_lost) }
    ensures longer { OnOk result (kept.old.length ≤ kept.new.length) }
    ensures err { IfErr result (λ fault. FailsToKeep fault (S.holds kept.old.store) (S.holds kept.new.store) kept.old.is_lost kept.new.is_lost) }
    ensures asks { IfErr result (λ _. IsSome (change_asked (Q.event question.now))) }
{
    match question.change() {
        None => Ok(false),
        Some(change) => intend_possible(alloc, book, kept, &change),
    }
}

/// Takes the record of a change away that was not done, by the entry that its event left.
fn take_back_undone<S: Store + Drop>(kept: &mut Kept<S>, left: &Option<Entry>, before: u64)
    requires { before ≤ kept.old.length }
    ensures done { IsDoneEntry left.now → (S.holds kept.new.store ≡ S.holds kept.old.store) × (kept.new.is_lost ≡ kept.old.is_lost) }
    ensures back { (IsDoneEntry left.now → ⊥) → (kept.new.is_lost ≡ true) ⊎ (Returns (S.holds kept.old.store) before (S.holds kept.new.store) × (kept.new.is_lost ≡ kept.old.is_lost)) }
{
    if is_done_entry(left) {
        return;
    }
    let _is_back = kept.take_back(before);
}

/// Makes one step of a book whose next change has its record in the store. Where the change is not done, its record is taken away.
fn make_intended<S: Store + Drop, Q: Question>(
    book: &mut Book,
    kept: &mut Kept<S>,
    question: Q,
    before: u64,
) -> (Q::Answer, Option<Entry>)
    requires { before ≤ kept.old.length }
    ensures step { JournalStep book.old (Q.event question) (Q.reply result.0) result.1 book.new }
    ensures done { IsDoneEntry result.1 → (S.holds kept.new.store ≡ S.holds kept.old.store) × (kept.new.is_lost ≡ kept.old.is_lost) }
    ensures back { (IsDoneEntry result.1 → ⊥) → (kept.new.is_lost ≡ true) ⊎ (Returns (S.holds kept.old.store) before (S.holds kept.new.store) × (kept.new.is_lost ≡ kept.old.is_lost)) }
{
    let (answer, left) = book.journal_step(question);
    take_back_undone(kept, &left, before);
    (answer, left)
}

/// Makes the step of a commit whose base is known to have the current files, and whose record is in the store. Where the change is not done,
/// its record is taken away. No text is compared.
fn commit_intended<S: Store + Drop>(
    book: &mut Book,
    kept: &mut Kept<S>,
    basis: u64,
    change: MadeChange,
    before: u64,
) -> (Result<u64, Refusal>, Option<Entry>)
    requires before { before ≤ kept.old.length }
    requires base { change.base ≡ book.old.current.files }
    ensures step { JournalStep book.old (Commit basis change) (answered result.0) result.1 book.new }
    ensures done { IsDoneEntry result.1 → (S.holds kept.new.store ≡ S.holds kept.old.store) × (kept.new.is_lost ≡ kept.old.is_lost) }
    ensures back { (IsDoneEntry result.1 → ⊥) → (kept.new.is_lost ≡ true) ⊎ (Returns (S.holds kept.old.store) before (S.holds kept.new.store) × (kept.new.is_lost ≡ kept.old.is_lost)) }
{
    let (answer, left) = book.commit_on_current(basis, change);
    take_back_undone(kept, &left, before);
    (answer, left)
}

/// Adds the record of a commit, if it is possible. Returns whether it was added.
fn intend_commit<S: Store + Drop>(
    alloc: Global,
    book: &Book,
    kept: &mut Kept<S>,
    basis: u64,
    change: &MadeChange,
) -> Result<bool, KeptFault>
    ensures ok { IfOk result (IsIntended book.now (Commit basis change.now) (S.holds kept.old.store) (S.holds kept.new.store) kept.old.is_lost kept.new.is_lost) }
    ensures longer { OnOk result (kept.old.length ≤ kept.new.length) }
    ensures err { IfErr result (λ fault. FailsToKeep fault (S.holds kept.old.store) (S.holds kept.new.store) kept.old.is_lost kept.new.is_lost) }
{
    let asked = AskedChange::Commit(basis, &change.get().edits);
    intend_possible(alloc, book, kept, &asked)
}

/// Makes one step of a book whose changes are kept, and returns a copy of the entry that it adds. The record of a change is in the store, and
/// flushed, before the change is made. A change whose record the store does not take is refused, with this refusal. One that is refused for
/// another reason has no record.
pub fn kept_step<S: Store + Drop, Q: Question>(
    alloc: Global,
    book: &mut Book,
    kept: &mut Kept<S>,
    question: Q,
    unkept: Refusal,
) -> (Q::Answer, Option<Entry>)
    ensures step { KeptStep unkept book.old (Q.event question) (Q.reply result.0) result.1 book.new }
    ensures keeps { (heading : List ℕ) (limits : BookLimits) → KeepsChanges heading limits (S.holds kept.old.store) kept.old.is_lost book.old
        → KeepsChanges heading limits (S.holds kept.new.store) kept.new.is_lost book.new }
{
    let before = kept.length;
    match intend_for(alloc, book, kept, &question) {
        Ok(true) => make_intended(book, kept, question, before),
        Ok(false) => book.journal_step(question),
        Err(KeptFault::Memory) => (question.refuse(Refusal::Memory), None),
        Err(_) => (question.refuse(unkept), None),
    }
}

/// Makes the step of a commit whose base is known to have the current files, as `kept_step` makes it. No text is compared.
pub fn kept_commit<S: Store + Drop>(
    alloc: Global,
    book: &mut Book,
    kept: &mut Kept<S>,
    basis: u64,
    change: MadeChange,
    unkept: Refusal,
) -> (Result<u64, Refusal>, Option<Entry>)
    requires { change.base ≡ book.old.current.files }
    ensures step { KeptStep unkept book.old (Commit basis change) (answered result.0) result.1 book.new }
    ensures keeps { (heading : List ℕ) (limits : BookLimits) → KeepsChanges heading limits (S.holds kept.old.store) kept.old.is_lost book.old
        → KeepsChanges heading limits (S.holds kept.new.store) kept.new.is_lost book.new }
{
    let before = kept.length;
    match intend_commit(alloc, book, kept, basis, &change) {
        Ok(true) => commit_intended(book, kept, basis, change, before),
        Ok(false) => book.commit_on_current(basis, change),
        Err(KeptFault::Memory) => (Err(Refusal::Memory), None),
        Err(_) => (Err(unkept), None),
    }
}
