//! The questions that change the workspace: a commit, an undo and a redo.
ghost use Rattle.std.specs.Prelude.{◌≡◌, ◌+◌, ◌≤◌, None, length, vec_capacity};
ghost use Rattle.history_machine.specs.Journal.{edits_of, subject_after, told_of};
ghost use Rattle.history_book.specs.Questions.{changing_event, edits_made};
ghost use Rattle.history_machine.specs.Machine.{HasNumbersLeft};
ghost use Rattle.history_machine.specs.JournalSteps.{LeavesEntry};
ghost use Rattle.history_machine.specs.Step.{AnswersOrLacks, EntersEvent, committed, done};
ghost use Rattle.history_machine.specs.declared.event.Event.TheVariants.{Commit};

use crate::reasons::refusal_told;
use crate::{Answered, Asked, Content, Question, enter};
use base_files::Refusal;
use history_machine::{Entry, EntryEdits, EntryKind, Told};
use history_records::AskedChange;
use workspace_snapshot::MadeChange;

/// A commit, an undo or a redo. The number is the basis: the state that the client believes to be current. The answer is the number of the
/// state that is current after it.
pub enum Changing {
    /// It is admitted where its base has the current files, byte for byte.
    Commit(u64, MadeChange),
    Undo(u64),
    Redo(u64),
}

/// The answer to an undo or a redo, with what its entry keeps of it.
fn answered(outcome: Result<u64, Refusal>) -> Answered<Result<u64, Refusal>>
    ensures answer { result.answer ≡ outcome }
    ensures out { result.out ≡ told_of (done outcome) }
    ensures subject { result.subject ≡ subject_after None (done outcome) }
    ensures made { result.made ≡ None }
{
    match outcome {
        Ok(number) => Answered::new(Ok(number), Some(Told::Done(number)), None),
        Err(refusal) => {
            let out = refusal_told(&refusal);
            Answered::new(Err(refusal), out, None)
        }
    }
}

/// The answer to a commit, with what its entry keeps of it: the edits, if the change is admitted.
fn answered_edits(outcome: Result<(u64, EntryEdits), Refusal>) -> Answered<Result<u64, Refusal>>
    ensures answer { done result.answer ≡ committed outcome }
    ensures out { result.out ≡ told_of (committed outcome) }
    ensures subject { result.subject ≡ subject_after None (committed outcome) }
    ensures made { result.made ≡ edits_made outcome }
{
    match outcome {
        Ok((number, edits)) => Answered {
            answer: Ok(number),
            out: Some(Told::Done(number)),
            subject: None,
            made: Some(edits),
        },
        Err(refusal) => {
            let out = refusal_told(&refusal);
            Answered::new(Err(refusal), out, None)
        }
    }
}

/// Answers a commit. Its base is compared with the current files.
fn commit(content: &mut Content, basis: u64, change: MadeChange) -> Answered<Result<u64, Refusal>>
    requires { HasNumbersLeft content.old }
    ensures answer { AnswersOrLacks content.old (Commit basis change) (done result.answer) content.new }
    ensures out { result.out ≡ told_of (done result.answer) }
    ensures subject { result.subject ≡ subject_after None (done result.answer) }
    ensures made { result.made ≡ edits_of (Commit basis change) (done result.answer) }
{
    answered_edits(content.commit(basis, change))
}

/// Answers a commit whose base is known to have the current files.
fn commit_on_current(
    content: &mut Content,
    basis: u64,
    change: MadeChange,
) -> Answered<Result<u64, Refusal>>
    requires numbers { HasNumbersLeft content.old }
    requires base { change.base ≡ content.old.current.files }
    ensures answer { AnswersOrLacks content.old (Commit basis change) (done result.answer) content.new }
    ensures out { result.out ≡ told_of (done result.answer) }
    ensures subject { result.subject ≡ subject_after None (done result.answer) }
    ensures made { result.made ≡ edits_of (Commit basis change) (done result.answer) }
{
    answered_edits(content.commit_on_current(basis, change))
}

/// Answers a commit whose base is known to have the current files, and adds its entry to the journal, which has room for it. Returns the
/// answer, and a copy of the entry.
pub(crate) fn enter_on_current(
    content: &mut Content,
    journal: &mut Vec<Entry>,
    basis: u64,
    change: MadeChange,
) -> (Result<u64, Refusal>, Option<Entry>)
    requires numbers { HasNumbersLeft content.old }
    requires base { change.base ≡ content.old.current.files }
    requires room { length journal.old.items + 1 ≤ vec_capacity journal.old }
    ensures keeps { EntersEvent content.old journal.old.items (Commit basis change) (done result.0) content.new journal.new.items }
    ensures copy { LeavesEntry content.old.current.number (Commit basis change) (done result.0) result.1 }
    ensures capacity { vec_capacity journal.new ≡ vec_capacity journal.old }
{
    let asked = Asked::alone(EntryKind::Commit, basis);
    let answered = commit_on_current(content, basis, change);
    enter(journal, asked, answered)
}

impl Question for Changing {
    type Answer = Result<u64, Refusal>;

    ghost event = { changing_event };

    ghost reply = { done };

    fn kind(&self) -> EntryKind {
        match self {
            Changing::Commit(..) => EntryKind::Commit,
            Changing::Undo(_) => EntryKind::Undo,
            Changing::Redo(_) => EntryKind::Redo,
        }
    }

    fn change(&self) -> Option<AskedChange<'_>> {
        match self {
            Changing::Commit(basis, change) => {
                Some(AskedChange::Commit(*basis, &change.get().edits))
            }
            Changing::Undo(basis) => Some(AskedChange::Undo(*basis)),
            Changing::Redo(basis) => Some(AskedChange::Redo(*basis)),
        }
    }

    fn asked(&self, _content: &Content) -> Asked {
        match self {
            Changing::Commit(basis, _) => Asked::alone(EntryKind::Commit, *basis),
            Changing::Undo(basis) => Asked::alone(EntryKind::Undo, *basis),
            Changing::Redo(basis) => Asked::alone(EntryKind::Redo, *basis),
        }
    }

    fn ask(self, content: &mut Content, _journal: &[Entry]) -> Answered<Result<u64, Refusal>> {
        match self {
            Changing::Commit(basis, change) => commit(content, basis, change),
            Changing::Undo(basis) => answered(content.undo(basis)),
            Changing::Redo(basis) => answered(content.redo(basis)),
        }
    }

    fn refuse(self, refusal: Refusal) -> Result<u64, Refusal> {
        match self {
            Changing::Commit(_, change) => {
                drop(change);
                Err(refusal)
            }
            Changing::Undo(_) | Changing::Redo(_) => Err(refusal),
        }
    }
}
