//! The questions of a book: each is an event of one kind, and has a type for its answers.
ghost use Rattle.std.specs.Prelude.{◌≡◌, ◌↔◌, IsTrue, None, false, option_map};
ghost use Rattle.history_book.specs.Needed.{entries_needed};
ghost use Rattle.history_machine.specs.Journal.{ShowsLine, event_basis, edits_of, event_kind, subject_after, event_subject, told_of};
ghost use Rattle.history_machine.specs.Machine.{HasNumbersLeft};
ghost use Rattle.history_machine.specs.Step.{AnswersOrLacks, BringsOut, refused};
ghost use Rattle.history_machine.specs.declared.event.Event.{Event};
ghost use Rattle.history_records.specs.Asked.{kept_of};
ghost use Rattle.law_changes.specs.Changes.{change_asked};
ghost use Rattle.history_machine.specs.declared.event.Reply.{Reply};

use crate::content::Content;
use base_files::Refusal;
use history_machine::{Entry, EntryEdits, EntryKind, Told};
use history_records::AskedChange;

/// What the entry of an event keeps that is known before the answer, and whether the event's Job is out.
#[derive(Clone, Copy)]
pub struct Asked {
    pub kind: EntryKind,
    pub basis: u64,
    /// Whether the event hands in a Job that is out.
    pub is_out: bool,
}

/// The answer to an event, and what the event's entry keeps of the answer.
pub struct Answered<A> {
    pub answer: A,
    /// The outcome for the entry, or `None` where the event has no entry.
    pub out: Option<Told>,
    /// The number of the entry that a log asks for, or the ticket of the Job that is handed out or in.
    pub subject: Option<u64>,
    /// The edits of an admitted change.
    pub made: Option<EntryEdits>,
}

/// An event of one kind. The type of its answers determines which replies it may get.
pub trait Question {
    type Answer;

    /// The event that the question is.
    ghost event: { Self → Event };

    /// The reply that an answer is.
    ghost reply: { Self.Answer → Reply };

    /// The kind of the event.
    fn kind(&self) -> EntryKind
        ensures { result ≡ event_kind (event self.now) };

    /// The change for which the event asks, if it asks for one.
    fn change(&self) -> Option<AskedChange<'_>>
        ensures { option_map kept_of result ≡ change_asked (event self.now) };

    /// The kind and the basis of the event, and whether it hands in a Job that is out.
    fn asked(&self, content: &Content) -> Asked
        ensures kind { result.kind ≡ event_kind (event self.now) }
        ensures basis { result.basis ≡ event_basis content.now.current.number (event self.now) }
        ensures out { IsTrue result.is_out ↔ BringsOut content.now.out (event self.now) };

    /// Answers the question: changes the content, but not the journal, of which a log is shown an entry. Room is made before anything
    /// changes, so want of memory changes nothing.
    fn ask(self, content: &mut Content, journal: &[Entry]) -> Answered<Self::Answer>
        requires { HasNumbersLeft content.old }
        ensures answer { AnswersOrLacks content.old (event self) (reply result.answer) content.new }
        ensures shows { ShowsLine content.old.begun journal.now (event self) (reply result.answer) }
        ensures out { result.out ≡ told_of (reply result.answer) }
        ensures subject { result.subject ≡ subject_after (event_subject (event self)) (reply result.answer) }
        ensures made { result.made ≡ edits_of (event self) (reply result.answer) };

    /// The answer that refuses the question, and brings back its Job and what was built.
    fn refuse(self, refusal: Refusal) -> Self::Answer
        ensures { reply result ≡ refused (event self) refusal };
}

impl Asked {
    /// The kind and the basis of an event that hands in no Job.
    pub fn alone(kind: EntryKind, basis: u64) -> Asked
        ensures { result ≡ record { kind = kind; basis = basis; is_out = false } }
    {
        Asked {
            kind,
            basis,
            is_out: false,
        }
    }

    /// For how many entries the journal needs room before the event, beside those that are due.
    pub fn entries_needed(&self) -> u64
        ensures { result ≡ entries_needed self.now }
    {
        if self.is_out {
            return 0;
        }
        match self.kind {
            EntryKind::Take => 2,
            _ => 1,
        }
    }
}

impl<A> Answered<A> {
    /// An answer whose entry keeps no edits.
    pub fn new(answer: A, out: Option<Told>, subject: Option<u64>) -> Answered<A>
        ensures answer { result.answer ≡ answer }
        ensures out { result.out ≡ out }
        ensures subject { result.subject ≡ subject }
        ensures made { result.made ≡ None }
    {
        Answered {
            answer,
            out,
            subject,
            made: None,
        }
    }
}
