//! The questions that change no state: a look, a log and a Take.
ghost use Rattle.std.specs.Prelude.{◌≡◌};
ghost use Rattle.history_machine.specs.Journal.{shown_at};
ghost use Rattle.history_book.specs.Questions.{logged};
ghost use Rattle.history_machine.specs.Step.{looked, taken};
ghost use Rattle.history_machine.specs.declared.event.Event.TheVariants.{Log, Look, Take};

use crate::reasons::refusal_told;
use crate::{Answered, Asked, Content, Question};
use base_files::Refusal;
use build_unit::Job;
use history_machine::{Entry, EntryKind, ShownEntry, Told, View};
use history_records::AskedChange;

/// Asks for a view of the current state.
#[derive(Clone, Copy)]
pub struct Looking;

/// Asks for the entry of this number. The answer is the number of the current state, and what is shown of the entry.
#[derive(Clone, Copy)]
pub struct Logging(pub u64);

/// Asks for a Job of the first package that waits to be built.
#[derive(Clone, Copy)]
pub struct Taking;

/// What is shown of the entry of this number, where the journals that were closed have `begun` entries.
fn shown_at(begun: u64, journal: &[Entry], number: u64) -> ShownEntry
    ensures { result ≡ shown_at begun journal.now number }
{
    if number < begun {
        return ShownEntry::Closed(begun);
    }
    match journal.get((number - begun) as usize) {
        Some(entry) => ShownEntry::OfLine(entry.line),
        None => ShownEntry::Unwritten,
    }
}

impl Question for Looking {
    type Answer = Result<View, Refusal>;

    ghost event = { λ _. Look };

    ghost reply = { looked };

    fn kind(&self) -> EntryKind {
        EntryKind::Look
    }

    fn change(&self) -> Option<AskedChange<'_>> {
        None
    }

    fn asked(&self, content: &Content) -> Asked {
        Asked::alone(EntryKind::Look, content.number())
    }

    fn ask(self, content: &mut Content, _journal: &[Entry]) -> Answered<Result<View, Refusal>> {
        match content.look() {
            Ok(view) => {
                let out = Some(Told::Done(view.snapshot.number()));
                Answered::new(Ok(view), out, None)
            }
            Err(refusal) => {
                let out = refusal_told(&refusal);
                Answered::new(Err(refusal), out, None)
            }
        }
    }

    fn refuse(self, refusal: Refusal) -> Result<View, Refusal> {
        Err(refusal)
    }
}

impl Question for Logging {
    type Answer = Result<(u64, ShownEntry), Refusal>;

    ghost event = { λ asked. Log asked.0 };

    ghost reply = { logged };

    fn kind(&self) -> EntryKind {
        EntryKind::Log
    }

    fn change(&self) -> Option<AskedChange<'_>> {
        None
    }

    fn asked(&self, content: &Content) -> Asked {
        Asked::alone(EntryKind::Log, content.number())
    }

    fn ask(
        self,
        content: &mut Content,
        journal: &[Entry],
    ) -> Answered<Result<(u64, ShownEntry), Refusal>> {
        let number = content.number();
        let shown = (number, shown_at(content.begun(), journal, self.0));
        Answered::new(Ok(shown), Some(Told::Done(number)), Some(self.0))
    }

    fn refuse(self, refusal: Refusal) -> Result<(u64, ShownEntry), Refusal> {
        Err(refusal)
    }
}

impl Question for Taking {
    type Answer = Result<Job, Refusal>;

    ghost event = { λ _. Take };

    ghost reply = { taken };

    fn kind(&self) -> EntryKind {
        EntryKind::Take
    }

    fn change(&self) -> Option<AskedChange<'_>> {
        None
    }

    fn asked(&self, content: &Content) -> Asked {
        Asked::alone(EntryKind::Take, content.number())
    }

    fn ask(self, content: &mut Content, _journal: &[Entry]) -> Answered<Result<Job, Refusal>> {
        match content.take() {
            Ok(job) => {
                let out = Some(Told::Done(job.number()));
                let subject = Some(job.ticket());
                Answered::new(Ok(job), out, subject)
            }
            Err(refusal) => {
                let out = refusal_told(&refusal);
                Answered::new(Err(refusal), out, None)
            }
        }
    }

    fn refuse(self, refusal: Refusal) -> Result<Job, Refusal> {
        Err(refusal)
    }
}
