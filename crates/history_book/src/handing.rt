//! The questions that hand a Job in: a delivery, and a Job that is given back.
ghost use Rattle.std.specs.Prelude.{◌≡◌, ◌+◌, ◌≤◌, ◌↔◌, IsTrue, None, Some, length, vec_capacity};
ghost use Rattle.build_unit.specs.Jobs.{IsOut};
ghost use Rattle.history_machine.specs.Journal.{subject_after, told_of};
ghost use Rattle.history_machine.specs.JournalSteps.{LeavesEntry};
ghost use Rattle.history_machine.specs.Step.{AnswersOrLacks, EntersEvent};
ghost use Rattle.history_machine.specs.declared.event.Event.TheVariants.{Deliver};
ghost use Rattle.history_book.specs.CurrentInputs.{HasCurrentInputs};
ghost use Rattle.history_book.specs.Handed.{handed};
ghost use Rattle.history_book.specs.Questions.{handing_event};

use crate::reasons::refusal_told;
use crate::{Answered, Asked, Content, Handed, Question, enter};
use base_files::Refusal;
use build_unit::{Built, Job};
use history_machine::{Entry, EntryKind, Told};
use history_records::AskedChange;

/// Hands in a Job.
pub enum HandingIn {
    /// The Job was built: hands in its unit too.
    Deliver(Job, Built),
    /// The Job was not built.
    GiveBack(Job),
}

/// The kind and the basis of an event that hands in a Job, and whether the Job is out.
pub(crate) fn asked_of(kind: EntryKind, job: &Job, content: &Content) -> Asked
    ensures kind { result.kind ≡ kind }
    ensures basis { result.basis ≡ job.now.number }
    ensures out { IsTrue result.is_out ↔ IsOut content.now.out job.now }
{
    Asked {
        kind,
        basis: job.number(),
        is_out: content.is_out(job),
    }
}

/// The answer to a Job with this ticket, with what its entry keeps of it.
fn answered(ticket: u64, outcome: Handed) -> Answered<Handed>
    ensures answer { result.answer ≡ outcome }
    ensures out { result.out ≡ told_of (handed outcome) }
    ensures subject { result.subject ≡ subject_after (Some ticket) (handed outcome) }
    ensures made { result.made ≡ None }
{
    let subject = Some(ticket);
    match outcome {
        Handed::Done(number) => {
            Answered::new(Handed::Done(number), Some(Told::Done(number)), subject)
        }
        Handed::Refused(refusal) => {
            let out = refusal_told(&refusal);
            Answered::new(Handed::Refused(refusal), out, subject)
        }
        Handed::Back(refusal, job, built) => {
            let out = refusal_told(&refusal);
            Answered::new(Handed::Back(refusal, job, built), out, subject)
        }
    }
}

/// Answers a delivery that is known to have the inputs of its package in the current files.
fn deliver_on_current(content: &mut Content, job: Job, built: Built) -> Answered<Handed>
    requires { HasCurrentInputs content.old.current.files job built }
    ensures answer { AnswersOrLacks content.old (Deliver job built) (handed result.answer) content.new }
    ensures out { result.out ≡ told_of (handed result.answer) }
    ensures subject { result.subject ≡ subject_after (Some job.ticket) (handed result.answer) }
    ensures made { result.made ≡ None }
{
    let ticket = job.ticket();
    answered(ticket, content.deliver_on_current(job, built))
}

/// Answers a delivery that is known to have the inputs of its package in the current files. Adds its entry to the journal, which has room
/// for it. Returns the answer, and a copy of the entry.
pub(crate) fn enter_delivery(
    content: &mut Content,
    journal: &mut Vec<Entry>,
    job: Job,
    built: Built,
) -> (Handed, Option<Entry>)
    requires brings { HasCurrentInputs content.old.current.files job built }
    requires room { length journal.old.items + 1 ≤ vec_capacity journal.old }
    ensures keeps { EntersEvent content.old journal.old.items (Deliver job built) (handed result.0) content.new journal.new.items }
    ensures copy { LeavesEntry content.old.current.number (Deliver job built) (handed result.0) result.1 }
    ensures capacity { vec_capacity journal.new ≡ vec_capacity journal.old }
{
    let asked = asked_of(EntryKind::Deliver, &job, content);
    let answered = deliver_on_current(content, job, built);
    enter(journal, asked, answered)
}

impl Question for HandingIn {
    type Answer = Handed;

    ghost event = { handing_event };

    ghost reply = { handed };

    fn kind(&self) -> EntryKind {
        match self {
            HandingIn::Deliver(..) => EntryKind::Deliver,
            HandingIn::GiveBack(_) => EntryKind::GiveBack,
        }
    }

    fn change(&self) -> Option<AskedChange<'_>> {
        None
    }

    fn asked(&self, content: &Content) -> Asked {
        match self {
            HandingIn::Deliver(job, _) => asked_of(EntryKind::Deliver, job, content),
            HandingIn::GiveBack(job) => asked_of(EntryKind::GiveBack, job, content),
        }
    }

    fn ask(self, content: &mut Content, _journal: &[Entry]) -> Answered<Handed> {
        match self {
            HandingIn::Deliver(job, built) => {
                let ticket = job.ticket();
                answered(ticket, content.deliver(job, built))
            }
            HandingIn::GiveBack(job) => {
                let ticket = job.ticket();
                answered(ticket, content.give_back(job))
            }
        }
    }

    fn refuse(self, refusal: Refusal) -> Handed {
        match self {
            HandingIn::Deliver(job, built) => Handed::Back(refusal, job, Some(built)),
            HandingIn::GiveBack(job) => Handed::Back(refusal, job, None),
        }
    }
}
