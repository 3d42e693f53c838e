//! Answers an event: changes the content, and adds the event's entry to the journal.
ghost use Rattle.std.specs.Prelude.{◌≡◌, ◌+◌, ◌≤◌, length, vec_capacity};
ghost use Rattle.history_machine.specs.Machine.{HasNumbersLeft};
ghost use Rattle.history_machine.specs.JournalSteps.{LeavesEntry};
ghost use Rattle.history_machine.specs.Journal.{event_basis, event_kind};
ghost use Rattle.history_machine.specs.Step.{HasPlace, EntersEvent};
ghost use Rattle.history_book.specs.Entered.{entry_left, with_entry};

use crate::content::Content;
use crate::entering::add_entry;
use crate::question::{Answered, Asked, Question};
use history_machine::{Entry, Line};

/// Adds the entry of an answered event to the journal, if the event has one. Returns the answer, and a copy of the entry.
pub fn enter<A>(journal: &mut Vec<Entry>, asked: Asked, answered: Answered<A>) -> (A, Option<Entry>)
    requires { length journal.old.items + 1 ≤ vec_capacity journal.old }
    ensures answer { result.0 ≡ answered.answer }
    ensures copy { result.1 ≡ entry_left asked answered.out answered.subject answered.made }
    ensures journal { journal.new.items ≡ with_entry journal.old.items result.1 }
    ensures capacity { vec_capacity journal.new ≡ vec_capacity journal.old }
{
    let Answered {
        answer,
        out,
        subject,
        made,
    } = answered;
    let Some(out) = out else {
        return (answer, None);
    };
    let line = Line {
        kind: asked.kind,
        basis: asked.basis,
        out,
    };
    let copy = add_entry(journal, line, subject, made);
    (answer, Some(copy))
}

/// Answers an event, and adds its entry to the journal, which has room for it. Returns the answer, and a copy of the entry.
pub fn answer<Q: Question>(
    content: &mut Content,
    journal: &mut Vec<Entry>,
    asked: Asked,
    question: Q,
) -> (Q::Answer, Option<Entry>)
    requires numbers { HasNumbersLeft content.old }
    requires due { length journal.old.items + length content.old.out.jobs ≤ vec_capacity journal.old }
    requires place { HasPlace (vec_capacity journal.old) (length journal.old.items + length content.old.out.jobs) content.old.out (Q.event question) }
    requires kind { asked.kind ≡ event_kind (Q.event question) }
    requires basis { asked.basis ≡ event_basis content.old.current.number (Q.event question) }
    ensures keeps { EntersEvent content.old journal.old.items (Q.event question) (Q.reply result.0) content.new journal.new.items }
    ensures copy { LeavesEntry content.old.current.number (Q.event question) (Q.reply result.0) result.1 }
    ensures capacity { vec_capacity journal.new ≡ vec_capacity journal.old }
{
    let answered = question.ask(content, journal.as_slice());
    enter(journal, asked, answered)
}
