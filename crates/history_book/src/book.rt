//! The book: the states of a workspace, the Jobs that are out, and the journal of the events.
ghost use Rattle.std.specs.Prelude.{◌≡◌, ◌+◌, ◌*◌, ◌^◌, ◌<◌, ◌≤◌, ◌↔◌, ◌⊎◌, max, IfErr, IfOk, IsTrue, OnErr, OnOk, length, vec_capacity};
ghost use Rattle.base_edits.specs.Fits.{Fits};
ghost use Rattle.workspace_check.specs.Found.{KnowsVerdicts};
ghost use Rattle.history_machine.specs.Machine.{closed, content, opening};
ghost use Rattle.history_machine.specs.Chapters.{HasHistory};
ghost use Rattle.history_machine.specs.JournalSteps.{JournalStep};
ghost use Rattle.history_machine.specs.Run.{IsReplay};
ghost use Rattle.history_machine.specs.Step.{Step, done, entries_due};
ghost use Rattle.history_machine.specs.declared.event.Event.TheVariants.{Commit, Deliver};
ghost use Rattle.history_book.specs.CurrentInputs.{HasCurrentInputs};
ghost use Rattle.history_book.specs.Handed.{handed};
ghost use Rattle.history_machine.specs.Waiting.{FindsWaiting};
ghost use Rattle.history_book.specs.WorkLeft.{HasJob, IsWaitEnd};

use crate::changing::enter_on_current;
use crate::handing::{asked_of, enter_delivery};
use crate::{Asked, Content, Handed, Question, answer};
use base_edits::EditSet;
use base_files::{Limits, Refusal};
use build_kept::KnownUnits;
use build_unit::{Built, Job};
use history_machine::{Entry, EntryKind, KnownSnapshot};
use std::alloc::{AllocError, Global};
use std::marker::Model;
use std::mem;
use workspace_check::Known;
use workspace_graph::Graph;
use workspace_snapshot::MadeChange;

/// The states of a workspace, with a cursor on the current one, the Jobs that are out, and the journal. Contracts see a book as a machine
/// of events. `close` ends it.
#[must_use]
pub struct Book {
    content: Content,
    journal: Vec<Entry>,
}

/// The invariant of each book says that its content is what its events make of the opening one, whatever journals were closed meanwhile. It
/// also says that all finished units are right.
impl Model for Book {
    ghost use Rattle.std.specs.Prelude.{◌+◌, ◌^◌, ◌≤◌, length, vec_capacity};
    ghost use Rattle.history_machine.specs.Codes.{entry_code};
    ghost use Rattle.history_machine.specs.Machine.{Machine, with_journal};
    ghost use Rattle.history_machine.specs.Chapters.{HasHistory};
    ghost use Rattle.history_machine.specs.Current.{UnitsAreCurrent};
    ghost use Rattle.std.specs.Coded.{codes};
    ghost use Rattle.build_unit.specs.Codes.{unit_code, workspace_code};

    ghost Value = { Machine };

    ghost coded = { Prim.hlevel (codes, unit_code, workspace_code, entry_code) };

    ghost view = { λ a. with_journal a.content a.journal.items };

    ghost invariant = { λ a.
        (a.content.next ≤ a.content.begun + length a.journal.items + 1)
        × (a.content.visit ≤ a.content.begun + length a.journal.items)
        × (a.content.out.ticket ≤ a.content.begun + length a.journal.items)
        × (length a.journal.items + length a.content.out.jobs ≤ a.content.limits.journal)
        × (length a.journal.items + length a.content.out.jobs ≤ vec_capacity a.journal)
        × ∥ HasHistory (with_journal a.content a.journal.items) ∥₁
        × UnitsAreCurrent (with_journal a.content a.journal.items)
        × (a.content.begun ≤ 2 ^ 63) };
}

/// For how many entries the journal needs room before a Take: its own, and that of its Job.
const ENTRIES_OF_TAKE: u64 = 2;

/// Makes room for more entries. Where the journal grows it has room for as many again as it has, so that it seldom grows.
fn grow(journal: &mut Vec<Entry>, needed: usize) -> Result<(), AllocError>
    requires { needed ≤ 1000002 }
    ensures items { journal.new.items ≡ journal.old.items }
    ensures grows { vec_capacity journal.old ≤ vec_capacity journal.new }
    ensures ok { OnOk result (length journal.new.items + needed ≤ vec_capacity journal.new) }
    ensures room { vec_capacity journal.new ≤ max (vec_capacity journal.old) (2 * length journal.old.items + needed) }
{
    if needed <= journal.capacity() - journal.len() {
        return Ok(());
    }
    journal.reserve_exact(journal.len() + needed)
}

/// Makes room for the entry of an event, and for the entries that are due for the Jobs out. For the entry of a Job that is out the room was
/// made when it was taken.
fn make_room(journal: &mut Vec<Entry>, content: &Content, asked: &Asked) -> Result<(), AllocError>
    requires { length content.now.out.jobs ≤ 1000000 }
    ensures items { journal.new.items ≡ journal.old.items }
    ensures grows { vec_capacity journal.old ≤ vec_capacity journal.new }
    ensures ok { OnOk result ((IsTrue asked.now.is_out → ⊥) → length journal.new.items + length content.now.out.jobs + 2 ≤ vec_capacity journal.new) }
    ensures room { vec_capacity journal.new ≤ max (vec_capacity journal.old) (2 * length journal.old.items + length content.now.out.jobs + 2) }
    ensures err { OnErr result (IsTrue asked.now.is_out → ⊥) }
{
    if asked.is_out {
        return Ok(());
    }
    grow(journal, content.jobs() + 2)
}

impl Book {
    /// A book of one state, which has the number 0 and no files. No Job is out, and the journal is empty.
    pub fn new(alloc: Global, limits: Limits) -> Result<Book, AllocError>
        ensures { IfOk result (λ book. book ≡ opening limits) }
    {
        let content = Content::new(alloc, limits)?;
        Ok(Book {
            content,
            journal: Vec::new(alloc),
        })
    }

    /// The entries of the events since a journal was closed, each with its reply, the oldest first.
    pub fn journal(&self) -> &[Entry]
        ensures journal { result.now ≡ self.now.journal }
        ensures reached { ∥ HasHistory self.now ∥₁ }
        ensures replay { self.now.begun ≡ 0 → ∥ IsReplay self.now.limits self.now.journal (content self.now) ∥₁ }
    {
        self.journal.as_slice()
    }

    /// How many entries the journals have that were closed.
    pub fn begun(&self) -> u64
        ensures { result ≡ self.now.begun }
    {
        self.content.begun()
    }

    /// The number of the current state. It is no event.
    pub fn number(&self) -> u64
        ensures { result ≡ self.now.current.number }
    {
        self.content.number()
    }

    /// The current files. It is no event.
    pub fn files(&self) -> &Graph
        ensures { result.now ≡ self.now.current.files }
    {
        self.content.files()
    }

    /// How many steps undo can make. It is no event.
    pub fn undo_steps(&self) -> usize
        ensures { result ≡ length self.now.earlier }
    {
        self.content.undo_steps()
    }

    /// How many steps redo can make. It is no event.
    pub fn redo_steps(&self) -> usize
        ensures { result ≡ length self.now.later }
    {
        self.content.redo_steps()
    }

    /// Whether edits fit the current files. It is no event.
    pub fn fits(&self, edits: &EditSet) -> bool
        ensures { IsTrue result ↔ Fits edits.now self.now.current.files }
    {
        self.content.fits(edits)
    }

    /// How many entries the journal has, and is still to have for the Jobs out.
    fn entries_due(&self) -> u64
        ensures { result ≡ entries_due self.now }
    {
        self.journal.len() as u64 + self.content.out.len() as u64
    }

    /// Whether the journal has room for `needed` entries beside those that are due.
    fn has_room(&self, needed: u64) -> bool
        ensures { IsTrue result ↔ (entries_due self.now + needed ≤ self.now.limits.journal) }
    {
        self.content.limits.journal - self.entries_due() >= needed
    }

    /// Whether a Take hands out a Job, unless memory is wanting. It is no event.
    pub fn has_job(&self) -> bool
        ensures { IsTrue result ↔ HasJob self.now }
    {
        if !self.has_room(ENTRIES_OF_TAKE) {
            return false;
        }
        self.content.has_waiting()
    }

    /// The number of the first package of the current state that waits to be built. It is no event.
    pub fn first_waiting(&self) -> Option<usize>
        ensures { FindsWaiting self.now.current self.now.out self.now.visit result }
    {
        self.content.first_waiting()
    }

    /// A snapshot of the current state, with what is known of its packages. It is no event.
    pub fn snapshot(&self) -> Result<KnownSnapshot, AllocError>
        ensures { IfOk result (λ snapshot. snapshot ≡ record { number = self.now.current.number; limits = self.now.limits; files = self.now.current.files }) }
    {
        self.content.snapshot()
    }

    /// How a wait for all packages ends: `Ok` where each is finished, and a refusal where none can be built any more, since the journal is
    /// full. It is `None` where the wait goes on. It is no event.
    pub fn wait_end(&self) -> Option<Result<(), Refusal>>
        ensures end { IsWaitEnd self.now result }
        ensures reached { ∥ HasHistory self.now ∥₁ }
    {
        if self.content.has_all_finished() {
            return Some(Ok(()));
        }
        if !self.content.has_no_job_out() {
            return None;
        }
        if !self.has_room(ENTRIES_OF_TAKE) {
            return Some(Err(Refusal::JournalFull));
        }
        None
    }

    /// Makes one step of the machine, and returns a copy of the entry that it adds. Room is made before anything changes. So a refusal for
    /// want of memory, or of room in the journal, changes nothing and keeps no entry. The copy of the entry of a Job that is given back
    /// takes no memory.
    pub fn journal_step<Q: Question>(&mut self, question: Q) -> (Q::Answer, Option<Entry>)
        ensures { JournalStep self.old (Q.event question) (Q.reply result.0) result.1 self.new }
    {
        let asked = question.asked(&self.content);
        if !self.has_room(asked.entries_needed()) {
            return (question.refuse(Refusal::JournalFull), None);
        }
        match make_room(&mut self.journal, &self.content, &asked) {
            Ok(()) => answer(&mut self.content, &mut self.journal, asked, question),
            Err(_) => (question.refuse(Refusal::Memory), None),
        }
    }

    /// Makes one step of the machine. Room is made before anything changes. So a refusal for want of memory, or of room in the journal,
    /// changes nothing and keeps no entry.
    pub fn step<Q: Question>(&mut self, question: Q) -> Q::Answer
        ensures { Step self.old (Q.event question) (Q.reply result) self.new }
    {
        let (answer, kept) = self.journal_step(question);
        drop(kept);
        answer
    }

    /// Makes the step of a `Changing::Commit` whose base is known to have the current files. It compares the basis with the current number,
    /// and no text. Returns the answer, and a copy of the entry that it adds.
    pub fn commit_on_current(
        &mut self,
        basis: u64,
        change: MadeChange,
    ) -> (Result<u64, Refusal>, Option<Entry>)
        requires { change.base ≡ self.old.current.files }
        ensures { JournalStep self.old (Commit basis change) (done result.0) result.1 self.new }
    {
        let asked = Asked::alone(EntryKind::Commit, basis);
        if !self.has_room(asked.entries_needed()) {
            return (Err(Refusal::JournalFull), None);
        }
        match make_room(&mut self.journal, &self.content, &asked) {
            Err(_) => (Err(Refusal::Memory), None),
            Ok(()) => enter_on_current(&mut self.content, &mut self.journal, basis, change),
        }
    }

    /// Makes the step of a `HandingIn::Deliver`. The Job, and what was built, are known to have the inputs of their package in the current
    /// files. It compares numbers and packages, and no text. Returns the answer, and a copy of the entry that it adds.
    pub fn deliver_on_current(&mut self, job: Job, built: Built) -> (Handed, Option<Entry>)
        requires { HasCurrentInputs self.old.current.files job built }
        ensures { JournalStep self.old (Deliver job built) (handed result.0) result.1 self.new }
    {
        let asked = asked_of(EntryKind::Deliver, &job, &self.content);
        if !self.has_room(asked.entries_needed()) {
            return (Handed::Back(Refusal::JournalFull, job, Some(built)), None);
        }
        match make_room(&mut self.journal, &self.content, &asked) {
            Err(_) => (Handed::Back(Refusal::Memory, job, Some(built)), None),
            Ok(()) => enter_delivery(&mut self.content, &mut self.journal, job, built),
        }
    }

    /// Keeps the findings of the packages of `files` whose closures have the same texts in the current files. It is no event: it affects how
    /// long later questions take, and the machine stays as it is.
    pub fn learn(&mut self, files: &Graph, known: Known)
        requires { KnowsVerdicts files.now known }
        ensures { self.new ≡ self.old }
    {
        self.content.learn(files, known);
    }

    /// Keeps the findings of the packages of the current files. No file is compared.
    pub fn learn_current(&mut self, known: Known)
        requires { KnowsVerdicts self.old.current.files known }
        ensures { self.new ≡ self.old }
    {
        self.content.learn_current(known);
    }

    /// What is known of the units of the current state's packages. It is no event.
    pub fn known_units(&self) -> Result<KnownUnits, AllocError>
        ensures { IfOk result (λ units. units ≡ self.now.current.files) }
    {
        self.content.known_units()
    }

    /// Keeps what is known of the units of packages, if their files are the current ones. It is no event: it affects how long later builds
    /// take, and the machine stays as it is.
    pub fn learn_units(&mut self, units: KnownUnits)
        ensures { self.new ≡ self.old }
    {
        self.content.learn_units(units);
    }

    /// Keeps what is known of the units of the current state's packages. No file is compared.
    pub fn learn_current_units(&mut self, units: KnownUnits)
        requires { units ≡ self.old.current.files }
        ensures { self.new ≡ self.old }
    {
        self.content.learn_current_units(units);
    }

    /// Closes the journal, and returns its entries. The next one begins without entries, with room for those of the Jobs out. All else stays.
    /// It is refused for want of memory for that room, or where the closed journals would have more than 2^63 entries. Then nothing changes.
    pub fn close_chapter(&mut self) -> Result<Vec<Entry>, Refusal>
        ensures entries { IfOk result (λ entries. entries.items ≡ self.old.journal) }
        ensures closed { OnOk result (self.new ≡ closed self.old) }
        ensures why { IfErr result (λ refusal. (refusal ≡ Refusal.Memory) ⊎ ((refusal ≡ Refusal.JournalFull) × (2 ^ 63 < self.old.begun + length self.old.journal))) }
        ensures err { OnErr result (self.new ≡ self.old) }
    {
        let jobs = self.content.jobs();
        let Book { content, journal } = self;
        let entries = journal.len() as u64;
        if !content.has_room(entries) {
            return Err(Refusal::JournalFull);
        }
        let alloc = content.alloc;
        let room = Vec::with_capacity(alloc, jobs)?;
        content.count_closed(entries);
        Ok(mem::replace(journal, room))
    }

    /// Ends the book, and returns the length of its journal.
    pub fn close(self) -> u64
        ensures { result ≡ length self.journal }
    {
        let Book { content, journal } = self;
        content.close();
        let entries = journal.len() as u64;
        drop(journal);
        entries
    }
}
