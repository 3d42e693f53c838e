//! The desk: it takes the events of commands.
ghost use Rattle.std.specs.Prelude.{◌≡◌, IfOk};
ghost use Rattle.base_files.specs.Workspace.{Workspace};
ghost use Rattle.build_unit.specs.Builds.{IsBuiltOf};
ghost use Rattle.build_unit.specs.declared.job.JobRecord.{JobRecord};
ghost use Rattle.history_machine.specs.Step.{done, looked, taken};
ghost use Rattle.history_machine.specs.declared.event.Event.{Event};
ghost use Rattle.history_machine.specs.declared.event.Event.TheVariants.{Commit, Deliver, Look, Take};
ghost use Rattle.history_machine.specs.declared.event.Reply.{Reply};
ghost use Rattle.history_machine.specs.MayReply.{MayReply};
ghost use Rattle.history_book.specs.CurrentUnits.{AreKnownIn};
ghost use Rattle.history_book.specs.Handed.{handed};
ghost use Rattle.server_commands.specs.Wait.{Aside, SaysNumbers, SaysWait};
ghost use Rattle.workspace_check.specs.Found.{KnowsVerdicts};

use crate::numbers::{ServerNumbers, book_numbers, edit_bytes, kept_behind};
use base_files::Refusal;
use build_kept::KnownUnits;
use build_unit::{Built, Job};
use history_book::{Book, Handed, Looking, LookingBack, Question, Taking};
use history_machine::{HistoryView, View};
use std::marker::Model;
use workspace_check::Known;
use workspace_graph::Graph;
use workspace_snapshot::MadeChange;

/// Takes events, and answers them: a book of one's own, or a seat at a shared book.
pub trait Desk {
    /// The steps of an event: the desk before it, the event, its reply, and the desk after it.
    ghost steps: { Self → Event → Reply → Self → Type 0 };

    /// What the desk says: the desk before it, how a wait ended or the numbers that it tells, and the desk after it.
    ghost waits: { Self → Aside → Self → Type 0 };

    /// What the desk knows of files that a look or a commit has shown to be current, until the next event. A desk at a shared book knows only
    /// what was the end of a log then.
    ghost sees: { Self → Workspace → Type 0 };

    /// What the desk knows of a Job that was taken here, until the next event. A desk at a shared book knows only of which files at the end of
    /// a log it has the inputs.
    ghost brings: { Self → JobRecord → Type 0 };

    /// Answers one event. The type of the answer determines which replies it may get.
    fn step<Q: Question>(&mut self, question: Q) -> Q::Answer
        ensures step { steps self.old (Q.event question) (Q.reply result) self.new }
        ensures kind { MayReply (Q.event question) (Q.reply result) };

    /// A view of the current state. Until the next event the desk may know that its files are current.
    fn look(&mut self) -> Result<View, Refusal>
        ensures step { steps self.old Look (looked result) self.new }
        ensures sees { IfOk result (λ view. sees self.new view.snapshot.files) };

    /// A view of the current state that shows all states of the history. It is a look.
    fn look_back(&mut self) -> Result<HistoryView, Refusal>
        ensures step { steps self.old Look (looked result) self.new }
        ensures sees { IfOk result (λ view. sees self.new view.snapshot.files) };

    /// Commits a change of files that a look has shown. Until the next event the desk may know that the change's files are current.
    fn commit(&mut self, basis: u64, change: MadeChange) -> Result<u64, Refusal>
        requires { sees self.old change.base }
        ensures step { steps self.old (Commit basis change) (done result) self.new }
        ensures sees { IfOk result (λ _. sees self.new change.files) };

    /// Takes a Job of the first package that waits to be built. Until the next event the desk may know that its inputs are current.
    fn take(&mut self) -> Result<Job, Refusal>
        ensures step { steps self.old Take (taken result) self.new }
        ensures brings { IfOk result (λ job. brings self.new job) };

    /// Delivers what was built for a Job that was taken here.
    fn deliver(&mut self, job: Job, built: Built) -> Handed
        requires brings { brings self.old job }
        requires built { IsBuiltOf job built }
        ensures { steps self.old (Deliver job built) (handed result) self.new };

    /// Waits until every package of the current state is finished, and returns that state's number.
    fn wait(&mut self) -> Result<u64, Refusal>
        ensures { waits self.old (SaysWait result) self.new };

    /// What the server tells of itself in numbers. It is no event.
    fn numbers(&self) -> Result<ServerNumbers, Refusal>
        ensures { waits self.now (SaysNumbers result) self.now };

    /// Keeps the findings of the packages of files that a look has shown or a commit has made. It is no event: it affects how long later
    /// commands take, and the desk stays as it is.
    fn learn(&mut self, files: &Graph, known: Known)
        requires seen { sees self.old files.now }
        requires known { KnowsVerdicts files.now known }
        ensures { self.new ≡ self.old };

    /// What is known of units of packages of files that a look has shown. Nothing is known for want of memory, and where the files are no
    /// longer current.
    fn known_units(&self, files: &Graph) -> Option<KnownUnits>
        requires { sees self.now files.now }
        ensures { AreKnownIn files.now result };

    /// Keeps what is known of units of packages of files that a look has shown or a commit has made. It is no event: it affects how long later
    /// builds take, and the desk stays as it is.
    fn learn_units(&mut self, units: KnownUnits)
        requires { sees self.old units }
        ensures { self.new ≡ self.old };
}

/// A desk with a book of its own. `into_book` ends it.
#[must_use]
pub struct Solo {
    book: Book,
    /// How many bytes the texts have that changes put into files.
    kept: u64,
}

impl Model for Solo {
    ghost use Rattle.history_machine.specs.Codes.{entry_code};
    ghost use Rattle.history_machine.specs.Machine.{Machine};
    ghost use Rattle.std.specs.Coded.{codes};
    ghost use Rattle.build_unit.specs.Codes.{unit_code, workspace_code};

    ghost Value = { Machine };

    ghost coded = { Prim.hlevel (codes, unit_code, workspace_code, entry_code) };

    ghost view = { λ a. a.book };
}

impl Solo {
    /// A desk over this book.
    pub fn new(book: Book) -> Solo
        ensures { result ≡ book }
    {
        Solo { book, kept: 0 }
    }

    /// Ends the desk, and returns its book.
    pub fn into_book(self) -> Book
        ensures { result ≡ self }
    {
        let Solo { book, kept: _ } = self;
        book
    }
}

impl Desk for Solo {
    ghost use Rattle.std.specs.Prelude.{◌≡◌};
    ghost use Rattle.build_unit.specs.Inputs.{AreInputs};
    ghost use Rattle.history_machine.specs.Step.{Step};
    ghost use Rattle.server_commands.specs.Wait.{SoloWaits};

    ghost steps = { Step };

    ghost waits = { SoloWaits };

    // No other desk changes the book, so these are the current files.
    ghost sees = { λ machine files. files ≡ machine.current.files };

    // For the same reason the Job has the inputs of its package in the current files.
    ghost brings = { λ machine job. AreInputs machine.current.files job.package job.inputs };

    fn step<Q: Question>(&mut self, question: Q) -> Q::Answer {
        self.book.step(question)
    }

    fn look(&mut self) -> Result<View, Refusal> {
        self.book.step(Looking)
    }

    fn look_back(&mut self) -> Result<HistoryView, Refusal> {
        self.book.step(LookingBack)
    }

    /// The basis alone is compared, and no text.
    fn commit(&mut self, basis: u64, change: MadeChange) -> Result<u64, Refusal> {
        let bytes = edit_bytes(&change.get().edits);
        let (done, _entry) = self.book.commit_on_current(basis, change);
        self.kept = kept_behind(self.kept, bytes, &done);
        done
    }

    fn take(&mut self) -> Result<Job, Refusal> {
        self.book.step(Taking)
    }

    /// Numbers and packages are compared, and no text.
    fn deliver(&mut self, job: Job, built: Built) -> Handed {
        self.book.deliver_on_current(job, built).0
    }

    /// Refuses the wait, since no one else builds.
    fn wait(&mut self) -> Result<u64, Refusal> {
        Err(Refusal::BadCommand)
    }

    /// There is one session, and no worker. No chapter is closed.
    fn numbers(&self) -> Result<ServerNumbers, Refusal> {
        let chapter = self.book.begun();
        let entries = self.book.journal().len() as u64;
        match self.book.snapshot() {
            Err(error) => Err(Refusal::from(error)),
            Ok(snapshot) => {
                let book = book_numbers(&snapshot, chapter, entries);
                Ok(ServerNumbers {
                    sessions: 1,
                    workers: 0,
                    due: book.left,
                    kept: self.kept,
                    book,
                })
            }
        }
    }

    /// They are the current files, so none is compared.
    fn learn(&mut self, _files: &Graph, known: Known) {
        self.book.learn_current(known);
    }

    /// They are the current files, so none is compared.
    fn known_units(&self, _files: &Graph) -> Option<KnownUnits> {
        match self.book.known_units() {
            Ok(units) => Some(units),
            Err(_) => None,
        }
    }

    /// They are the current files, so none is compared.
    fn learn_units(&mut self, units: KnownUnits) {
        self.book.learn_current_units(units);
    }
}
