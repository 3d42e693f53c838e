//! The state under the lock of a shared book.
ghost use Rattle.std.specs.Prelude.{◌≡◌, ◌+◌, ◌-◌, ◌<◌, ◌↔◌, All, List, length, is_ok, is_some, IfErr, IfOk, IfSome, IsTrue, MatchOption, None, false, if◌then◌else◌};
ghost use Rattle.std.specs.Io.Iter.{u64_saturate};
ghost use Rattle.workspace_check.specs.Found.{KnowsVerdicts};
ghost use Rattle.history_book.specs.WorkLeft.{HasJob, IsWaitEnd};
ghost use Rattle.base_files.specs.declared.refusal.Refusal.TheVariants.{Disk, Memory};
ghost use Rattle.history_machine.specs.JournalSteps.{JournalStep};
ghost use Rattle.history_machine.specs.MayReply.{MayReply};
ghost use Rattle.history_machine.specs.Step.{done, refused, taken};
ghost use Rattle.history_machine.specs.declared.event.Event.TheVariants.{Commit, Deliver, Take};
ghost use Rattle.build_unit.specs.Builds.{IsBuiltOf};
ghost use Rattle.history_book.specs.CurrentInputs.{HasCurrentInputs};
ghost use Rattle.history_book.specs.Handed.{handed};
ghost use Rattle.server_versions.specs.Growing.{IsLastVersion};
ghost use Rattle.server_shared.specs.SeenFiles.{BringsInputs, EndsBehind, IsLastVersion-prop};
ghost use Rattle.history_book.specs.CurrentUnits.{AreKnownIn};
ghost use Rattle.server_shared.specs.Reserved.{IsHandingIn};
ghost use Rattle.server_journal.specs.Keeping.{KeepsHistory, KeptStep};
ghost use Rattle.server_shared.specs.Steps.{IsReceiptOrNone, KeptReceiptStep};
ghost use Rattle.server_shared.specs.Waking.{CountsNews, HasWork, IsNews, MayWake, NoWakeMissed};
ghost use Rattle.server_shared.specs.Call.{LooksBuilt};
ghost use Rattle.server_shared.specs.Standing.{TellsOfBook};
ghost use Rattle.server_shared.specs.Working.{LacksOnly, TakesJob};
ghost use Rattle.server_shared.specs.Past.{HasPast, IsHandedIn};
ghost use Rattle.server_shared.specs.SettledBook.{IsSettling, book_in};
ghost use Rattle.server_shared.specs.declared.receipt.Receipt.{Receipt as HeldReceipt};
ghost use Rattle.server_shared.specs.LimitNumbers.{limit_numbers};

use crate::ahead::{Crew, NextStep, ShownState};
use crate::chapters::Closing;
use crate::comparing::{gathered, is_settled_by};
use crate::files_log::FilesLog;
use crate::free_seats::FreeSeats;
use crate::opening::Opening;
use crate::receipt::Receipt;
use crate::seat::Seat;
use crate::settling::Unsettled;
use crate::standing::Standing;
use base_files::Refusal;
use build_kept::KnownUnits;
use build_unit::{Built, Job};
use history_book::{Book, Changing, Handed, HandingIn, Looking, Question, Taking};
use history_machine::{Entry, EntryKind, Line, Told, View};
use server_journal::{DiskStore, Kept, Store, kept_commit, kept_step};
use server_versions::Versions;
use std::alloc::{AllocError, Global};
use std::sync::ledger::{self, Share};
use workspace_check::Known;
use workspace_graph::Graph;
use workspace_snapshot::MadeChange;

/// A book, the receipts of its journal that were handed in, and the count of those that the seats hold.
pub struct Locked<L: Opening> {
    pub book: Book,
    pub count: ledger::Book<L>,
    /// From which entry on the journal's entries have receipts: those before were made before the book was shared.
    pub from: u64,
    pub is_stopped: bool,
    /// How many events changed the workspace or delivered a Job (`is_news`).
    pub news: u64,
    pub handed: Vec<Receipt>,
    pub closing: Closing,
    /// How many sessions are under way.
    pub sessions: u64,
    /// How many bytes the texts have that the changes of the chapter put into files.
    pub kept: u64,
    /// The workers, and what they judge before their Jobs. Only speed rests on it.
    pub(crate) crew: Crew,
    /// Where the record of each change is kept, if records are kept.
    pub records: Option<Kept<DiskStore>>,
    /// The files that were current. Only speed rests on it.
    pub files_log: FilesLog<L>,
    pub(crate) alloc: Global,
    ghost counted: { length book.journal ≡ from + length handed.items + count.total },
    ghost most_is: { book.limits.journal ≡ L.most },
    ghost limits_are: { limit_numbers book.limits ≡ L.limits },
    ghost known: { ∥ IsHandedIn L.accounts handed.items ∥₁ },
    ghost past: { ∥ HasPast L.accounts L.begun L.from from book ∥₁ },
    ghost seen: { IsTrue files_log.is_seen → IsLastVersion files_log.seen book.current.files } by { Prim.hlevel IsLastVersion-prop },
}

/// Makes one step of a book, whose changes are kept in the store, if there is one. Without a store it is a plain step. Returns a copy of the
/// entry that it adds.
fn step_kept<D: Store + Drop, Q: Question>(
    alloc: Global,
    book: &mut Book,
    records: &mut Option<Kept<D>>,
    question: Q,
) -> (Q::Answer, Option<Entry>)
    ensures step { KeptStep Disk book.old (Q.event question) (Q.reply result.0) result.1 book.new }
    ensures plain { records.old ≡ None → JournalStep book.old (Q.event question) (Q.reply result.0) result.1 book.new }
    ensures keeps { IfSome records.old (λ k. KeepsHistory (D.holds k.store) k.is_lost book.old) → IfSome records.new (λ k. KeepsHistory (D.holds k.store) k.is_lost book.new) }
    ensures kind { MayReply (Q.event question) (Q.reply result.0) }
    ensures most { book.new.limits.journal ≡ book.old.limits.journal }
    ensures limits { limit_numbers book.new.limits ≡ limit_numbers book.old.limits }
    ensures all_limits { book.new.limits ≡ book.old.limits }
{
    match records {
        None => book.journal_step(question),
        Some(kept) => kept_step(alloc, book, kept, question, Refusal::Disk),
    }
}

/// Makes the step of a commit whose base is known to have the current files, as `step_kept` makes it. No text is compared.
fn commit_kept<D: Store + Drop>(
    alloc: Global,
    book: &mut Book,
    records: &mut Option<Kept<D>>,
    basis: u64,
    change: MadeChange,
) -> (Result<u64, Refusal>, Option<Entry>)
    requires { change.base ≡ book.old.current.files }
    ensures step { KeptStep Disk book.old (Commit basis change) (done result.0) result.1 book.new }
    ensures plain { records.old ≡ None → JournalStep book.old (Commit basis change) (done result.0) result.1 book.new }
    ensures keeps { IfSome records.old (λ k. KeepsHistory (D.holds k.store) k.is_lost book.old) → IfSome records.new (λ k. KeepsHistory (D.holds k.store) k.is_lost book.new) }
    ensures kind { MayReply (Commit basis change) (done result.0) }
    ensures most { book.new.limits.journal ≡ book.old.limits.journal }
    ensures limits { limit_numbers book.new.limits ≡ limit_numbers book.old.limits }
    ensures all_limits { book.new.limits ≡ book.old.limits }
{
    match records {
        None => book.commit_on_current(basis, change),
        Some(kept) => kept_commit(alloc, book, kept, basis, change, Refusal::Disk),
    }
}

/// Makes the step of a delivery that is known to have the inputs of its package in the current files. A delivery is no change, so what the
/// store holds is still all changes. Returns a copy of the entry that it adds.
fn deliver_kept<D: Store + Drop>(
    book: &mut Book,
    _records: &Option<Kept<D>>,
    job: Job,
    built: Built,
) -> (Handed, Option<Entry>)
    requires { HasCurrentInputs book.old.current.files job built }
    ensures step { JournalStep book.old (Deliver job built) (handed result.0) result.1 book.new }
    ensures keeps { IfSome _records.now (λ k. KeepsHistory (D.holds k.store) k.is_lost book.old → KeepsHistory (D.holds k.store) k.is_lost book.new) }
    ensures kind { MayReply (Deliver job built) (handed result.0) }
    ensures most { book.new.limits.journal ≡ book.old.limits.journal }
    ensures limits { limit_numbers book.new.limits ≡ limit_numbers book.old.limits }
    ensures all_limits { book.new.limits ≡ book.old.limits }
{
    book.deliver_on_current(job, built)
}

/// What is known of units, if it is of packages of these files.
fn of_files(units: KnownUnits, files: &Graph) -> Option<KnownUnits>
    ensures { AreKnownIn files.now result }
{
    if units.is_of(files) {
        Some(units)
    } else {
        None
    }
}

/// The answer to an event that is turned away for want of memory for its receipt.
pub fn turn_away<Q: Question>(question: Q, error: AllocError) -> Q::Answer
    ensures turned { Q.reply result ≡ refused (Q.event question) Memory }
    ensures kind { MayReply (Q.event question) (Q.reply result) }
{
    question.refuse(Refusal::from(error))
}

/// Whether an entry's event may make a package wait: a change, an undo, a redo or a Job that is given back, which was done, or a delivery that
/// was refused. A delivery that is done makes none wait.
pub fn may_wake(line: &Line) -> bool
    ensures { IsTrue result ↔ MayWake line.now.kind line.now.out }
{
    match (line.kind, line.out) {
        (EntryKind::Look | EntryKind::Log | EntryKind::Take, _) => false,
        (EntryKind::Deliver, Told::Done(_)) => false,
        (EntryKind::Deliver, Told::Refused(_)) => true,
        (_, Told::Done(_)) => true,
        (_, Told::Refused(_)) => false,
    }
}

/// An event that makes a Take have a Job is one by which a worker is woken.
pub fn no_wake_is_missed()
    ensures { NoWakeMissed }
{}

/// Whether an entry's event was answered `Done`, and changed the workspace or delivered a Job. A worker for which memory was wanting waits for
/// such an event: Jobs that others give back for the same want would have all of them try again for ever.
pub fn is_news(line: &Line) -> bool
    ensures { IsTrue result ↔ IsNews line.now }
{
    match (line.kind, line.out) {
        (EntryKind::Look | EntryKind::Log | EntryKind::Take | EntryKind::GiveBack, _) => false,
        (_, Told::Done(_)) => true,
        (_, Told::Refused(_)) => false,
    }
}

/// Whether an event of this kind hands a Job in.
fn is_handing_in(kind: EntryKind) -> bool
    ensures { IsTrue result ↔ IsHandingIn kind }
{
    match kind {
        EntryKind::Deliver | EntryKind::GiveBack => true,
        _ => false,
    }
}

impl<L: Opening> Locked<L> {
    /// Takes memory for the receipts that the seats hold, and for those of one event more and of its Job. So a seat that comes to rest can hand
    /// its receipts in. For an event that hands a Job in, it was taken before.
    fn make_room(&mut self, kind: EntryKind) -> Result<(), AllocError>
        ensures book { self.new.book ≡ self.old.book }
        ensures records { self.new.records ≡ self.old.records }
        ensures stopped { self.new.is_stopped ≡ self.old.is_stopped }
        ensures news { self.new.news ≡ self.old.news }
        ensures why { IfErr result (λ _. ¬ (IsHandingIn kind)) }
    {
        if is_handing_in(kind) {
            return Ok(());
        }
        let held = self.book.journal().len() - self.handed.len();
        self.handed
            .reserve(held.saturating_add(held).saturating_add(2))
    }

    /// Makes one step of the book, and returns a receipt of the entry that it adds. The share counts the entry. A change is on the disk before
    /// it is made, if changes are kept.
    fn make_step<Q: Question>(
        &mut self,
        share: &mut Share<L>,
        question: Q,
    ) -> (Q::Answer, Option<Receipt>)
        requires { 0 < share.old.parts }
        ensures step { KeptReceiptStep (is_some self.old.records) self.old.book (Q.event question) (Q.reply result.0) result.1 self.new.book }
        ensures stopped { self.new.is_stopped ≡ self.old.is_stopped }
        ensures news { MatchOption result.1 (self.new.news ≡ self.old.news) (λ receipt. CountsNews receipt.entry.line self.old.news self.new.news) }
        ensures kind { MayReply (Q.event question) (Q.reply result.0) }
        ensures amount { share.new.amount ≡ share.old.amount + (if is_some result.1 then 1 else 0) }
        ensures parts { share.new.parts ≡ share.old.parts }
    {
        let index = self.book.journal().len() as u64;
        let Locked {
            book,
            count,
            news,
            records,
            files_log,
            alloc,
            ..
        } = self;
        let (answer, kept) = step_kept(*alloc, book, records, question);
        match kept {
            None => (answer, None),
            Some(entry) => {
                if is_news(&entry.line) {
                    *news = news.wrapping_add(1);
                }
                files_log.pass(&entry.line);
                count.add(share, 1);
                (answer, Some(Receipt { index, entry }))
            }
        }
    }

    /// Delivers what was built for a Job, and returns a receipt of the entry that it adds. The Job's inputs were those of its package at the end of
    /// what was seen of the log. Where that still ends with the current files, no text is compared.
    pub fn deliver(
        &mut self,
        share: &mut Share<L>,
        job: Job,
        built: Built,
        seen: &Option<Versions<Graph, L>>,
    ) -> (Handed, Option<Receipt>)
        requires share { 0 < share.old.parts }
        requires brings { IfSome seen.now (λ v. BringsInputs v job) }
        requires built { IsBuiltOf job built }
        ensures step { IsReceiptOrNone L.most (Deliver job built) (handed result.0) result.1 }
        ensures kind { MayReply (Deliver job built) (handed result.0) }
        ensures amount { share.new.amount ≡ share.old.amount + (if is_some result.1 then 1 else 0) }
        ensures parts { share.new.parts ≡ share.old.parts }
    {
        if self.files_log.is_end(seen) {
            return self.deliver_on_current(share, job, built);
        }
        self.call(share, HandingIn::Deliver(job, built))
    }

    /// Makes the step of a delivery that is known to have the inputs of its package in the current files. Returns a receipt of the entry that it
    /// adds, which the share counts. The memory for it was taken with the Job.
    fn deliver_on_current(
        &mut self,
        share: &mut Share<L>,
        job: Job,
        built: Built,
    ) -> (Handed, Option<Receipt>)
        requires share { 0 < share.old.parts }
        requires brings { HasCurrentInputs self.old.book.current.files job built }
        ensures step { IsReceiptOrNone L.most (Deliver job built) (handed result.0) result.1 }
        ensures kind { MayReply (Deliver job built) (handed result.0) }
        ensures amount { share.new.amount ≡ share.old.amount + (if is_some result.1 then 1 else 0) }
        ensures parts { share.new.parts ≡ share.old.parts }
    {
        let index = self.book.journal().len() as u64;
        let Locked {
            book,
            count: counted,
            news,
            records,
            ..
        } = self;
        let (answer, kept) = deliver_kept(book, records, job, built);
        match kept {
            None => (answer, None),
            Some(entry) => {
                if is_news(&entry.line) {
                    *news = news.wrapping_add(1);
                }
                counted.add(share, 1);
                let receipt = Receipt { index, entry };
                (answer, Some(receipt))
            }
        }
    }

    /// Makes the step of a commit whose base is known to have the current files. Returns a receipt of the entry that it adds, which the share
    /// counts. A change is on the disk before it is made, if changes are kept. No text is compared.
    fn commit_on_current(
        &mut self,
        share: &mut Share<L>,
        basis: u64,
        change: MadeChange,
    ) -> (Result<u64, Refusal>, Option<Receipt>)
        requires share { 0 < share.old.parts }
        requires base { change.base ≡ self.old.book.current.files }
        ensures step { KeptReceiptStep (is_some self.old.records) self.old.book (Commit basis change) (done result.0) result.1 self.new.book }
        ensures kind { MayReply (Commit basis change) (done result.0) }
        ensures amount { share.new.amount ≡ share.old.amount + (if is_some result.1 then 1 else 0) }
        ensures parts { share.new.parts ≡ share.old.parts }
    {
        let index = self.book.journal().len() as u64;
        let Locked {
            book,
            count: counted,
            news,
            records,
            files_log,
            alloc,
            ..
        } = self;
        let (answer, kept) = commit_kept(*alloc, book, records, basis, change);
        match kept {
            None => (answer, None),
            Some(entry) => {
                if is_news(&entry.line) {
                    *news = news.wrapping_add(1);
                }
                files_log.pass(&entry.line);
                counted.add(share, 1);
                let receipt = Receipt { index, entry };
                (answer, Some(receipt))
            }
        }
    }

    /// Does the same, where there is memory for the receipt to be handed in. Else the commit is turned away.
    fn commit_with_room(
        &mut self,
        share: &mut Share<L>,
        basis: u64,
        change: MadeChange,
    ) -> (Result<u64, Refusal>, Option<Receipt>)
        requires share { 0 < share.old.parts }
        requires base { change.base ≡ self.old.book.current.files }
        ensures step { KeptReceiptStep (is_some self.old.records) self.old.book (Commit basis change) (done result.0) result.1 self.new.book }
        ensures kind { MayReply (Commit basis change) (done result.0) }
        ensures amount { share.new.amount ≡ share.old.amount + (if is_some result.1 then 1 else 0) }
        ensures parts { share.new.parts ≡ share.old.parts }
    {
        match self.make_room(EntryKind::Commit) {
            Ok(()) => self.commit_on_current(share, basis, change),
            Err(error) => (turn_away(Changing::Commit(basis, change), error), None),
        }
    }

    /// Commits a change. Its base has the files with which what was seen of the log ends. Where the log still ends with these, they are the
    /// current ones, and no text is compared.
    pub fn commit(
        &mut self,
        share: &mut Share<L>,
        basis: u64,
        change: MadeChange,
        seen: &Option<Versions<Graph, L>>,
    ) -> (Result<u64, Refusal>, Option<Receipt>)
        requires share { 0 < share.old.parts }
        requires sees { IfSome seen.now (λ v. IsLastVersion v change.base) }
        ensures step { IsReceiptOrNone L.most (Commit basis change) (done result.0) result.1 }
        ensures made { KeptReceiptStep (is_some self.old.records) self.old.book (Commit basis change) (done result.0) result.1 self.new.book }
        ensures kind { MayReply (Commit basis change) (done result.0) }
        ensures amount { share.new.amount ≡ share.old.amount + (if is_some result.1 then 1 else 0) }
        ensures parts { share.new.parts ≡ share.old.parts }
    {
        if self.files_log.is_end(seen) {
            return self.commit_with_room(share, basis, change);
        }
        self.call(share, Changing::Commit(basis, change))
    }

    /// What a seat is to see of the log of files, which ends with the current ones. It is no event.
    pub fn show_files(&mut self) -> Option<Versions<Graph, L>>
        ensures shown { IfSome result (λ seen. IsLastVersion seen self.old.book.current.files) }
        ensures book { self.new.book ≡ self.old.book }
        ensures stopped { self.new.is_stopped ≡ self.old.is_stopped }
        ensures news { self.new.news ≡ self.old.news }
    {
        let Locked {
            book,
            files_log,
            ..
        } = self;
        files_log.show(book.files())
    }

    /// Does the same, where there is memory for the receipt to be handed in. Else the event is turned away.
    pub fn step<Q: Question>(
        &mut self,
        share: &mut Share<L>,
        question: Q,
    ) -> (Q::Answer, Option<Receipt>)
        requires { 0 < share.old.parts }
        ensures step { KeptReceiptStep (is_some self.old.records) self.old.book (Q.event question) (Q.reply result.0) result.1 self.new.book }
        ensures stopped { self.new.is_stopped ≡ self.old.is_stopped }
        ensures news { MatchOption result.1 (self.new.news ≡ self.old.news) (λ receipt. CountsNews receipt.entry.line self.old.news self.new.news) }
        ensures kind { MayReply (Q.event question) (Q.reply result.0) }
        ensures amount { share.new.amount ≡ share.old.amount + (if is_some result.1 then 1 else 0) }
        ensures parts { share.new.parts ≡ share.old.parts }
    {
        match self.make_room(question.kind()) {
            Ok(()) => self.make_step(share, question),
            Err(error) => (turn_away(question, error), None),
        }
    }

    /// Makes one step of the book, for callers whose contracts can't name the book. It returns what `step` returns.
    pub fn call<Q: Question>(
        &mut self,
        share: &mut Share<L>,
        question: Q,
    ) -> (Q::Answer, Option<Receipt>)
        requires { 0 < share.old.parts }
        ensures step { IsReceiptOrNone L.most (Q.event question) (Q.reply result.0) result.1 }
        ensures made { KeptReceiptStep (is_some self.old.records) self.old.book (Q.event question) (Q.reply result.0) result.1 self.new.book }
        ensures kind { MayReply (Q.event question) (Q.reply result.0) }
        ensures amount { share.new.amount ≡ share.old.amount + (if is_some result.1 then 1 else 0) }
        ensures parts { share.new.parts ≡ share.old.parts }
    {
        self.step(share, question)
    }

    /// Makes one step of the book, as `call` does. `seen` gets what the seat is to see of the log of files behind it.
    pub fn call_and_show<Q: Question>(
        &mut self,
        share: &mut Share<L>,
        question: Q,
        seen: &mut Option<Versions<Graph, L>>,
    ) -> (Q::Answer, Option<Receipt>)
        requires { 0 < share.old.parts }
        ensures seen { IfSome seen.new (EndsBehind (Q.event question) (Q.reply result.0)) }
        ensures step { IsReceiptOrNone L.most (Q.event question) (Q.reply result.0) result.1 }
        ensures kind { MayReply (Q.event question) (Q.reply result.0) }
        ensures amount { share.new.amount ≡ share.old.amount + (if is_some result.1 then 1 else 0) }
        ensures parts { share.new.parts ≡ share.old.parts }
    {
        let (answer, kept) = self.call(share, question);
        let shown = self.show_files();
        *seen = shown;
        (answer, kept)
    }

    /// Commits a change, as `commit` does. `seen` gets what the seat is to see of the log of files behind it.
    pub fn commit_and_show(
        &mut self,
        share: &mut Share<L>,
        basis: u64,
        change: MadeChange,
        seen: &mut Option<Versions<Graph, L>>,
    ) -> (Result<u64, Refusal>, Option<Receipt>)
        requires share { 0 < share.old.parts }
        requires sees { IfSome seen.old (λ v. IsLastVersion v change.base) }
        ensures seen { IfSome seen.new (EndsBehind (Commit basis change) (done result.0)) }
        ensures step { IsReceiptOrNone L.most (Commit basis change) (done result.0) result.1 }
        ensures kind { MayReply (Commit basis change) (done result.0) }
        ensures amount { share.new.amount ≡ share.old.amount + (if is_some result.1 then 1 else 0) }
        ensures parts { share.new.parts ≡ share.old.parts }
    {
        let (answer, kept) = self.commit(share, basis, change, seen);
        let shown = self.show_files();
        *seen = shown;
        (answer, kept)
    }

    /// Whether a worker may take a Job: the workers were not stopped, and a Take has one.
    pub fn has_work(&self) -> bool
        ensures { IsTrue result ↔ HasWork self.now.is_stopped self.now.book }
    {
        if self.is_stopped {
            return false;
        }
        self.book.has_job()
    }

    /// Whether a worker is to wait: the workers were not stopped, and a Take has no Job.
    pub fn is_idle(&self) -> bool
        ensures { IsTrue result ↔ ((self.now.is_stopped ≡ false) × ¬ (HasJob self.now.book)) }
    {
        if self.is_stopped {
            return false;
        }
        !self.book.has_job()
    }

    /// Whether a worker at rest is to wait: the workers were not stopped, and a border is near or a Take has no Job.
    pub fn rests(&self) -> bool {
        !self.is_stopped && (self.holds_up() || self.is_idle())
    }

    /// Takes a Job for a worker. Where it may take none it makes no event, and returns `None`. So a Take is refused only for want of memory.
    pub fn take_job(
        &mut self,
        share: &mut Share<L>,
    ) -> Option<(Result<Job, Refusal>, Option<Receipt>)>
        requires { 0 < share.old.parts }
        ensures taken { TakesJob self.old.is_stopped self.old.book result self.new.book }
        ensures called { IfSome result (λ took. IsReceiptOrNone L.most Take (taken took.0) took.1) }
        ensures stopped { self.new.is_stopped ≡ self.old.is_stopped }
        ensures amount { MatchOption result (share.new.amount ≡ share.old.amount) (λ took. share.new.amount ≡ share.old.amount + (if is_some took.1 then 1 else 0)) }
        ensures parts { share.new.parts ≡ share.old.parts }
    {
        if !self.has_work() {
            return None;
        }
        Some(self.step(share, Taking))
    }

    /// Takes a Job for a worker, as `take_job` does. `seen` gets what the seat is to see of the log of files behind it.
    pub fn take_and_show(
        &mut self,
        share: &mut Share<L>,
        seen: &mut Option<Versions<Graph, L>>,
    ) -> Option<(Result<Job, Refusal>, Option<Receipt>)>
        requires { 0 < share.old.parts }
        ensures brings { IfSome result (λ took. IfOk took.0 (λ job. IfSome seen.new (λ v. BringsInputs v job))) }
        ensures step { IfSome result (λ took. IsReceiptOrNone L.most Take (taken took.0) took.1 × LacksOnly took.0) }
        ensures amount { MatchOption result (share.new.amount ≡ share.old.amount) (λ took. share.new.amount ≡ share.old.amount + (if is_some took.1 then 1 else 0)) }
        ensures parts { share.new.parts ≡ share.old.parts }
    {
        let taken = self.take_job(share);
        let shown = self.show_files();
        *seen = shown;
        taken
    }

    /// Looks at the current state, once each package is finished. Where the wait goes on it makes no event, and returns `None`. Where none can
    /// be built any more, the wait is refused, with no event.
    pub fn look_built(
        &mut self,
        share: &mut Share<L>,
    ) -> Option<(Result<View, Refusal>, Option<Receipt>)>
        requires { 0 < share.old.parts }
        ensures looked { MatchOption result (IsWaitEnd self.old.book None × (self.new.book ≡ self.old.book)) (λ shown. LooksBuilt L.most shown.0 shown.1) }
        ensures stopped { self.new.is_stopped ≡ self.old.is_stopped }
        ensures amount { MatchOption result (share.new.amount ≡ share.old.amount) (λ shown. share.new.amount ≡ share.old.amount + (if is_some shown.1 then 1 else 0)) }
        ensures parts { share.new.parts ≡ share.old.parts }
    {
        match self.book.wait_end() {
            None => None,
            Some(Ok(())) => Some(self.step(share, Looking)),
            Some(Err(refusal)) => Some((Err(refusal), None)),
        }
    }

    /// Has the book keep the findings of the packages of `files` whose closures have the same texts in the current files. It is no event. Where
    /// the log still ends with what was seen of it, these are the current files, and no text is compared.
    pub fn learn(&mut self, files: &Graph, known: Known, seen: &Option<Versions<Graph, L>>)
        requires known { KnowsVerdicts files.now known }
        requires seen { IfSome seen.now (λ v. IsLastVersion v files.now) }
        ensures book { self.new.book ≡ self.old.book }
        ensures stopped { self.new.is_stopped ≡ self.old.is_stopped }
        ensures news { self.new.news ≡ self.old.news }
    {
        if self.files_log.is_end(seen) {
            self.book.learn_current(known);
        } else {
            self.book.learn(files, known);
        }
    }

    /// Counts a worker.
    pub fn join(&mut self)
        ensures book { self.new.book ≡ self.old.book }
        ensures stopped { self.new.is_stopped ≡ self.old.is_stopped }
        ensures news { self.new.news ≡ self.old.news }
    {
        self.crew.join();
    }

    /// What a worker does before it takes its next Job, unless memory is wanting.
    fn looked_ahead(&mut self, alloc: Global) -> Result<NextStep<L>, AllocError>
        ensures book { self.new.book ≡ self.old.book }
        ensures stopped { self.new.is_stopped ≡ self.old.is_stopped }
        ensures news { self.new.news ≡ self.old.news }
    {
        if self.is_stopped || self.crew.is_alone() {
            return Ok(NextStep::Take);
        }
        let Some(next) = self.book.first_waiting() else {
            return Ok(NextStep::Take);
        };
        let snapshot = self.book.snapshot()?;
        let seen = self.show_files();
        let state = ShownState { snapshot, seen };
        self.crew.before(alloc, state, next)
    }

    /// What a worker does before it takes its next Job. It is no event. Where memory is wanting the worker takes the Job at once.
    pub fn before_job(&mut self, alloc: Global) -> NextStep<L>
        ensures book { self.new.book ≡ self.old.book }
        ensures stopped { self.new.is_stopped ≡ self.old.is_stopped }
        ensures news { self.new.news ≡ self.old.news }
    {
        match self.looked_ahead(alloc) {
            Ok(before) => before,
            Err(_) => NextStep::Take,
        }
    }

    /// Counts a worker that has judged packages of a state, and has the book keep their findings. It is no event. Where the state's files are
    /// those that were last seen to be current, and still are, no text is compared.
    pub fn learn_ahead(&mut self, state: &ShownState<L>, known: Known)
        requires { KnowsVerdicts state.now.snapshot.files known }
        ensures book { self.new.book ≡ self.old.book }
        ensures stopped { self.new.is_stopped ≡ self.old.is_stopped }
        ensures news { self.new.news ≡ self.old.news }
    {
        self.crew.end();
        self.learn(state.snapshot.files(), known, &state.seen);
    }

    /// Counts a worker that could not judge packages, for want of memory.
    pub fn end_ahead(&mut self)
        ensures book { self.new.book ≡ self.old.book }
        ensures stopped { self.new.is_stopped ≡ self.old.is_stopped }
        ensures news { self.new.news ≡ self.old.news }
    {
        self.crew.end();
    }

    /// What is known of units of packages of `files`, if these are the current files. It is no event. Where the log still ends with what was
    /// seen of it, they are, and no text is compared.
    pub fn known_units(
        &self,
        files: &Graph,
        seen: &Option<Versions<Graph, L>>,
    ) -> Option<KnownUnits>
        requires { IfSome seen.now (λ v. IsLastVersion v files.now) }
        ensures { AreKnownIn files.now result }
    {
        let Ok(units) = self.book.known_units() else {
            return None;
        };
        if self.files_log.is_end(seen) {
            return Some(units);
        }
        of_files(units, files)
    }

    /// Has the book keep what is known of units of packages, if their files are the current ones. It is no event. Where the log still ends
    /// with what was seen of it, they are, and no text is compared.
    pub fn learn_units(&mut self, units: KnownUnits, seen: &Option<Versions<Graph, L>>)
        requires { IfSome seen.now (λ v. IsLastVersion v units) }
        ensures book { self.new.book ≡ self.old.book }
        ensures stopped { self.new.is_stopped ≡ self.old.is_stopped }
        ensures news { self.new.news ≡ self.old.news }
    {
        if self.files_log.is_end(seen) {
            self.book.learn_current_units(units);
        } else {
            self.book.learn_units(units);
        }
    }

    /// Counts a session that begins.
    pub fn begin_session(&mut self)
        ensures counted { self.new.sessions ≡ u64_saturate (self.old.sessions + 1) }
        ensures book { self.new.book ≡ self.old.book }
        ensures stopped { self.new.is_stopped ≡ self.old.is_stopped }
        ensures news { self.new.news ≡ self.old.news }
    {
        self.sessions = self.sessions.saturating_add(1);
    }

    /// Counts a session that has ended.
    pub fn end_session(&mut self)
        ensures counted { self.new.sessions ≡ self.old.sessions - 1 }
        ensures book { self.new.book ≡ self.old.book }
        ensures stopped { self.new.is_stopped ≡ self.old.is_stopped }
        ensures news { self.new.news ≡ self.old.news }
    {
        self.sessions = self.sessions.saturating_sub(1);
    }

    /// Counts the bytes of texts that a change put into files.
    pub fn keep(&mut self, bytes: u64)
        ensures kept { self.new.kept ≡ u64_saturate (self.old.kept + bytes) }
        ensures book { self.new.book ≡ self.old.book }
        ensures stopped { self.new.is_stopped ≡ self.old.is_stopped }
        ensures news { self.new.news ≡ self.old.news }
    {
        self.kept = self.kept.saturating_add(bytes);
    }

    /// What the book tells of itself. It is no event.
    pub fn standing(&self) -> Result<Standing, AllocError>
        ensures { IfOk result (TellsOfBook L.most) }
    {
        let entries = self.book.journal().len() as u64;
        let snapshot = self.book.snapshot()?;
        Ok(Standing {
            snapshot,
            begun: self.book.begun(),
            entries,
            due: self.closing.due.saturating_sub(entries),
            kept: self.kept,
            sessions: self.sessions,
            workers: self.crew.workers(),
        })
    }

    /// Stops the workers.
    pub fn stop(&mut self)
        ensures stopped { IsTrue self.new.is_stopped }
        ensures book { self.new.book ≡ self.old.book }
        ensures news { self.new.news ≡ self.old.news }
    {
        self.is_stopped = true;
    }

    /// Ends the sharing, and returns the book. It is settled if its new entries are exactly those of the receipts that were handed in. What the
    /// seats still hold is handed in first; that alone takes memory.
    pub fn settle(self, free: FreeSeats<L>, seats: Vec<Seat<L>>) -> Result<Book, Unsettled>
        requires { All (λ (seat : List HeldReceipt). ∥ L.accounts seat ∥₁) seats.items }
        ensures settled { ∥ IsSettling L.accounts L.begun L.from L.parts seats.items (book_in result) (is_ok result) ∥₁ }
        ensures limits { limit_numbers (book_in result).limits ≡ L.limits }
    {
        let Locked {
            book,
            mut count,
            from,
            is_stopped: _,
            news: _,
            mut handed,
            closing: _,
            sessions: _,
            kept: _,
            crew,
            records,
            files_log,
            alloc: _,
        } = self;
        drop(crew);
        drop(records);
        drop(files_log);
        let FreeSeats { share, left: _ } = free;
        let mut all = gathered(share, seats, &mut handed);
        count.audit(&mut all);
        drop(all);
        drop(count);
        if is_settled_by(from, &book, &mut handed) {
            Ok(book)
        } else {
            Err(Unsettled { book })
        }
    }
}
