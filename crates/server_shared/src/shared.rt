//! A book that threads share.
ghost use Rattle.std.specs.Prelude.{◌≡◌, ◌+◌, ◌<◌, if◌then◌else◌, All, List, length, is_ok, is_some, IfOk, IfSome, MatchOption};
ghost use Rattle.workspace_check.specs.Found.{KnowsVerdicts};
ghost use Rattle.history_machine.specs.MayReply.{MayReply};
ghost use Rattle.history_machine.specs.Step.{done, taken};
ghost use Rattle.history_machine.specs.declared.event.Event.TheVariants.{Commit, Deliver, Take};
ghost use Rattle.build_unit.specs.Builds.{IsBuiltOf};
ghost use Rattle.history_book.specs.Handed.{handed};
ghost use Rattle.server_shared.specs.SeenFiles.{BringsInputs, EndsBehind};
ghost use Rattle.server_versions.specs.Growing.{IsLastVersion};
ghost use Rattle.history_book.specs.CurrentUnits.{AreKnownIn};
ghost use Rattle.server_shared.specs.SettledBook.{IsSettling, book_in};
ghost use Rattle.server_shared.specs.Steps.{IsReceiptOrNone};
ghost use Rattle.server_shared.specs.Call.{Calls, CallsWith, LooksBuilt, LooksOnceBuilt};
ghost use Rattle.server_shared.specs.Held.{IsRested};
ghost use Rattle.server_shared.specs.Standing.{TellsOfBook};
ghost use Rattle.server_shared.specs.declared.receipt.Receipt.{Receipt as HeldReceipt};
ghost use Rattle.server_shared.specs.Working.{LacksOnly};
ghost use Rattle.server_shared.specs.LimitNumbers.{limit_numbers};

use crate::ahead::{Ahead, Crew, NextStep};
use crate::chapters::Closing;
use crate::files_log::FilesLog;
use crate::free_seats::FreeSeats;
use crate::locked::{Locked, is_news, may_wake, turn_away};
use crate::opening::Opening;
use crate::receipt::Receipt;
use crate::seat::{Seat, jobs_after, reserve};
use crate::settling::Unsettled;
use crate::standing::Standing;
use base_files::Refusal;
use build_kept::KnownUnits;
use build_unit::{Built, Job};
use history_book::{Book, Changing, Handed, HandingIn, Question};
use history_machine::{EntryKind, Line, View};
use server_journal::{DiskStore, Kept};
use server_versions::{NewLog, Versions};
use std::alloc::{AllocError, Global};
use std::sync::ledger::{Blank, Share};
use std::sync::{Condvar, Mutex, Wait};
use workspace_check::Known;
use workspace_graph::Graph;
use workspace_snapshot::MadeChange;

/// A book that threads share, under a lock. `settle` ends it.
#[must_use]
pub struct Shared<L: Opening> {
    locked: Mutex<Locked<L>>,
    /// Where workers wait for a package to build.
    work: Condvar,
    /// Where workers wait for which memory was wanting.
    news: Condvar,
    /// Where waits for all packages sleep.
    built: Condvar,
    /// Where workers wait for verdicts that others find.
    judged: Condvar,
    /// Where seats at rest wait until a chapter that is due is closed.
    opened: Condvar,
}

impl<L: Opening> Shared<L> {
    /// Shares a book, with `seats` seats, of which none is taken yet. A chapter is closed where the journal has `mark` entries. The records of its
    /// changes are kept, if there is a store for them.
    pub fn new(
        alloc: Global,
        blank: Blank,
        book: Book,
        records: Option<Kept<DiskStore>>,
        seats: u64,
        mark: u64,
        log: NewLog<Graph>,
    ) -> (Shared<L>, FreeSeats<L>)
        requires name { blank.name ≡ L.name }
        requires log { log ≡ L.versions }
        requires parts { blank.parts ≡ L.parts }
        requires seats { blank.parts ≡ seats }
        requires from { length book.journal ≡ L.from }
        requires begun { book.begun ≡ L.begun }
        requires most { book.limits.journal ≡ L.most }
        requires limits { limit_numbers book.limits ≡ L.limits }
        ensures seats { result.1.left ≡ seats }
    {
        let from = book.journal().len() as u64;
        let (count, share) = blank.open::<L>();
        let free = FreeSeats { share, left: seats };
        let (log, none) = log.named::<L>();
        let files_log = FilesLog::new(log, none);
        let shared = Shared {
            locked: Mutex::new(Locked {
                book,
                count,
                from,
                is_stopped: false,
                news: 0,
                handed: Vec::new(alloc),
                closing: Closing::at(mark),
                sessions: 0,
                kept: 0,
                crew: Crew::new(),
                records,
                files_log,
                alloc,
            }),
            work: Condvar::new(),
            news: Condvar::new(),
            built: Condvar::new(),
            opened: Condvar::new(),
            judged: Condvar::new(),
        };
        (shared, free)
    }

    /// Makes one event of the book at a seat. Returns the answer, and the index of the event's entry, if the journal gains one.
    pub fn call<R: Wait, Q: Question>(
        &self,
        rt: &R,
        seat: &mut Seat<L>,
        question: Q,
    ) -> (Q::Answer, Option<u64>)
        ensures receipt { Calls L.most seat.old (Q.event question) (Q.reply result.0) result.1 seat.new }
        ensures kind { MayReply (Q.event question) (Q.reply result.0) }
    {
        let mut seen = None;
        self.call_and_see(rt, seat, question, &mut seen)
    }

    /// Does the same. What is then `seen` of the log of files ends with those that were current behind the event, under the same lock.
    pub fn call_and_see<R: Wait, Q: Question>(
        &self,
        rt: &R,
        seat: &mut Seat<L>,
        question: Q,
        seen: &mut Option<Versions<Graph, L>>,
    ) -> (Q::Answer, Option<u64>)
        ensures receipt { Calls L.most seat.old (Q.event question) (Q.reply result.0) result.1 seat.new }
        ensures kind { MayReply (Q.event question) (Q.reply result.0) }
        ensures seen { IfSome seen.new (EndsBehind (Q.event question) (Q.reply result.0)) }
    {
        *seen = None;
        let needed = match reserve(&mut seat.receipts, seat.jobs, question.kind()) {
            Err(error) => return (turn_away(question, error), None),
            Ok(needed) => needed,
        };
        let is_at_rest = seat.receipts.is_empty();
        let (answer, kept) = self.step(rt, &mut seat.share, question, is_at_rest, seen);
        let Some(receipt) = kept else {
            return (answer, None);
        };
        let index = receipt.index;
        seat.jobs = jobs_after(seat.jobs, needed, &receipt.entry.line);
        seat.receipts.push_reserved(receipt);
        (answer, Some(index))
    }

    /// Makes one event under the lock, and wakes those whom it concerns. A seat at rest first waits until a chapter that is due is closed. Where
    /// it could not be closed, for want of memory, the seat may try it again.
    fn step<R: Wait, Q: Question>(
        &self,
        rt: &R,
        share: &mut Share<L>,
        question: Q,
        is_at_rest: bool,
        seen: &mut Option<Versions<Graph, L>>,
    ) -> (Q::Answer, Option<Receipt>)
        requires { 0 < share.old.parts }
        ensures seen { IfSome seen.new (EndsBehind (Q.event question) (Q.reply result.0)) }
        ensures step { IsReceiptOrNone L.most (Q.event question) (Q.reply result.0) result.1 }
        ensures kind { MayReply (Q.event question) (Q.reply result.0) }
        ensures amount { share.new.amount ≡ share.old.amount + (if is_some result.1 then 1 else 0) }
        ensures parts { share.new.parts ≡ share.old.parts }
    {
        let mut locked = self.opened.wait_while(rt, self.locked.lock(rt), |locked| {
            is_at_rest && locked.holds_up()
        });
        let closed = locked.close_if_due();
        let (answer, kept) = locked.call_and_show(share, question, seen);
        let is_over = locked.book.wait_end().is_some();
        drop(locked);
        drop(closed);
        if let Some(receipt) = &kept {
            self.wake(&receipt.entry.line, is_over);
        }
        (answer, kept)
    }

    /// Wakes those whom the event of an entry concerns: one worker, if it may make a package wait; the workers for which memory was wanting, if
    /// it is news; and the waits for all packages, if they are over.
    fn wake(&self, line: &Line, is_over: bool) {
        if may_wake(line) {
            self.work.notify_one();
        }
        if is_news(line) {
            self.news.notify_all();
        }
        if is_over {
            self.built.notify_all();
        }
    }

    /// Waits until a package waits to be built, and takes a Job of it at a seat. The Take is refused only for want of memory. After the book
    /// was stopped it makes no event, and returns `None`. The Job has the inputs of its package in the last files of what is then `seen`.
    pub fn take<R: Wait>(
        &self,
        rt: &R,
        seat: &mut Seat<L>,
        seen: &mut Option<Versions<Graph, L>>,
    ) -> Option<Result<Job, Refusal>>
        ensures took { MatchOption result (seat.new ≡ seat.old) (λ answer. CallsWith L.most seat.old Take (taken answer) seat.new × LacksOnly answer) }
        ensures brings { IfSome result (λ answer. IfOk answer (λ job. IfSome seen.new (λ v. BringsInputs v job))) }
    {
        let needed = match reserve(&mut seat.receipts, seat.jobs, EntryKind::Take) {
            Err(error) => return Some(Err(Refusal::from(error))),
            Ok(needed) => needed,
        };
        let (answer, kept) = self.take_waiting(rt, &mut seat.share, seen)?;
        let Some(gained) = kept else {
            return Some(answer);
        };
        seat.jobs = jobs_after(seat.jobs, needed, &gained.entry.line);
        seat.receipts.push_reserved(gained);
        Some(answer)
    }

    /// Waits until a package waits to be built, and takes a Job of it under the same lock. Wakes one worker more, if another package waits.
    fn take_waiting<R: Wait>(
        &self,
        rt: &R,
        share: &mut Share<L>,
        seen: &mut Option<Versions<Graph, L>>,
    ) -> Option<(Result<Job, Refusal>, Option<Receipt>)>
        requires { 0 < share.old.parts }
        ensures brings { IfSome result (λ took. IfOk took.0 (λ job. IfSome seen.new (λ v. BringsInputs v job))) }
        ensures step { IfSome result (λ took. IsReceiptOrNone L.most Take (taken took.0) took.1 × LacksOnly took.0) }
        ensures amount { MatchOption result (share.new.amount ≡ share.old.amount) (λ took. share.new.amount ≡ share.old.amount + (if is_some took.1 then 1 else 0)) }
        ensures parts { share.new.parts ≡ share.old.parts }
    {
        let mut locked = self
            .work
            .wait_while(rt, self.locked.lock(rt), |locked| locked.rests());
        let taken = locked.take_and_show(share, seen);
        let is_more = locked.has_work();
        drop(locked);
        if is_more {
            self.work.notify_one();
        }
        taken
    }

    /// Delivers at a seat what was built for a Job. The Job has the inputs of its package in the last files of what was seen. Where these are still
    /// current, no text is compared under the lock. It returns what `call` returns.
    pub fn deliver<R: Wait>(
        &self,
        rt: &R,
        seat: &mut Seat<L>,
        job: Job,
        built: Built,
        seen: &Option<Versions<Graph, L>>,
    ) -> (Handed, Option<u64>)
        requires brings { IfSome seen.now (λ v. BringsInputs v job) }
        requires built { IsBuiltOf job built }
        ensures receipt { Calls L.most seat.old (Deliver job built) (handed result.0) result.1 seat.new }
        ensures kind { MayReply (Deliver job built) (handed result.0) }
    {
        let needed = match reserve(&mut seat.receipts, seat.jobs, EntryKind::Deliver) {
            Err(error) => return (turn_away(HandingIn::Deliver(job, built), error), None),
            Ok(needed) => needed,
        };
        let is_at_rest = seat.receipts.is_empty();
        let (answer, kept) = self.deliver_step(rt, &mut seat.share, job, built, seen, is_at_rest);
        let Some(left) = kept else {
            return (answer, None);
        };
        let at = left.index;
        seat.jobs = jobs_after(seat.jobs, needed, &left.entry.line);
        seat.receipts.push_reserved(left);
        (answer, Some(at))
    }

    /// Delivers under the lock, and wakes those whom it concerns. A seat at rest first waits until a chapter that is due is closed.
    fn deliver_step<R: Wait>(
        &self,
        rt: &R,
        share: &mut Share<L>,
        job: Job,
        built: Built,
        seen: &Option<Versions<Graph, L>>,
        is_at_rest: bool,
    ) -> (Handed, Option<Receipt>)
        requires share { 0 < share.old.parts }
        requires brings { IfSome seen.now (λ v. BringsInputs v job) }
        requires built { IsBuiltOf job built }
        ensures step { IsReceiptOrNone L.most (Deliver job built) (handed result.0) result.1 }
        ensures kind { MayReply (Deliver job built) (handed result.0) }
        ensures amount { share.new.amount ≡ share.old.amount + (if is_some result.1 then 1 else 0) }
        ensures parts { share.new.parts ≡ share.old.parts }
    {
        let mut locked = self.opened.wait_while(rt, self.locked.lock(rt), |locked| {
            is_at_rest && locked.holds_up()
        });
        let closed = locked.close_if_due();
        let (answer, kept) = locked.deliver(share, job, built, seen);
        let is_over = locked.book.wait_end().is_some();
        drop(locked);
        drop(closed);
        if let Some(receipt) = &kept {
            self.wake(&receipt.entry.line, is_over);
        }
        (answer, kept)
    }

    /// Commits a change at a seat. Its base has the files with which what was seen ends. Where these are still current, no text is compared under
    /// the lock. It returns what `call` returns. What is then `seen` ends with the files that were current behind the commit, under the same lock.
    pub fn commit<R: Wait>(
        &self,
        rt: &R,
        seat: &mut Seat<L>,
        basis: u64,
        change: MadeChange,
        seen: &mut Option<Versions<Graph, L>>,
    ) -> (Result<u64, Refusal>, Option<u64>)
        requires { IfSome seen.old (λ v. IsLastVersion v change.base) }
        ensures receipt { Calls L.most seat.old (Commit basis change) (done result.0) result.1 seat.new }
        ensures kind { MayReply (Commit basis change) (done result.0) }
        ensures seen { IfSome seen.new (EndsBehind (Commit basis change) (done result.0)) }
    {
        let needed = match reserve(&mut seat.receipts, seat.jobs, EntryKind::Commit) {
            Err(error) => {
                *seen = None;
                return (turn_away(Changing::Commit(basis, change), error), None);
            }
            Ok(needed) => needed,
        };
        let is_at_rest = seat.receipts.is_empty();
        let (answer, kept) = self.commit_step(rt, &mut seat.share, basis, change, seen, is_at_rest);
        let Some(left) = kept else {
            return (answer, None);
        };
        let at = left.index;
        seat.jobs = jobs_after(seat.jobs, needed, &left.entry.line);
        seat.receipts.push_reserved(left);
        (answer, Some(at))
    }

    /// Commits under the lock, and wakes those whom it concerns. A seat at rest first waits until a chapter that is due is closed.
    fn commit_step<R: Wait>(
        &self,
        rt: &R,
        share: &mut Share<L>,
        basis: u64,
        change: MadeChange,
        seen: &mut Option<Versions<Graph, L>>,
        is_at_rest: bool,
    ) -> (Result<u64, Refusal>, Option<Receipt>)
        requires share { 0 < share.old.parts }
        requires sees { IfSome seen.old (λ v. IsLastVersion v change.base) }
        ensures seen { IfSome seen.new (EndsBehind (Commit basis change) (done result.0)) }
        ensures step { IsReceiptOrNone L.most (Commit basis change) (done result.0) result.1 }
        ensures kind { MayReply (Commit basis change) (done result.0) }
        ensures amount { share.new.amount ≡ share.old.amount + (if is_some result.1 then 1 else 0) }
        ensures parts { share.new.parts ≡ share.old.parts }
    {
        let mut locked = self.opened.wait_while(rt, self.locked.lock(rt), |locked| {
            is_at_rest && locked.holds_up()
        });
        let closed = locked.close_if_due();
        let (answer, kept) = locked.commit_and_show(share, basis, change, seen);
        let is_over = locked.book.wait_end().is_some();
        drop(locked);
        drop(closed);
        if let Some(receipt) = &kept {
            self.wake(&receipt.entry.line, is_over);
        }
        (answer, kept)
    }

    /// Makes one event of the book at a seat, and returns the answer.
    pub fn send<R: Wait, Q: Question>(&self, rt: &R, seat: &mut Seat<L>, question: Q) -> Q::Answer
        ensures replies { CallsWith L.most seat.old (Q.event question) (Q.reply result) seat.new }
        ensures kind { MayReply (Q.event question) (Q.reply result) }
    {
        let (answer, _index) = self.call(rt, seat, question);
        answer
    }

    /// Has the book keep the findings of the packages of `files` whose closures have the same texts in the current files. It is no event, and
    /// no seat gains a receipt.
    pub fn learn<R: Wait>(
        &self,
        rt: &R,
        files: &Graph,
        known: Known,
        seen: &Option<Versions<Graph, L>>,
    )
        requires known { KnowsVerdicts files.now known }
        requires seen { IfSome seen.now (λ v. IsLastVersion v files.now) }
    {
        self.locked.lock(rt).learn(files, known, seen);
    }

    /// What is known of units of packages of `files`, if these are the current files. It is no event, and no seat gains a receipt.
    pub fn known_units<R: Wait>(
        &self,
        rt: &R,
        files: &Graph,
        seen: &Option<Versions<Graph, L>>,
    ) -> Option<KnownUnits>
        requires { IfSome seen.now (λ v. IsLastVersion v files.now) }
        ensures { AreKnownIn files.now result }
    {
        self.locked.lock(rt).known_units(files, seen)
    }

    /// Has the book keep what is known of units of packages, if their files are the current ones. It is no event, and no seat gains a
    /// receipt.
    pub fn learn_units<R: Wait>(&self, rt: &R, units: KnownUnits, seen: &Option<Versions<Graph, L>>)
        requires { IfSome seen.now (λ v. IsLastVersion v units) }
    {
        self.locked.lock(rt).learn_units(units, seen);
    }

    /// What the book tells of itself. It is no event, and no seat gains a receipt.
    pub fn standing<R: Wait>(&self, rt: &R) -> Result<Standing, AllocError>
        ensures { IfOk result (TellsOfBook L.most) }
    {
        self.locked.lock(rt).standing()
    }

    /// Counts the bytes of texts that a change put into files. The journal keeps them until its chapter is closed.
    pub fn keep<R: Wait>(&self, rt: &R, bytes: u64) {
        self.locked.lock(rt).keep(bytes);
    }

    /// Counts a session that begins.
    pub fn begin_session<R: Wait>(&self, rt: &R) {
        self.locked.lock(rt).begin_session();
    }

    /// Counts a session that has ended.
    pub fn end_session<R: Wait>(&self, rt: &R) {
        self.locked.lock(rt).end_session();
    }

    /// Has a seat that comes to rest hand in the receipts that it holds. The last seat that does so closes a chapter that is due. The seat keeps
    /// its receipts for want of memory, and where it has a Job in hand.
    pub fn hand_in<R: Wait>(&self, rt: &R, seat: &mut Seat<L>)
        requires { ∥ L.accounts seat.old ∥₁ }
        ensures { IsRested seat.old seat.new }
    {
        if seat.receipts.is_empty() {
            return;
        }
        let mut locked = self.locked.lock(rt);
        let was_due = locked.is_due();
        let is_handed_in = seat.jobs == 0 && locked.hand_in(&mut seat.share, &mut seat.receipts);
        locked.rest(seat.is_held_back, !is_handed_in);
        let closed = locked.close_if_due();
        let is_open = !locked.holds_up();
        drop(locked);
        seat.is_held_back = !is_handed_in;
        if was_due && is_open {
            self.wake_all();
        }
        drop(closed);
    }

    /// Wakes all who wait, as where a chapter was closed.
    fn wake_all(&self) {
        self.opened.notify_all();
        self.work.notify_all();
        self.built.notify_all();
    }

    /// Ends the sharing, and returns the book. It is settled if its new entries are exactly those of the receipts that were handed in. What the
    /// seats still hold is handed in first; that alone takes memory.
    pub fn settle(self, free: FreeSeats<L>, seats: Vec<Seat<L>>) -> Result<Book, Unsettled>
        requires { All (λ (seat : List HeldReceipt). ∥ L.accounts seat ∥₁) seats.items }
        ensures settled { ∥ IsSettling L.accounts L.begun L.from L.parts seats.items (book_in result) (is_ok result) ∥₁ }
        ensures limits { limit_numbers (book_in result).limits ≡ L.limits }
    {
        let Shared {
            locked,
            work,
            news,
            built,
            opened,
            judged,
        } = self;
        drop(work);
        drop(news);
        drop(built);
        drop(opened);
        drop(judged);
        locked.into_inner().settle(free, seats)
    }

    /// Counts a worker.
    pub fn join<R: Wait>(&self, rt: &R) {
        self.locked.lock(rt).join();
    }

    /// What a worker is to judge before its next Job, or `None` where it is to take this Job. It waits until a package waits to be built, and
    /// while others judge what the Job needs.
    fn next_ahead<R: Wait>(&self, rt: &R, alloc: Global) -> Option<Ahead<L>> {
        for _ in rt.forever() {
            let mut locked = self
                .work
                .wait_while(rt, self.locked.lock(rt), |locked| locked.is_idle());
            match locked.before_job(alloc) {
                NextStep::Judge(ahead) => return Some(ahead),
                NextStep::Wait => drop(self.judged.wait(rt, locked)),
                NextStep::Take => return None,
            }
        }
        unreachable!()
    }

    /// Judges packages, has the book keep their findings, and wakes the workers that wait for them.
    fn judge<R: Wait>(&self, rt: &R, alloc: Global, ahead: &Ahead<L>) {
        match ahead.judged(alloc) {
            Ok(known) => self.locked.lock(rt).learn_ahead(&ahead.state, known),
            Err(_) => self.locked.lock(rt).end_ahead(),
        }
        self.judged.notify_all();
    }

    /// Judges packages until the next Job needs no verdict on another package. No two workers judge the same package here. It is no event,
    /// and no seat gains a receipt. Only speed rests on it.
    pub fn judge_ahead<R: Wait>(&self, rt: &R, alloc: Global) {
        for _ in rt.forever() {
            let Some(ahead) = self.next_ahead(rt, alloc) else {
                return;
            };
            self.work.notify_one();
            self.judge(rt, alloc, &ahead);
        }
    }

    /// How many events changed the workspace or delivered a Job, or `None` after the book was stopped.
    pub fn news_unless_stopped<R: Wait>(&self, rt: &R) -> Option<u64> {
        let locked = self.locked.lock(rt);
        if locked.is_stopped {
            None
        } else {
            Some(locked.news)
        }
    }

    /// Waits until there is more news than `seen`, or the book is stopped.
    pub fn wait_for_news<R: Wait>(&self, rt: &R, seen: u64) {
        let locked = self.news.wait_while(rt, self.locked.lock(rt), |locked| {
            locked.news == seen && !locked.is_stopped
        });
        drop(locked);
    }

    /// Stops the workers.
    pub fn stop<R: Wait>(&self, rt: &R) {
        self.locked.lock(rt).stop();
        self.work.notify_all();
        self.news.notify_all();
    }

    /// Waits until every package is finished, and looks at the current state under the same lock. The wait is refused with no event where no
    /// package can be built any more, since the journal is full.
    pub fn wait_built<R: Wait>(&self, rt: &R, seat: &mut Seat<L>) -> Result<View, Refusal>
        ensures { LooksOnceBuilt L.most seat.old result seat.new }
    {
        let needed = match reserve(&mut seat.receipts, seat.jobs, EntryKind::Look) {
            Err(error) => return Err(Refusal::from(error)),
            Ok(needed) => needed,
        };
        let (shown, kept) = self.look_built(rt, &mut seat.share);
        let Some(looked) = kept else {
            return shown;
        };
        seat.jobs = jobs_after(seat.jobs, needed, &looked.entry.line);
        seat.receipts.push_reserved(looked);
        shown
    }

    /// Waits until a wait for all packages ends, and no chapter is due. It looks at the current state under the same lock.
    fn look_built<R: Wait>(
        &self,
        rt: &R,
        share: &mut Share<L>,
    ) -> (Result<View, Refusal>, Option<Receipt>)
        requires { 0 < share.old.parts }
        ensures looked { LooksBuilt L.most result.0 result.1 }
        ensures amount { share.new.amount ≡ share.old.amount + (if is_some result.1 then 1 else 0) }
        ensures parts { share.new.parts ≡ share.old.parts }
    {
        for _ in rt.forever() {
            let mut locked = self.locked.lock(rt);
            if !locked.holds_up() {
                if let Some(shown) = locked.look_built(share) {
                    return shown;
                }
            }
            drop(self.built.wait(rt, locked));
        }
        unreachable!()
    }
}
