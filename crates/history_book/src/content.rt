//! The content of a book: the states of a workspace, the Jobs that are out, and what each event makes of them.
ghost use Rattle.std.specs.Prelude.{◌≡◌, ◌↔◌, ◌+◌, ◌^◌, ◌≤◌, ℕ, [], IfOk, IsTrue, List, length};
ghost use Rattle.base_edits.specs.Fits.{Fits};
ghost use Rattle.workspace_check.specs.Found.{KnowsVerdicts};
ghost use Rattle.build_unit.specs.Jobs.{IsOut};
ghost use Rattle.build_unit.specs.Units.{IsUnitAt};
ghost use Rattle.build_kept.specs.KnownUnits.{AreKnownUnits};
ghost use Rattle.history_book.specs.CurrentUnits.{AreKnownIn};
ghost use Rattle.history_machine.specs.Machine.{HasNumbersLeft, content, opening};
ghost use Rattle.history_book.specs.CurrentInputs.{HasCurrentInputs};
ghost use Rattle.history_book.specs.Handed.{handed};
ghost use Rattle.history_book.specs.Outcomes.{HasOutcome};
ghost use Rattle.history_book.specs.WorkLeft.{AreAllFinished};
ghost use Rattle.history_machine.specs.Step.{AnswersOrLacks, committed, done, looked, taken};
ghost use Rattle.history_machine.specs.Waiting.{FindsWaiting, WaitsIn};
ghost use Rattle.history_machine.specs.declared.event.Event.TheVariants.{Commit, Deliver, GiveBack, Look, Redo, Take, Undo};

use crate::deliveries::{DeliveryOutcome, outcome_of, outcome_on_current};
use crate::following::state_after;
use crate::handed::{Handed, take_in};
use crate::learning::with_found;
use crate::states::States;
use crate::work_left::{are_all_finished, has_package_waiting};
use base_edits::EditSet;
use base_files::{Limits, Refusal};
use build_carry::Finished;
use build_kept::KnownUnits;
use build_unit::{Built, Job, Out, PackageInputs, SharedPath, Unit};
use history_inverses::History;
use history_machine::{EntryEdits, KnownSnapshot, State, View, first_waiting};
use std::alloc::{AllocError, Global};
use std::marker::Model;
use workspace_check::{Known, SharedKnown};
use workspace_graph::Graph;
use workspace_snapshot::MadeChange;

/// The states of a workspace, with a cursor on the current one, and the Jobs that are out.
pub struct Content {
    pub(crate) alloc: Global,
    pub limits: Limits,
    pub(crate) history: States,
    pub out: Out,
    /// What is known of units of the current state's packages before these are built. Contracts don't see it.
    pub(crate) ready: Option<KnownUnits>,
}

impl Model for Content {
    ghost use Rattle.std.specs.Prelude.{◌≡◌};
    ghost use Rattle.history_book.specs.CurrentUnits.{AreKnownIn};
    ghost use Rattle.history_book.specs.Histories.{KeepStates, content_of};
    ghost use Rattle.history_machine.specs.Machine.{Content};
    ghost use Rattle.std.specs.Coded.{codes};
    ghost use Rattle.build_unit.specs.Codes.{unit_code, workspace_code};

    ghost Value = { Content };

    ghost coded = { Prim.hlevel (codes, unit_code, workspace_code) };

    ghost view = { λ a. content_of a.history a.limits a.out };

    ghost invariant = { λ a. (a.history.ways.depth ≡ a.limits.undo_depth) × KeepStates a.history × AreKnownIn a.history.current.files a.ready };
}

/// How many entries the closed journals of a book have at most.
const MOST_CLOSED: u64 = 1 << 63;

/// Whether the base of a change has these files, byte for byte.
fn is_based(change: &MadeChange, files: &Graph) -> bool
    ensures { IsTrue result ↔ (change.now.base ≡ files.now) }
{
    change.get().base.files().same(files.files())
}

/// Whether edits fit the files of a state.
fn fit_state(edits: &EditSet, state: &State) -> bool
    ensures { IsTrue result ↔ Fits edits.now state.now.files }
{
    edits.fits(state.files.files())
}

/// A snapshot of a state, and its finished units. Both are shared.
fn parts_shown(state: &State, limits: Limits) -> Result<(KnownSnapshot, Finished), AllocError>
    ensures snapshot { IfOk result (λ parts. parts.0 ≡ record { number = state.now.number; limits = limits; files = state.now.files }) }
    ensures finished { IfOk result (λ parts. parts.1 ≡ state.now.finished) }
{
    let snapshot = state.snapshot(limits)?;
    let finished = state.finished.clone()?;
    Ok((snapshot, finished))
}

/// The unit of the package of a number of a state, if it is known before it is built.
fn ready_unit(
    alloc: Global,
    ready: &Option<KnownUnits>,
    state: &State,
    number: usize,
) -> Result<Option<Unit>, AllocError>
    requires { AreKnownIn state.now.files ready.now }
    ensures { IfOk result (IsUnitAt state.now.files number) }
{
    match ready {
        Some(known) => known.unit(alloc, number),
        None => Ok(None),
    }
}

/// Whether a unit is known of the first package that either is finished in a state or has a known unit, but not both.
fn knows_more(ready: &KnownUnits, state: &State) -> bool {
    for number in 0..state.files.len() {
        let is_known = ready.has(number);
        if is_known != state.finished.get(number).is_some() {
            return is_known;
        }
    }
    false
}

/// The finished units of a state. They are shared.
fn finished_units(alloc: Global, state: &State) -> Result<KnownUnits, AllocError>
    requires { AreKnownUnits state.now.files [] state.now.finished }
    ensures { IfOk result (λ units. units ≡ state.now.files) }
{
    let files = state.files.clone()?;
    let finished = state.finished.clone()?;
    Ok(KnownUnits::of(alloc, files, finished))
}

/// What is known of the units of a state's packages: the finished ones, or what was known before they were built, where that is more.
fn more_units(alloc: Global, known: &KnownUnits, state: &State) -> Result<KnownUnits, AllocError>
    requires known { known.now ≡ state.now.files }
    requires finished { AreKnownUnits state.now.files [] state.now.finished }
    ensures { IfOk result (λ units. units ≡ state.now.files) }
{
    if knows_more(known, state) {
        known.copy(alloc)
    } else {
        finished_units(alloc, state)
    }
}

/// The same, where something may be known before the packages are built.
fn units_in(
    alloc: Global,
    ready: &Option<KnownUnits>,
    state: &State,
) -> Result<KnownUnits, AllocError>
    requires ready { AreKnownIn state.now.files ready.now }
    requires finished { AreKnownUnits state.now.files [] state.now.finished }
    ensures { IfOk result (λ units. units ≡ state.now.files) }
{
    match ready {
        Some(known) => more_units(alloc, known, state),
        None => finished_units(alloc, state),
    }
}

impl Content {
    /// The content of one state, which has the number 0 and no files. No Job is out.
    pub fn new(alloc: Global, limits: Limits) -> Result<Content, AllocError>
        ensures { IfOk result (λ states. states ≡ content (opening limits)) }
    {
        let files = Graph::empty(alloc)?;
        let finished = Finished::new(alloc)?;
        let nothing = Known::new(alloc);
        let known = SharedKnown::new(alloc, nothing)?;
        Ok(Content {
            alloc,
            limits,
            history: States {
                earlier: Vec::new(alloc),
                current: State {
                    number: 0,
                    files,
                    finished,
                    known,
                },
                later: Vec::new(alloc),
                ways: History::new(alloc, limits.undo_depth),
                next: 1,
                visit: 0,
                begun: 0,
            },
            out: Out::new(alloc),
            ready: None,
        })
    }

    /// The number of the current state.
    pub fn number(&self) -> u64
        ensures { result ≡ self.now.current.number }
    {
        self.history.current.number()
    }

    /// The current files.
    pub fn files(&self) -> &Graph
        ensures { result.now ≡ self.now.current.files }
    {
        &self.history.current.files
    }

    /// How many steps undo can make.
    pub fn undo_steps(&self) -> usize
        ensures { result ≡ length self.now.earlier }
    {
        self.history.earlier.len()
    }

    /// How many steps redo can make.
    pub fn redo_steps(&self) -> usize
        ensures { result ≡ length self.now.later }
    {
        self.history.later.len()
    }

    /// Whether edits fit the current files.
    pub fn fits(&self, edits: &EditSet) -> bool
        ensures { IsTrue result ↔ Fits edits.now self.now.current.files }
    {
        fit_state(edits, &self.history.current)
    }

    /// How many Jobs are out.
    pub fn jobs(&self) -> usize
        ensures { result ≡ length self.now.out.jobs }
    {
        self.out.len()
    }

    /// Whether a Job is out.
    pub fn is_out(&self, job: &Job) -> bool
        ensures { IsTrue result ↔ IsOut self.now.out job.now }
    {
        self.out.is_out(job)
    }

    /// Whether so many more entries can be counted as closed.
    pub fn has_room(&self, entries: u64) -> bool
        requires { self.now.begun ≤ 2 ^ 63 }
        ensures { IsTrue result ↔ (self.now.begun + entries ≤ 2 ^ 63) }
    {
        entries <= MOST_CLOSED - self.history.begun
    }

    /// How many entries the journals have that were closed.
    pub fn begun(&self) -> u64
        ensures { result ≡ self.now.begun }
    {
        self.history.begun
    }

    /// Counts the entries of a journal that is closed.
    pub fn count_closed(&mut self, entries: u64)
        requires { self.old.begun + entries ≤ 2 ^ 63 }
        ensures { self.new ≡ record self.old { begun = self.old.begun + entries } }
    {
        self.history.begun += entries;
    }

    /// Whether no Job is out.
    pub fn has_no_job_out(&self) -> bool
        ensures { IsTrue result ↔ (length self.now.out.jobs ≡ 0) }
    {
        self.jobs() == 0
    }

    /// Whether a package of the current state waits to be built.
    pub fn has_waiting(&self) -> bool
        ensures { IsTrue result ↔ ((p : List ℕ) × WaitsIn self.now p) }
    {
        has_package_waiting(&self.history.current, &self.out, self.history.visit)
    }

    /// The number of the first package of the current state that waits to be built.
    pub fn first_waiting(&self) -> Option<usize>
        ensures { FindsWaiting self.now.current self.now.out self.now.visit result }
    {
        first_waiting(&self.history.current, &self.out, self.history.visit)
    }

    /// A snapshot of the current state, with what is known of its packages. The files are shared.
    pub fn snapshot(&self) -> Result<KnownSnapshot, AllocError>
        ensures { IfOk result (λ snapshot. snapshot ≡ record { number = self.now.current.number; limits = self.now.limits; files = self.now.current.files }) }
    {
        self.history.current.snapshot(self.limits)
    }

    /// Whether each package of the current state is finished.
    pub fn has_all_finished(&self) -> bool
        ensures { IsTrue result ↔ AreAllFinished self.now.current }
    {
        are_all_finished(&self.history.current)
    }

    /// A view of the current state. The files and the finished units are shared.
    pub fn look(&self) -> Result<View, Refusal>
        ensures { AnswersOrLacks self.now Look (looked result) self.now }
    {
        let (snapshot, finished) = parts_shown(&self.history.current, self.limits)?;
        Ok(View {
            snapshot,
            finished,
            undo: self.history.earlier.len(),
            redo: self.history.later.len(),
            history: None,
        })
    }

    /// Admits a change whose base has the current files. Returns the new state's number and the change's edits.
    fn admit(&mut self, change: MadeChange) -> Result<(u64, EntryEdits), Refusal>
        requires numbers { HasNumbersLeft self.old }
        requires base { change.base ≡ self.old.current.files }
        ensures answer { AnswersOrLacks self.old (Commit self.old.current.number change) (committed result) self.new }
        ensures edits { IfOk result (λ made. made.1 ≡ change.edits) }
    {
        self.ready = None;
        let (state, edits, back) = state_after(
            self.alloc,
            &self.history.current,
            self.history.next,
            change,
        )?;
        let number = self.history.advance(self.alloc, self.limits, state, back)?;
        Ok((number, edits))
    }

    /// Admits a change where its basis is the current number and its base has the current files, byte for byte. Returns the new state's
    /// number, and the edits for the entry.
    pub fn commit(&mut self, basis: u64, change: MadeChange) -> Result<(u64, EntryEdits), Refusal>
        requires { HasNumbersLeft self.old }
        ensures answer { AnswersOrLacks self.old (Commit basis change) (committed result) self.new }
        ensures edits { IfOk result (λ made. made.1 ≡ change.edits) }
    {
        let current = &self.history.current;
        let number = current.number;
        if basis != number || !is_based(&change, &current.files) {
            return Err(Refusal::Moved { current: number });
        }
        self.admit(change)
    }

    /// Admits a change whose base is known to have the current files, where its basis is the current number. No file is compared.
    pub fn commit_on_current(
        &mut self,
        basis: u64,
        change: MadeChange,
    ) -> Result<(u64, EntryEdits), Refusal>
        requires numbers { HasNumbersLeft self.old }
        requires base { change.base ≡ self.old.current.files }
        ensures answer { AnswersOrLacks self.old (Commit basis change) (committed result) self.new }
        ensures edits { IfOk result (λ made. made.1 ≡ change.edits) }
    {
        let number = self.history.current.number;
        if basis == number {
            return self.admit(change);
        }
        Err(Refusal::Moved { current: number })
    }

    /// Makes the state before the current one current again, where the basis is the current number. Returns that state's number.
    pub fn undo(&mut self, basis: u64) -> Result<u64, Refusal>
        requires { HasNumbersLeft self.old }
        ensures { AnswersOrLacks self.old (Undo basis) (done result) self.new }
    {
        self.ready = None;
        self.history.undo(self.alloc, basis)
    }

    /// Makes the state current again that the last undo left, where the basis is the current number. Returns that state's number.
    pub fn redo(&mut self, basis: u64) -> Result<u64, Refusal>
        requires { HasNumbersLeft self.old }
        ensures { AnswersOrLacks self.old (Redo basis) (done result) self.new }
    {
        self.ready = None;
        self.history.redo(self.alloc, basis)
    }

    /// Hands out a Job of the first package that waits to be built, with the package's inputs.
    pub fn take(&mut self) -> Result<Job, Refusal>
        requires { HasNumbersLeft self.old }
        ensures { AnswersOrLacks self.old Take (taken result) self.new }
    {
        let current = &self.history.current;
        let Some(number) = first_waiting(current, &self.out, self.history.visit) else {
            return Err(Refusal::NoJob);
        };
        let package = SharedPath::new(self.alloc, &current.files.package(number).path)?;
        let unit = ready_unit(self.alloc, &self.ready, current, number)?;
        let inputs = PackageInputs::with_unit(
            self.alloc,
            &current.files,
            number,
            &current.known,
            unit,
        )?;
        let job = self
            .out
            .hand_out(current.number, self.history.visit, package, inputs)?;
        Ok(job)
    }

    /// Takes the Job back, and lets the outcome of its delivery into the current state. A Job that is not out comes back.
    fn enter(
        &mut self,
        job: Job,
        built: Built,
        outcome: Result<DeliveryOutcome, AllocError>,
    ) -> Handed
        requires { IfOk outcome (HasOutcome self.old.current job built) }
        ensures { AnswersOrLacks self.old (Deliver job built) (handed result) self.new }
    {
        match outcome {
            Err(_) => Handed::Back(Refusal::Memory, job, Some(built)),
            Ok(outcome) => match self.out.take_back(job) {
                Err(job) => Handed::Back(Refusal::NoJob, job, Some(built)),
                Ok(record) => {
                    drop(record);
                    drop(built);
                    take_in(&mut self.history.current, outcome)
                }
            },
        }
    }

    /// Answers a delivery. A Job that is not out comes back before any text is compared.
    pub fn deliver(&mut self, job: Job, built: Built) -> Handed
        ensures { AnswersOrLacks self.old (Deliver job built) (handed result) self.new }
    {
        if !self.out.is_out(&job) {
            return Handed::Back(Refusal::NoJob, job, Some(built));
        }
        let outcome = outcome_of(self.alloc, &self.history.current, &job, &built);
        self.enter(job, built, outcome)
    }

    /// Answers a delivery that is known to have the inputs of its package in the current files. No text is compared.
    pub fn deliver_on_current(&mut self, job: Job, built: Built) -> Handed
        requires { HasCurrentInputs self.old.current.files job built }
        ensures { AnswersOrLacks self.old (Deliver job built) (handed result) self.new }
    {
        let outcome = outcome_on_current(self.alloc, &self.history.current, &job, &built);
        self.enter(job, built, outcome)
    }

    /// Takes a Job back that was not built. It takes no memory, and always succeeds for a Job that is out.
    pub fn give_back(&mut self, job: Job) -> Handed
        ensures { AnswersOrLacks self.old (GiveBack job) (handed result) self.new }
    {
        let number = self.history.current.number();
        let record = match self.out.take_back(job) {
            Ok(record) => record,
            Err(job) => return Handed::Back(Refusal::NoJob, job, None),
        };
        drop(record);
        Handed::Done(number)
    }

    /// Keeps the findings of the packages of `files` whose closures have the same texts in the current files.
    pub fn learn(&mut self, files: &Graph, known: Known)
        requires { KnowsVerdicts files.now known }
        ensures { self.new ≡ self.old }
    {
        self.history.current.learn(self.alloc, files, &known);
    }

    /// Keeps the findings of the packages of the current files, beside those that are known. No file is compared. For want of memory it learns
    /// nothing.
    pub fn learn_current(&mut self, found: Known)
        requires { KnowsVerdicts self.old.current.files found }
        ensures { self.new ≡ self.old }
    {
        let current = &self.history.current;
        if let Ok(known) = with_found(self.alloc, &current.files, &current.known, &found) {
            self.history.current.learn_own(known);
        }
    }

    /// What is known of the units of the current state's packages: the finished ones, or what was known before they were built, where that is
    /// more.
    pub fn known_units(&self) -> Result<KnownUnits, AllocError>
        requires { AreKnownUnits self.now.current.files [] self.now.current.finished }
        ensures { IfOk result (λ units. units ≡ self.now.current.files) }
    {
        units_in(self.alloc, &self.ready, &self.history.current)
    }

    /// Keeps what is known of the units of packages, if their files are the current ones.
    pub fn learn_units(&mut self, units: KnownUnits)
        ensures { self.new ≡ self.old }
    {
        if units.is_of(&self.history.current.files) {
            self.ready = Some(units);
        }
    }

    /// Keeps what is known of the units of the current state's packages. No file is compared.
    pub fn learn_current_units(&mut self, units: KnownUnits)
        requires { units ≡ self.old.current.files }
        ensures { self.new ≡ self.old }
    {
        self.ready = Some(units);
    }

    /// Drops all states and Jobs.
    pub fn close(self) {
        let Content {
            alloc: _,
            limits: _,
            history,
            out,
            ready,
        } = self;
        drop(ready);
        let States {
            earlier,
            current,
            later,
            ways,
            next: _,
            visit: _,
            begun: _,
        } = history;
        drop(earlier);
        drop(current);
        drop(later);
        ways.close();
        drop(out);
    }
}
