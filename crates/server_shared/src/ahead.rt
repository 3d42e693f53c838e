//! What workers judge before they take a Job, so that several workers don't judge the same packages. Only speed rests on what is marked here:
//! a Job is built with its own verdicts, whatever was judged before it.
ghost use Rattle.std.specs.Prelude.{IfOk, IfSome};
ghost use Rattle.workspace_check.specs.Found.{KnowsVerdicts};
ghost use Rattle.std.proofs.Props.{props};
ghost use Rattle.server_versions.specs.Growing.{IsLastVersion};
ghost use Rattle.server_shared.specs.SeenFiles.{IsLastVersion-prop};

use crate::opening::Opening;
use build_carry::judged_ahead;
use history_machine::KnownSnapshot;
use server_versions::Versions;
use std::alloc::{AllocError, Global};
use std::mem;
use workspace_check::{Known, is_marked};
use workspace_graph::Graph;

/// In a large workspace a worker judges one of so many packages before it hands the verdicts in.
const PART_AHEAD: usize = 64;

/// So many packages at least a worker judges before it hands the verdicts in, if as many may be judged.
const LEAST_AHEAD: usize = 2;

/// A snapshot of the current state, and what was seen of the log of files, which then ended with the state's files.
#[derive(Drop)]
pub struct ShownState<L: Opening> {
    pub snapshot: KnownSnapshot,
    pub seen: Option<Versions<Graph, L>>,
    ghost ends: { IfSome seen (λ v. IsLastVersion v snapshot.files) } by { Prim.hlevel (props, IsLastVersion-prop) },
}

/// Packages that a worker is to judge, by their numbers in a snapshot of the current state.
#[derive(Drop)]
pub struct Ahead<L: Opening> {
    pub(crate) state: ShownState<L>,
    numbers: Vec<usize>,
}

impl<L: Opening> Ahead<L> {
    /// Judges the packages, and returns what is known then.
    pub(crate) fn judged(&self, alloc: Global) -> Result<Known, AllocError>
        ensures { IfOk result (KnowsVerdicts self.now.state.snapshot.files) }
    {
        let snapshot = &self.state.snapshot;
        judged_ahead(
            alloc,
            snapshot.files(),
            self.numbers.as_slice(),
            snapshot.known(),
        )
    }
}

/// What a worker does before it takes its next Job.
#[derive(Drop)]
pub enum NextStep<L: Opening> {
    /// It judges packages.
    Judge(Ahead<L>),
    /// It waits until another worker has judged packages.
    Wait,
    /// It takes the Job at once.
    Take,
}

/// Whether a verdict is known on each package that the package `number` imports, or will be known behind those of `first`.
fn knows_imports(files: &Graph, known: &Known, first: &[usize], number: usize) -> bool {
    if number >= files.len() {
        return true;
    }
    for import in files.imports(number) {
        if known.get(*import).is_none() && !first.contains(import) {
            return false;
        }
    }
    true
}

/// The packages of a state, by their numbers, that workers have begun to judge or to build. In `order` each comes after those that it
/// imports, as far as they don't import it. It is empty until a worker first chooses packages to judge.
#[derive(Drop)]
struct Marked {
    state: u64,
    order: Vec<usize>,
    marks: Vec<bool>,
}

impl Marked {
    /// No package of a snapshot's state is marked.
    fn none_of(alloc: Global, snapshot: &KnownSnapshot) -> Result<Marked, AllocError> {
        let marks = vec![in alloc; false; snapshot.files().len()]?;
        Ok(Marked {
            state: snapshot.number(),
            order: Vec::new(alloc),
            marks,
        })
    }

    /// Sets the order, unless it is set.
    fn set_order(&mut self, alloc: Global, files: &Graph) -> Result<(), AllocError> {
        if !self.order.is_empty() {
            return Ok(());
        }
        if let Some(order) = files.links().order(alloc)? {
            self.order = order;
        }
        Ok(())
    }

    /// Marks a package.
    fn mark(&mut self, number: usize) {
        if number < self.marks.len() {
            self.marks[number] = true;
        }
    }

    /// Whether a package may be judged behind those of `first`: it is not marked and has no known verdict, and each package that it imports has
    /// one or is among these.
    fn is_ready(&self, snapshot: &KnownSnapshot, first: &[usize], number: usize) -> bool {
        if is_marked(&self.marks, number) {
            return false;
        }
        let known = snapshot.known();
        if known.get(number).is_some() {
            return false;
        }
        knows_imports(snapshot.files(), known, first, number)
    }

    /// Some packages that may be judged now, one behind another.
    fn next_ready(
        &self,
        alloc: Global,
        snapshot: &KnownSnapshot,
    ) -> Result<Vec<usize>, AllocError> {
        let most = LEAST_AHEAD.max(self.order.len() / PART_AHEAD);
        let mut numbers = Vec::new(alloc);
        for number in &self.order {
            if numbers.len() < most && self.is_ready(snapshot, numbers.as_slice(), *number) {
                numbers.push(*number)?;
            }
        }
        Ok(numbers)
    }

    /// Marks some packages that may be judged now, one behind another, and returns their numbers.
    fn begin(&mut self, alloc: Global, snapshot: &KnownSnapshot) -> Result<Vec<usize>, AllocError> {
        self.set_order(alloc, snapshot.files())?;
        let numbers = self.next_ready(alloc, snapshot)?;
        for number in &numbers {
            self.mark(*number);
        }
        Ok(numbers)
    }
}

/// The marks of packages of a snapshot's state: these, if they are of this state, and none otherwise.
fn marked_in(
    alloc: Global,
    marked: Option<Marked>,
    snapshot: &KnownSnapshot,
) -> Result<Marked, AllocError> {
    match marked {
        None => Marked::none_of(alloc, snapshot),
        Some(marked) => {
            if marked.state == snapshot.number() {
                return Ok(marked);
            }
            drop(marked);
            Marked::none_of(alloc, snapshot)
        }
    }
}

/// The workers of a shared book: how many there are, how many of them judge packages now, and which packages they have begun.
#[derive(Drop)]
pub struct Crew {
    workers: u64,
    judging: u64,
    marked: Option<Marked>,
}

impl Crew {
    /// No worker.
    pub(crate) fn new() -> Crew {
        Crew {
            workers: 0,
            judging: 0,
            marked: None,
        }
    }

    /// Counts a worker.
    pub(crate) fn join(&mut self) {
        self.workers = self.workers.wrapping_add(1);
    }

    /// How many workers there are.
    pub(crate) fn workers(&self) -> u64 {
        self.workers
    }

    /// Whether there is one worker at most, so that no two can judge the same package.
    pub(crate) fn is_alone(&self) -> bool {
        self.workers < 2
    }

    /// Counts a worker that begins to judge packages, unless there are none. Then it waits for others that judge.
    fn begun<L: Opening>(&mut self, state: ShownState<L>, numbers: Vec<usize>) -> NextStep<L> {
        if !numbers.is_empty() {
            self.judging = self.judging.wrapping_add(1);
            return NextStep::Judge(Ahead { state, numbers });
        }
        if self.judging == 0 {
            NextStep::Take
        } else {
            NextStep::Wait
        }
    }

    /// What a worker does before it takes a Job of the package `next`, the first that waits. Where each of its imports has a known verdict,
    /// the Job judges this package alone.
    pub(crate) fn before<L: Opening>(
        &mut self,
        alloc: Global,
        state: ShownState<L>,
        next: usize,
    ) -> Result<NextStep<L>, AllocError> {
        let snapshot = &state.snapshot;
        let earlier = mem::replace(&mut self.marked, None);
        let mut marked = marked_in(alloc, earlier, snapshot)?;
        if knows_imports(snapshot.files(), snapshot.known(), &[], next) {
            marked.mark(next);
            self.marked = Some(marked);
            return Ok(NextStep::Take);
        }
        let numbers = marked.begin(alloc, snapshot)?;
        self.marked = Some(marked);
        Ok(self.begun(state, numbers))
    }

    /// Counts a worker that has judged packages.
    pub(crate) fn end(&mut self) {
        self.judging = self.judging.saturating_sub(1);
    }
}
