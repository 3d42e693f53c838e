//! The states of a workspace, and how a change, an undo and a redo move among them.
ghost use Rattle.std.specs.Prelude.{◌≡◌, ◌+◌, ◌^◌, ◌<◌, ◌≤◌, [], IfOk, MatchOption, OnErr, OnOk, max, vec_capacity, vec_len};
ghost use Rattle.base_edits.specs.EditSet.{edited};
ghost use Rattle.base_edits.specs.Fits.{Fits};
ghost use Rattle.base_edits.specs.Inverse.{IsInverse};
ghost use Rattle.history_inverses.specs.Inverses.{latest};
ghost use Rattle.history_machine.specs.Resting.{RestsOn};
ghost use Rattle.history_machine.specs.Step.{done};
ghost use Rattle.history_machine.specs.declared.event.Event.TheVariants.{Redo, Undo};
ghost use Rattle.history_book.specs.Histories.{AnswersAmongStates, GainsState, HasMove, IsMoving, IsOneStepOn, IsNearestState, IsSameHistory, KeepStates};

use base_edits::{Inverse, Prepared, WayBack};
use base_files::{Limits, Refusal};
use history_inverses::History;
use history_machine::{Resting, State};
use std::alloc::{AllocError, Global};
use std::mem;
use workspace_check::SharedKnown;
use workspace_graph::Graph;
use workspace_snapshot::graph_after;

/// The states of a workspace, with a cursor on the current one. Only the current one has its files: those of a state at rest are made from
/// its neighbour's by an inverse.
pub struct States {
    /// The states that undo reaches, the nearest last.
    pub earlier: Vec<Resting>,
    pub current: State,
    /// The states that redo reaches, the nearest last.
    pub later: Vec<Resting>,
    /// The inverses that lead to the states at rest.
    pub ways: History,
    /// The number of the next new state.
    pub next: u64,
    /// How many visits have begun: each change, undo and redo begins one.
    pub visit: u64,
    /// How many entries the journals have that were closed.
    pub begun: u64,
}

/// What an undo or a redo makes before anything changes: the files of the state that wakes, and what it knows of their packages. Beside
/// these stand what the current state keeps at rest, and the inverse of the move.
#[derive(Drop)]
pub(crate) struct Moving {
    pub(crate) files: Graph,
    pub(crate) known: SharedKnown,
    pub(crate) rest: Resting,
    pub(crate) turned: WayBack,
}

/// The state at rest that lies nearest, if there is one.
fn nearest(states: &[Resting]) -> Option<&Resting>
    ensures { MatchOption result (states.now ≡ []) (λ rest. IsNearestState states.now rest.now) }
{
    states.last()
}

/// Makes what the move along an inverse needs. Only files that the inverse names are looked at. The state that comes to rest shares the
/// paths of its packages with the one that wakes, where they are the same.
fn make_move(
    alloc: Global,
    current: &State,
    way: &Inverse,
    waking: &Resting,
) -> Result<Moving, AllocError>
    requires fits { Fits way.now current.now.files }
    requires rests { RestsOn (edited way.now current.now.files) waking.now }
    ensures { IfOk result (IsMoving current.now way.now) }
{
    let Prepared { files, inverse } = way.prepare(current.files.files())?;
    let turned = inverse.set_aside();
    let files = graph_after(alloc, &current.files, way, files)?;
    let known = waking.known_awake(alloc, &files, current)?;
    let rest = current.rest(alloc, Some(waking))?;
    Ok(Moving {
        files,
        known,
        rest,
        turned,
    })
}

/// Makes room for one more state.
fn make_room_for_one(states: &mut Vec<Resting>) -> Result<(), AllocError>
    ensures items { states.new.items ≡ states.old.items }
    ensures ok { OnOk result (vec_len states.new < vec_capacity states.new) }
    ensures room { vec_capacity states.new ≤ max (vec_capacity states.old) (vec_len states.old + 1) }
{
    states.reserve_exact(1)
}

/// Drops the oldest state where there is one more than `depth`.
fn keep_newest(states: &mut Vec<Resting>, depth: usize)
    requires { vec_len states.old ≤ depth + 1 }
    ensures items { states.new.items ≡ latest depth states.old.items }
    ensures room { vec_capacity states.new ≡ vec_capacity states.old }
{
    if states.len() > depth {
        drop(states.remove(0));
    }
}

impl States {
    /// Makes a state with the next number the current one, and drops all states that redo reaches. `back` leads from its files to those of
    /// the state before. A visit begins.
    pub fn advance(
        &mut self,
        alloc: Global,
        limits: Limits,
        next: State,
        back: WayBack,
    ) -> Result<u64, AllocError>
        requires next { self.old.next + 1 < 2 ^ 64 }
        requires visit { self.old.visit + 1 < 2 ^ 64 }
        requires number { next.number ≡ self.old.next }
        requires back { IsInverse back next.files self.old.current.files }
        requires depth { self.old.ways.depth ≡ limits.undo_depth }
        requires keeps { KeepStates self.old }
        ensures depth { self.new.ways.depth ≡ limits.undo_depth }
        ensures keeps { KeepStates self.new }
        ensures number { IfOk result (λ number. number ≡ self.old.next) }
        ensures room { vec_capacity self.new.earlier ≤ max (vec_capacity self.old.earlier) (vec_len self.old.earlier + 1) }
        ensures ok { OnOk result (GainsState limits self.old next self.new) }
        ensures err { OnErr result (IsSameHistory self.old self.new) }
    {
        let rest = self.current.rest(alloc, self.earlier.last())?;
        make_room_for_one(&mut self.earlier)?;
        self.ways.reserve()?;
        let number = self.next;
        self.ways.push(back.take_up());
        drop(mem::replace(&mut self.current, next));
        self.earlier.push_reserved(rest);
        keep_newest(&mut self.earlier, limits.undo_depth);
        self.later.clear();
        self.next += 1;
        self.visit += 1;
        Ok(number)
    }

    /// Makes the state before the current one current again, where the basis is the current number. Returns that state's number.
    pub fn undo(&mut self, alloc: Global, basis: u64) -> Result<u64, Refusal>
        requires visit { self.old.visit + 1 < 2 ^ 64 }
        requires keeps { KeepStates self.old }
        ensures moves { AnswersAmongStates self.old (Undo basis) (done result) self.new }
        ensures keeps { KeepStates self.new }
        ensures depth { self.new.ways.depth ≡ self.old.ways.depth }
        ensures room { vec_capacity self.new.later ≤ max (vec_capacity self.old.later) (vec_len self.old.later + 1) }
    {
        let number = self.current.number();
        if basis != number {
            return Err(Refusal::Moved { current: number });
        }
        let Some(way) = self.ways.nearest_behind() else {
            return Err(Refusal::NothingToUndo);
        };
        let Some(waking) = nearest(&self.earlier) else {
            return Err(Refusal::NothingToUndo);
        };
        let moving = make_move(alloc, &self.current, way, waking)?;
        make_room_for_one(&mut self.later)?;
        Ok(self.go_back(moving))
    }

    /// Makes the state before the current one current, with the files that the move made. Returns its number. It takes no memory.
    fn go_back(&mut self, moving: Moving) -> u64
        requires visit { self.old.visit + 1 < 2 ^ 64 }
        requires keeps { KeepStates self.old }
        requires has { HasMove self.old.ways.behind self.old.current moving }
        requires room { vec_len self.old.later < vec_capacity self.old.later }
        ensures number { result ≡ self.new.current.number }
        ensures moves { IsOneStepOn self.new self.old self.old self.new }
        ensures keeps { KeepStates self.new }
        ensures depth { self.new.ways.depth ≡ self.old.ways.depth }
        ensures room { vec_capacity self.new.later ≡ vec_capacity self.old.later }
    {
        let Moving {
            files,
            known,
            rest,
            turned,
        } = moving;
        let waking = self.earlier.pop().unwrap();
        let number = waking.number;
        self.ways.went_back(turned.take_up());
        let left = mem::replace(&mut self.current, waking.wake(files, known));
        drop(left);
        self.later.push_reserved(rest);
        self.visit += 1;
        number
    }

    /// Makes the state current again that the last undo left, where the basis is the current number. Returns that state's number.
    pub fn redo(&mut self, alloc: Global, basis: u64) -> Result<u64, Refusal>
        requires visit { self.old.visit + 1 < 2 ^ 64 }
        requires keeps { KeepStates self.old }
        ensures moves { AnswersAmongStates self.old (Redo basis) (done result) self.new }
        ensures keeps { KeepStates self.new }
        ensures depth { self.new.ways.depth ≡ self.old.ways.depth }
        ensures room { vec_capacity self.new.earlier ≤ max (vec_capacity self.old.earlier) (vec_len self.old.earlier + 1) }
    {
        let number = self.current.number();
        if basis != number {
            return Err(Refusal::Moved { current: number });
        }
        let Some(way) = self.ways.nearest_ahead() else {
            return Err(Refusal::NothingToRedo);
        };
        let Some(waking) = nearest(&self.later) else {
            return Err(Refusal::NothingToRedo);
        };
        let moving = make_move(alloc, &self.current, way, waking)?;
        make_room_for_one(&mut self.earlier)?;
        Ok(self.go_forth(moving))
    }

    /// Makes the state after the current one current, with the files that the move made. Returns its number. It takes no memory.
    fn go_forth(&mut self, moving: Moving) -> u64
        requires visit { self.old.visit + 1 < 2 ^ 64 }
        requires keeps { KeepStates self.old }
        requires has { HasMove self.old.ways.ahead self.old.current moving }
        requires room { vec_len self.old.earlier < vec_capacity self.old.earlier }
        ensures number { result ≡ self.new.current.number }
        ensures moves { IsOneStepOn self.old self.new self.old self.new }
        ensures keeps { KeepStates self.new }
        ensures depth { self.new.ways.depth ≡ self.old.ways.depth }
        ensures room { vec_capacity self.new.earlier ≡ vec_capacity self.old.earlier }
    {
        let Moving {
            files,
            known,
            rest,
            turned,
        } = moving;
        let waking = self.later.pop().unwrap();
        let number = waking.number;
        self.ways.went_forth(turned.take_up());
        let left = mem::replace(&mut self.current, waking.wake(files, known));
        drop(left);
        self.earlier.push_reserved(rest);
        self.visit += 1;
        number
    }
}
