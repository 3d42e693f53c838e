//! What a state keeps at rest.
ghost use Rattle.std.specs.Prelude.{◌≡◌, IfOk};
ghost use Rattle.workspace_check.specs.Found.{KnowsVerdicts};
ghost use Rattle.workspace_check.specs.KnownFindings.{IsVerdictIfKnown};
ghost use Rattle.workspace_graph.specs.Graphs.{OfPackage};
ghost use Rattle.base_files.specs.Packages.{package_paths};
ghost use Rattle.history_machine.specs.Resting.{RestsOn, seen_resting, woken};

use crate::path_list::PathList;
use crate::seen_state::SeenState;
use crate::state::State;
use build_carry::Finished;
use std::alloc::{AllocError, Global};
use workspace_check::{Known, KnownVerdict, SharedKnown};
use workspace_graph::Graph;

/// What a state keeps at rest: all but its files, which the history's inverses make again, and of these the paths of the packages. It keeps
/// no text, no token and no other workspace alive.
pub struct Resting {
    pub number: u64,
    pub packages: PathList,
    pub finished: Finished,
    pub known: SharedKnown,
}

/// Written out, so that crates above call it and need no proof of how each part is dropped.
impl Drop for Resting {
    fn drop(self) {
        let Resting {
            number: _,
            packages,
            finished,
            known,
        } = self;
        drop(packages);
        drop(finished);
        drop(known);
    }
}

/// The verdict on the package of a number, if it is known.
fn own_verdict(
    files: &Graph,
    known: &Known,
    number: usize,
) -> Result<Option<KnownVerdict>, AllocError>
    requires { KnowsVerdicts files.now known.now }
    ensures { IfOk result (λ found. OfPackage files.now number (λ p. IsVerdictIfKnown files.now p found)) }
{
    let Some(verdict) = known.get(number) else {
        return Ok(None);
    };
    let verdict = verdict.clone()?;
    Ok(Some(verdict))
}

/// The known verdicts on the packages of `files`, without those from before the last change.
pub(crate) fn own_verdicts(
    alloc: Global,
    files: &Graph,
    known: &Known,
) -> Result<SharedKnown, AllocError>
    requires { KnowsVerdicts files.now known.now }
    ensures { IfOk result (KnowsVerdicts files.now) }
{
    let mut own = Known::with_capacity(alloc, files.len())?;
    for number in 0..files.len() {
        let verdict = own_verdict(files, known, number)?;
        own.push(verdict)?;
    }
    SharedKnown::new(alloc, own)
}

/// The paths of all packages of `files`, shared with a state at rest that has the same.
pub(crate) fn paths_near(
    alloc: Global,
    files: &Graph,
    near: Option<&Resting>,
) -> Result<PathList, AllocError>
    ensures { IfOk result (λ list. list ≡ package_paths files.now) }
{
    match near {
        Some(rest) => PathList::shared(alloc, files, Some(&rest.packages)),
        None => PathList::shared(alloc, files, None),
    }
}

/// Whether a verdict is known on each of the first `count` packages. Only speed rests on it.
fn lacks_none(known: &Known, count: usize) -> bool {
    for number in 0..count {
        if known.get(number).is_none() {
            return false;
        }
    }
    true
}

/// The verdicts of `known` on the packages of `files`. Beside them stand those of the state `left`, as the ones before the change from there.
fn beside_earlier(
    alloc: Global,
    files: &Graph,
    known: &Known,
    left: &State,
) -> Result<SharedKnown, AllocError>
    requires { KnowsVerdicts files.now known.now }
    ensures { IfOk result (KnowsVerdicts files.now) }
{
    let mut awake = known.copy(alloc, files.len())?;
    awake.keep_earlier(alloc, &left.files, left.known.get())?;
    SharedKnown::new(alloc, awake)
}

impl Resting {
    /// The state as a view of the history shows it. All is shared.
    pub fn seen(&self) -> Result<SeenState, AllocError>
        ensures { IfOk result (λ seen. seen ≡ seen_resting self.now) }
    {
        let packages = self.packages.clone()?;
        let finished = self.finished.clone()?;
        Ok(SeenState {
            number: self.number,
            packages,
            finished,
        })
    }

    /// What the state knows when it wakes with these files: the verdicts that it kept at rest. Where one is missing, those of the state that
    /// is left stand beside them. So a package that the move leaves as it is needs no new check.
    pub fn known_awake(
        &self,
        alloc: Global,
        files: &Graph,
        left: &State,
    ) -> Result<SharedKnown, AllocError>
        requires { RestsOn files.now self.now }
        ensures { IfOk result (KnowsVerdicts files.now) }
    {
        if lacks_none(self.known.get(), files.len()) {
            let known = self.known.clone()?;
            return Ok(known);
        }
        beside_earlier(alloc, files, self.known.get(), left)
    }

    /// The state with these files, with what it kept at rest, and what it knows when it wakes. It takes no memory.
    pub fn wake(self, files: Graph, known: SharedKnown) -> State
        requires rests { RestsOn files self }
        requires known { KnowsVerdicts files known }
        ensures { result ≡ woken files self }
    {
        let Resting {
            number,
            packages: _,
            finished,
            known: kept,
        } = self;
        drop(kept);
        State {
            number,
            files,
            finished,
            known,
        }
    }
}
