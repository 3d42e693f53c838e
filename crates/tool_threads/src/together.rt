//! Checks the packages of a workspace in several threads. A package is begun as soon as verdicts are known on all that it imports. The order
//! costs only speed: what a package builds on is checked with it where it is not known. A package that no thread has checked is checked at the
//! end.
ghost use Rattle.std.specs.Prelude.{◌≡◌, ◌≤◌, ◌<◌, length, IfOk, IfSome, OnOk};
ghost use Rattle.std.specs.List.{All};
ghost use Rattle.base_files.specs.Packages.{package_paths};
ghost use Rattle.workspace_check.specs.Found.{IsFound, KnowsVerdicts};
ghost use Rattle.tool_threads.specs.Given.{GiveVerdictsOf};

use crate::task::{PackageTask, PackageThread};
use build_carry::take_in_each;
use std::alloc::{AllocError, Global};
use std::thread::Threads;
use workspace_check::{Found, Known, KnownVerdict, SharedKnown, verdicts};
use workspace_graph::Graph;

/// How many packages are checked at once, at most.
const AT_ONCE: usize = 32;

/// Which packages were begun, and the threads that check them, in the order in which they were begun. A thread leaves the list when its
/// verdicts are noted.
#[derive(Drop)]
struct Begun {
    marks: Vec<bool>,
    threads: Vec<PackageThread>,
}

/// Whether a verdict is known on each package that a package imports.
fn is_ready(graph: &Graph, known: &Known, number: usize) -> bool
    requires { number < length (package_paths graph.now) }
{
    for below in graph.imports(number) {
        if known.get(*below).is_none() {
            return false;
        }
    }
    true
}

/// The packages that are ready and were not begun, at most `room` of them. They are marked as begun.
fn take_ready(
    alloc: Global,
    graph: &Graph,
    known: &Known,
    marks: &mut [bool],
    room: usize,
) -> Result<Vec<usize>, AllocError> {
    let mut ready = Vec::new(alloc);
    for number in 0..graph.len() {
        if number < marks.len()
            && ready.len() < room
            && !marks[number]
            && is_ready(graph, known, number)
        {
            marks[number] = true;
            ready.push(number)?;
        }
    }
    Ok(ready)
}

/// What is known so far, to be shared by threads.
fn shared(alloc: Global, graph: &Graph, known: &Known) -> Result<SharedKnown, AllocError>
    requires { KnowsVerdicts graph.now known.now }
    ensures { IfOk result (KnowsVerdicts graph.now) }
{
    let copy = known.copy(alloc, graph.len())?;
    SharedKnown::new(alloc, copy)
}

/// Has a thread check the package of a number, unless none can be made.
fn begin<R: Threads>(
    rt: &R,
    alloc: Global,
    graph: &Graph,
    known: &SharedKnown,
    number: usize,
) -> Result<Option<PackageThread>, AllocError>
    requires { KnowsVerdicts graph.now known.now }
    ensures { IfOk result (λ begun. IfSome begun (λ thread. thread.promise.graph.value ≡ graph.now)) }
{
    let task = PackageTask::new(alloc, graph, known, number)?;
    Ok(task.begin(rt))
}

/// Has a thread check each of a few packages. A package for which no thread can be made is left out.
fn begin_each<R: Threads>(
    rt: &R,
    alloc: Global,
    graph: &Graph,
    known: &SharedKnown,
    few: &[usize],
) -> Result<Vec<PackageThread>, AllocError>
    requires { KnowsVerdicts graph.now known.now }
    ensures { IfOk result (λ threads. All (λ thread. thread.promise.graph.value ≡ graph.now) threads.items) }
{
    let mut threads = Vec::new(alloc);
    for number in few {
        if let Some(thread) = begin(rt, alloc, graph, known, *number)? {
            threads.push(thread)?;
        }
    }
    Ok(threads)
}

/// Has threads check the packages that are ready and were not begun.
fn begin_ready<R: Threads>(
    rt: &R,
    alloc: Global,
    graph: &Graph,
    known: &Known,
    begun: &mut Begun,
) -> Result<(), AllocError>
    requires known { KnowsVerdicts graph.now known.now }
    requires threads { All (λ thread. thread.promise.graph.value ≡ graph.now) begun.old.threads.items }
    ensures { OnOk result (All (λ thread. thread.promise.graph.value ≡ graph.now) begun.new.threads.items) }
{
    let room = AT_ONCE.saturating_sub(begun.threads.len());
    let ready = take_ready(alloc, graph, known, begun.marks.as_mut_slice(), room)?;
    if ready.is_empty() {
        return Ok(());
    }
    let known = shared(alloc, graph, known)?;
    let mut threads = begin_each(rt, alloc, graph, &known, ready.as_slice())?;
    begun.threads.append(&mut threads)
}

/// Notes the verdicts that were found with a package.
fn note_part(
    graph: &Graph,
    part: &Result<Vec<KnownVerdict>, AllocError>,
    known: &mut Known,
) -> Result<(), AllocError>
    requires part { GiveVerdictsOf graph.now part.now }
    requires room { length (package_paths graph.now) ≤ length known.old.verdicts.items }
    requires known { KnowsVerdicts graph.now known.old }
    ensures room { OnOk result (length (package_paths graph.now) ≤ length known.new.verdicts.items) }
    ensures known { OnOk result (KnowsVerdicts graph.now known.new) }
{
    match part {
        Ok(found) => take_in_each(graph, found.as_slice(), known),
        Err(AllocError) => Err(AllocError),
    }
}

/// Waits for the thread that was begun first, and notes its verdicts.
fn note_first<R: Threads>(
    rt: &R,
    graph: &Graph,
    threads: &mut Vec<PackageThread>,
    known: &mut Known,
) -> Result<(), AllocError>
    requires some { 0 < length threads.old.items }
    requires threads { All (λ thread. thread.promise.graph.value ≡ graph.now) threads.old.items }
    requires room { length (package_paths graph.now) ≤ length known.old.verdicts.items }
    requires known { KnowsVerdicts graph.now known.old }
    ensures threads { All (λ thread. thread.promise.graph.value ≡ graph.now) threads.new.items }
    ensures room { OnOk result (length (package_paths graph.now) ≤ length known.new.verdicts.items) }
    ensures known { OnOk result (KnowsVerdicts graph.now known.new) }
{
    let thread = threads.remove(0);
    let part = thread.join(rt);
    note_part(graph, &part, known)
}

/// Checks packages in threads, until none is ready.
fn check_ready<R: Threads>(
    rt: &R,
    alloc: Global,
    graph: &Graph,
    known: &mut Known,
) -> Result<(), AllocError>
    requires room { length (package_paths graph.now) ≤ length known.old.verdicts.items }
    requires known { KnowsVerdicts graph.now known.old }
    ensures { OnOk result (KnowsVerdicts graph.now known.new) }
{
    let mut begun = Begun {
        marks: vec![in alloc; false; graph.len()]?,
        threads: Vec::new(alloc),
    };
    for _joined in 0..graph.len() {
        begin_ready(rt, alloc, graph, known, &mut begun)?;
        if begun.threads.is_empty() {
            return Ok(());
        }
        note_first(rt, graph, &mut begun.threads, known)?;
    }
    Ok(())
}

/// The findings of all packages, which several threads check.
pub fn verdicts_together<R: Threads>(
    rt: &R,
    alloc: Global,
    graph: &Graph,
) -> Result<Found, AllocError>
    ensures { IfOk result (IsFound graph.now) }
{
    let nothing = Known::new(alloc);
    let mut known = nothing.copy(alloc, graph.len())?;
    check_ready(rt, alloc, graph, &mut known)?;
    verdicts(alloc, graph, &known)
}
