//! Finds the package that the next Job is of.
ghost use Rattle.std.specs.Prelude.{◌↔◌, ◌<◌, IsTrue, length};
ghost use Rattle.base_files.specs.Packages.{package_paths};
ghost use Rattle.workspace_graph.specs.Graphs.{OfPackage};
ghost use Rattle.history_machine.specs.Waiting.{FindsWaiting, IsWaiting};

use crate::state::State;
use build_unit::Out;

/// Whether the package of this number waits to be built: it is unfinished, and no Job of it is out that was taken in this visit.
fn is_waiting(state: &State, out: &Out, visit: u64, number: usize) -> bool
    requires { number < length (package_paths state.now.files) }
    ensures { IsTrue result ↔ OfPackage state.now.files number (IsWaiting state.now out.now visit) }
{
    state.finished.get(number).is_none() && !out.is_taken(visit, &state.files.package(number).path)
}

/// The number of the first package that waits to be built, by the order of paths. The search begins behind the finished packages at the
/// front of the table.
pub fn first_waiting(state: &State, out: &Out, visit: u64) -> Option<usize>
    ensures { FindsWaiting state.now out.now visit result }
{
    for number in state.finished.front()..state.files.len() {
        if is_waiting(state, out, visit, number) {
            return Some(number);
        }
    }
    None
}
