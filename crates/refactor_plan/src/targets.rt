//! Whether a package can be moved to a path.
ghost use Rattle.std.specs.Prelude.{◌↔◌, Contains, IsTrue, MatchBool};
ghost use Rattle.base_files.specs.Packages.{package_paths};
ghost use Rattle.refactor_move.specs.MoveEdits.{IsFree};
ghost use Rattle.refactor_plan.specs.MovePlan.{HasFileUnder};
ghost use Rattle.refactor_plan.specs.MoveSteps.{RefusesTarget};

use base_files::{Files, Path, Refusal};
use refactor_move::is_under;
use workspace_graph::Graph;

/// Whether a path is that of a package of the workspace.
fn is_package(graph: &Graph, path: &Path) -> bool
    ensures { IsTrue result ↔ Contains (package_paths graph.now) path.now }
{
    graph.number_of(path.as_str().as_bytes()).is_some()
}

/// Whether some file lies in a folder.
fn is_taken(files: &Files, folder: &Path) -> bool
    ensures { MatchBool result (HasFileUnder files.now folder.now) (IsFree files.now folder.now) }
{
    for (path, _) in files.iter() {
        if is_under(folder, path) {
            return true;
        }
    }
    false
}

/// Refuses a move whose paths do not allow it, with the first reason: `NoPackage`, `Same`, `InsideItself` or `TargetTaken`.
pub(crate) fn refuse_target(graph: &Graph, from: &Path, to: &Path) -> Result<(), Refusal>
    ensures { RefusesTarget graph.now from.now to.now result }
{
    if !is_package(graph, from) {
        Err(Refusal::NoPackage)
    } else if to == from {
        Err(Refusal::Same)
    } else if is_under(from, to) {
        Err(Refusal::InsideItself)
    } else if is_taken(graph.files(), to) {
        Err(Refusal::TargetTaken)
    } else {
        Ok(())
    }
}
