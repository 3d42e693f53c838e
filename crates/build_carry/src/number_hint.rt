//! Finds the number of a package that had nearly this number before a change.
ghost use Rattle.std.specs.Prelude.{◌≡◌, IsTrue, MatchOption, Some, slice_get};
ghost use Rattle.std.specs.List.{Contains};
ghost use Rattle.base_files.specs.Packages.{package_paths};

use workspace_graph::Graph;

/// Whether the package `number` has this path.
fn is_at(graph: &Graph, number: usize, path: &[u8]) -> bool
    ensures { IsTrue result → slice_get (package_paths graph.now) number ≡ Some path.now }
{
    if number >= graph.len() {
        return false;
    }
    graph.package(number).path.as_slice() == path
}

/// The number of the package at `path`, if there is one. It first tries `number`, which the package has among `count` packages, and then
/// the place as far from the last package. Only else does it search.
pub fn number_by_hint(graph: &Graph, path: &[u8], number: usize, count: usize) -> Option<usize>
    ensures { MatchOption result (Contains (package_paths graph.now) path.now → ⊥) (λ n. slice_get (package_paths graph.now) n ≡ Some path.now) }
{
    if is_at(graph, number, path) {
        return Some(number);
    }
    let from_last = graph.len().wrapping_sub(count).wrapping_add(number);
    if is_at(graph, from_last, path) {
        return Some(from_last);
    }
    graph.number_of(path)
}
