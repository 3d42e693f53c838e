//! Marks the packages from which the effects of a move begin, and those that the move affects.
ghost use Rattle.std.specs.Prelude.{◌≡◌, ◌<◌, ◌++◌, ◌↔◌, ◌⊎◌, [], ◌∷◌, ℕ, List, Contains, IfOk, IsTrue, MatchOption, length};
ghost use Rattle.base_files.specs.Packages.{package_paths};
ghost use Rattle.workspace_graph.specs.Graphs.{OfPackage};
ghost use Rattle.workspace_graph.specs.ImportPaths.{bytes_of_paths};
ghost use Rattle.refactor_known.specs.Swaps.{IsBehind};
ghost use Rattle.refactor_affected.specs.Starts.{BeginsMove, ConcernsMove, IsAffectedByMove};
ghost use Rattle.refactor_affected.specs.Steps.{MarkFirst, MarkPackages};

use base_files::Path;
use std::alloc::{AllocError, Global};
use std::collections::BTreeSet;
use workspace_graph::Graph;
use workspace_graph::import_paths::import_paths;

/// The folder that moves, and the folder to which it moves.
#[derive(Clone, Copy)]
pub(crate) struct MovedFolder<'a> {
    pub from: &'a Path,
    pub to: &'a Path,
}

/// Whether what follows a folder in a path is nothing, or begins with a slash.
fn begins_rest(rest: &[u8]) -> bool
    ensures { IsTrue result ↔ ((rest.now ≡ []) ⊎ ((more : List ℕ) × (rest.now ≡ 47 ∷ more))) }
{
    match rest.first() {
        None => true,
        Some(byte) => *byte == b'/',
    }
}

/// What follows a folder in a path: nothing, or a slash and more. `None` where the path is not that of the folder and does not lie in it.
fn rest_in<'p>(folder: &[u8], path: &'p [u8]) -> Option<&'p [u8]>
    ensures { MatchOption result ((rest : List ℕ) → IsBehind folder.now path.now rest → ⊥) (λ rest. IsBehind folder.now path.now rest.now) }
{
    if !path.starts_with(folder) {
        return None;
    }
    let (_, rest) = path.split_at(folder.len());
    if begins_rest(rest) { Some(rest) } else { None }
}

/// Whether the folder with this rest is the path of a package.
fn is_package(alloc: Global, graph: &Graph, folder: &[u8], rest: &[u8]) -> Result<bool, AllocError>
    ensures { IfOk result (λ is. IsTrue is ↔ Contains (package_paths graph.now) (folder.now ++ rest.now)) }
{
    let mut path = Vec::from_slice(alloc, folder)?;
    path.extend_from_slice(rest)?;
    Ok(graph.number_of(&path).is_some())
}

/// Whether the value of an import literal concerns a move.
fn concerns(
    alloc: Global,
    graph: &Graph,
    moved: MovedFolder<'_>,
    path: &[u8],
) -> Result<bool, AllocError>
    ensures { IfOk result (λ is. IsTrue is ↔ ConcernsMove graph.now moved.entry.from.now moved.entry.to.now path.now) }
{
    let from = moved.from.as_str().as_bytes();
    if rest_in(from, path).is_some() {
        return Ok(true);
    }
    match rest_in(moved.to.as_str().as_bytes(), path) {
        None => Ok(false),
        Some(rest) => is_package(alloc, graph, from, rest),
    }
}

/// Whether one of the values of import literals concerns a move.
fn any_concerns(
    alloc: Global,
    graph: &Graph,
    moved: MovedFolder<'_>,
    paths: &BTreeSet<Vec<u8>>,
) -> Result<bool, AllocError>
    ensures { IfOk result (λ is. IsTrue is ↔ ((path : List ℕ) × (Contains (bytes_of_paths paths.now.keys) path × ConcernsMove graph.now moved.entry.from.now moved.entry.to.now path))) }
{
    for path in paths.iter() {
        if concerns(alloc, graph, moved, path)? {
            return Ok(true);
        }
    }
    Ok(false)
}

/// Whether the effects of a move begin from the package of a number.
fn begins(
    alloc: Global,
    graph: &Graph,
    moved: MovedFolder<'_>,
    number: usize,
) -> Result<bool, AllocError>
    requires { number < length (package_paths graph.now) }
    ensures { IfOk result (λ is. OfPackage graph.now number (λ p. IsTrue is ↔ BeginsMove graph.now moved.entry.from.now moved.entry.to.now p)) }
{
    let package = graph.package(number);
    if rest_in(moved.from.as_str().as_bytes(), &package.path).is_some() {
        return Ok(true);
    }
    let paths = import_paths(alloc, &package.trees)?;
    any_concerns(alloc, graph, moved, &paths)
}

/// Marks the packages from which the effects of a move begin.
fn start_marks(
    alloc: Global,
    graph: &Graph,
    moved: MovedFolder<'_>,
) -> Result<Vec<bool>, AllocError>
    ensures { IfOk result (λ marks. MarkFirst graph.now (BeginsMove graph.now moved.entry.from.now moved.entry.to.now) (length (package_paths graph.now)) marks.items) }
{
    let mut marks = Vec::new(alloc);
    for number in 0..graph.len() {
        marks.push(begins(alloc, graph, moved, number)?)?;
    }
    Ok(marks)
}

/// Marks the packages that a move affects.
pub(crate) fn affected_by_move(
    alloc: Global,
    graph: &Graph,
    moved: MovedFolder<'_>,
) -> Result<Vec<bool>, AllocError>
    ensures { IfOk result (λ marks. MarkPackages graph.now (IsAffectedByMove graph.now moved.entry.from.now moved.entry.to.now) marks.items) }
{
    let marks = start_marks(alloc, graph, moved)?;
    graph.reaching(alloc, &marks)
}
