//! An order of all packages in which each comes after those that it builds on.
ghost use Rattle.std.specs.Prelude.{◌≡◌, length, slice_index_or, IfOk};
ghost use Rattle.base_files.specs.Packages.{package_paths};
ghost use Rattle.workspace_graph.specs.Imports.{ListsBelow};
ghost use Rattle.workspace_check.specs.Steps.{AreClosureSizes, IsBuildOrder};

use std::alloc::{AllocError, Global};
use workspace_graph::Graph;

/// Returns the size of each package's closure, by one search from each package.
fn sizes(alloc: Global, graph: &Graph) -> Result<Vec<usize>, AllocError>
    ensures { IfOk result (λ sizes. AreClosureSizes graph.now (length (package_paths graph.now)) sizes.items) }
{
    let mut sizes = Vec::new(alloc);
    for number in 0..graph.len() {
        let closure = graph.closure(alloc, number)?;
        sizes.push(closure.as_slice().len())?;
    }
    Ok(sizes)
}

/// Returns the number at a place of a list, or 0 where the list ends before.
pub(crate) fn number_at(numbers: &[usize], place: usize) -> usize
    ensures { result ≡ slice_index_or numbers.now place 0 }
{
    match numbers.get(place) {
        Some(number) => *number,
        None => 0,
    }
}

/// Returns the numbers from 0 to below `count`.
fn numbers(alloc: Global, count: usize) -> Result<Vec<usize>, AllocError>
    ensures { IfOk result (λ numbers. ListsBelow (λ n. Unit {0}) count numbers.items) }
{
    let mut numbers = Vec::new(alloc);
    for number in 0..count {
        numbers.push(number)?;
    }
    Ok(numbers)
}

/// Returns all packages sorted by the size of their closures: a package that another builds on has a smaller closure.
fn order_by_sizes(alloc: Global, graph: &Graph) -> Result<Vec<usize>, AllocError>
    ensures { IfOk result (λ order. IsBuildOrder graph.now order.items) }
{
    let sizes = sizes(alloc, graph)?;
    let mut order = numbers(alloc, graph.len())?;
    order.sort_by_key(|number| number_at(&sizes, *number))?;
    Ok(order)
}

/// Returns all packages, each after those that it builds on. One search finds such an order; if it finds none, the packages are sorted by
/// the sizes of their closures.
pub(crate) fn order(alloc: Global, graph: &Graph) -> Result<Vec<usize>, AllocError>
    ensures { IfOk result (λ order. IsBuildOrder graph.now order.items) }
{
    let found = graph.links().order(alloc)?;
    match found {
        Some(order) => Ok(order),
        None => order_by_sizes(alloc, graph),
    }
}
