//! Numbers that tell which packages lie on a common import cycle, found for all packages at once.
ghost use Rattle.std.specs.Prelude.{ℕ, ◌≡◌, ◌<◌, ◌⊎◌, ◌↔◌, length, slice_index_or, IfOk, IsTrue, OnOk};
ghost use Rattle.base_files.specs.Packages.{package_paths};
ghost use Rattle.workspace_graph.specs.Graphs.{ListsPackages, OfPackage};
ghost use Rattle.workspace_graph.specs.Packages.{IsInClosure};
ghost use Rattle.workspace_graph.specs.Reaching.{AreBackMarks};
ghost use Rattle.workspace_graph.specs.Search.{IsMarked};
ghost use Rattle.workspace_check.specs.Cycles.{AreCycleNumbers, ComeAfterImports, ComesAfterImports, DecideCycles};

use crate::marks::is_marked;
use crate::order::number_at;
use std::alloc::{AllocError, Global};
use workspace_graph::Graph;

/// Returns the place of each package in `order`. Only speed rests on it.
fn places(alloc: Global, order: &[usize]) -> Result<Vec<usize>, AllocError> {
    let mut places = vec![in alloc; 0usize; order.len()]?;
    for place in 0..order.len() {
        let number = order[place];
        if number < places.len() {
            places[number] = place;
        }
    }
    Ok(places)
}

/// Whether a package imports a package with a later place in the order. Only speed rests on it.
fn imports_later(graph: &Graph, places: &[usize], number: usize) -> bool
    requires { number < length (package_paths graph.now) }
{
    let place = number_at(places, number);
    for import in graph.imports(number) {
        if place < number_at(places, *import) {
            return true;
        }
    }
    false
}

/// Whether two packages share a cycle number.
pub(crate) fn share_cycle(cycles: &[usize], number: usize, other: usize) -> bool
    ensures { IsTrue result ↔ (slice_index_or cycles.now number 0 ≡ slice_index_or cycles.now other 0) }
{
    number_at(cycles, number) == number_at(cycles, other)
}

/// Returns a list that gives each package its own number.
fn own_numbers(alloc: Global, count: usize) -> Result<Vec<usize>, AllocError>
    ensures size { IfOk result (λ numbers. length numbers.items ≡ count) }
    ensures own { IfOk result (λ numbers. (i : ℕ) → i < count → slice_index_or numbers.items i 0 ≡ i) }
{
    let mut numbers = Vec::with_capacity(alloc, count)?;
    for number in 0..count {
        numbers.push(number)?;
    }
    Ok(numbers)
}

/// Returns the cycle number of `other`: `number` if `other` is marked, else its number so far.
fn cycle_number(back: &[bool], number: usize, numbers: &[usize], other: usize) -> usize
    ensures { (IsMarked back.now other × (result ≡ number)) ⊎ (result ≡ slice_index_or numbers.now other 0) }
{
    if is_marked(back, other) {
        number
    } else {
        number_at(numbers, other)
    }
}

/// Gives each marked package of `closure` the cycle number of the package `number`. A package is marked if it imports that package,
/// directly or indirectly.
fn give_number(
    graph: &Graph,
    number: usize,
    closure: &[usize],
    back: &[bool],
    numbers: &mut Vec<usize>,
)
    requires in_range { number < length (package_paths graph.now) }
    requires closure { OfPackage graph.now number (λ p. ListsPackages graph.now (IsInClosure graph.now p) closure.now) }
    requires back { OfPackage graph.now number (λ p. AreBackMarks graph.now p back.now) }
    requires right { AreCycleNumbers graph.now numbers.old.items }
    ensures { AreCycleNumbers graph.now numbers.new.items }
{
    for other in closure {
        let given = cycle_number(back, number, numbers.as_slice(), *other);
        numbers[*other] = given;
    }
}

/// Gives each package on a cycle with `number` the cycle number of `number`.
fn add_cycle(
    alloc: Global,
    graph: &Graph,
    number: usize,
    numbers: &mut Vec<usize>,
) -> Result<(), AllocError>
    requires in_range { number < length (package_paths graph.now) }
    requires right { AreCycleNumbers graph.now numbers.old.items }
    ensures { OnOk result (AreCycleNumbers graph.now numbers.new.items) }
{
    let closure = graph.closure(alloc, number)?;
    let back = graph.back_marks(alloc, number)?;
    give_number(graph, number, closure.as_slice(), &back, numbers);
    Ok(())
}

/// Calls `add_cycle` if the package may lie on a cycle that has no number yet: if it has its own number and imports a package with a later
/// place.
fn add_cycle_from(
    alloc: Global,
    graph: &Graph,
    places: &[usize],
    number: usize,
    numbers: &mut Vec<usize>,
) -> Result<(), AllocError>
    requires in_range { number < length (package_paths graph.now) }
    requires right { AreCycleNumbers graph.now numbers.old.items }
    ensures { OnOk result (AreCycleNumbers graph.now numbers.new.items) }
{
    if number_at(numbers, number) != number {
        return Ok(());
    }
    if !imports_later(graph, places, number) {
        return Ok(());
    }
    add_cycle(alloc, graph, number, numbers)
}

/// Returns a cycle number for each package. All packages of a cycle get one number if they are neighbours in the order.
fn cycle_numbers(alloc: Global, graph: &Graph, places: &[usize]) -> Result<Vec<usize>, AllocError>
    ensures { IfOk result (λ numbers. AreCycleNumbers graph.now numbers.items) }
{
    let mut numbers = own_numbers(alloc, graph.len())?;
    for number in 0..graph.len() {
        add_cycle_from(alloc, graph, places, number, &mut numbers)?;
    }
    Ok(numbers)
}

/// Whether the cycle number of a package comes later in the order than each different cycle number of its imports.
fn is_behind_imports(graph: &Graph, places: &[usize], numbers: &[usize], number: usize) -> bool
    requires { number < length (package_paths graph.now) }
    ensures { IsTrue result → OfPackage graph.now number (λ p. ComesAfterImports graph.now places.now numbers.now p number) }
{
    let own = number_at(numbers, number);
    for import in graph.imports(number) {
        if !is_behind(places, own, number_at(numbers, *import)) {
            return false;
        }
    }
    true
}

/// Whether two cycle numbers are equal, or `own` has the later place.
fn is_behind(places: &[usize], own: usize, other: usize) -> bool
    ensures { IsTrue result → (other ≡ own → ⊥) → slice_index_or places.now other 0 < slice_index_or places.now own 0 }
{
    if other == own {
        return true;
    }
    number_at(places, other) < number_at(places, own)
}

/// Whether the cycle number of each package comes later in the order than each different cycle number of its imports.
fn are_behind_imports(graph: &Graph, places: &[usize], numbers: &[usize]) -> bool
    ensures { IsTrue result → ComeAfterImports graph.now places.now numbers.now }
{
    for number in 0..graph.len() {
        if !is_behind_imports(graph, places, numbers, number) {
            return false;
        }
    }
    true
}

/// Returns cycle numbers of all packages, or an empty list. Numbers are found if the packages of each cycle are neighbours in the order,
/// and later than their imports outside the cycle. An empty list costs only time.
pub(crate) fn cycles(
    alloc: Global,
    graph: &Graph,
    order: &[usize],
) -> Result<Vec<usize>, AllocError>
    ensures { IfOk result (λ numbers. DecideCycles graph.now numbers.items) }
{
    let places = places(alloc, order)?;
    let numbers = cycle_numbers(alloc, graph, &places)?;
    if are_behind_imports(graph, &places, &numbers) {
        Ok(numbers)
    } else {
        Ok(Vec::new(alloc))
    }
}
