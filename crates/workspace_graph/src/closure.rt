//! The packages that packages reach along links, and the way back.
ghost use Rattle.std.specs.Prelude.{◌≡◌, ◌<◌, ◌↔◌, ℕ, [], length, count_by, vec_capacity, IfOk, IsTrue};
ghost use Rattle.std.specs.List.{All, Contains};
ghost use Rattle.std.specs.List.Sorted.{IsStrictlyIncreasing};
ghost use Rattle.workspace_graph.specs.Imports.{AreLinked, AreImporterRows, LinkTable, Reaches};
ghost use Rattle.workspace_graph.specs.Closures.{IsBuiltOnList, IsClosureList};
ghost use Rattle.workspace_graph.specs.Search.{AreReached, InvertsMarks, ListsMarked, IsMarked, MarksWayBack, UnmarksBelow};

use crate::link_rows::LinkRows;
use crate::package_list::PackageList;
use crate::packages_below::PackagesBelow;
use crate::search::{reach, visit};
use base_files::list_as_long;
use std::alloc::{AllocError, Global};

/// How many packages are marked.
fn mark_count(marks: &[bool]) -> usize
    ensures { result ≡ count_by (λ m. m) marks.now }
{
    let mut count = 0;
    for number in 0..marks.len() {
        if marks[number] {
            count += 1;
        }
    }
    count
}

/// An empty list with room for the marked packages.
fn list_of_marked(alloc: Global, marks: &[bool]) -> Result<Vec<usize>, AllocError>
    ensures items { IfOk result (λ list. list.items ≡ []) }
    ensures room { IfOk result (λ list. vec_capacity list ≡ count_by (λ m. m) marks.now) }
{
    Vec::with_capacity(alloc, mark_count(marks))
}

/// The numbers of the marked packages, in increasing order.
fn marked(alloc: Global, marks: &[bool]) -> Result<PackageList, AllocError>
    ensures { IfOk result (ListsMarked marks.now (length marks.now)) }
{
    let mut list = list_of_marked(alloc, marks)?;
    for (number, mark) in marks.iter().enumerate() {
        if *mark {
            list.push(number)?;
        }
    }
    Ok(PackageList::from_numbers(list))
}

/// Marks the packages that a package reaches, itself among them.
fn reached_from(alloc: Global, imports: &LinkRows, number: usize) -> Result<Vec<bool>, AllocError>
    requires linked { AreLinked imports.now }
    requires number { number < length imports.now }
    ensures size { IfOk result (λ reached. length reached.items ≡ length imports.now) }
    ensures reached { IfOk result (λ reached. (q : ℕ) → IsMarked reached.items q ↔ Reaches imports.now number q) }
{
    let mut marks = vec![in alloc; false; imports.len()]?;
    visit(alloc, imports, &mut marks, number)?;
    Ok(marks)
}

/// The packages that a package reaches, itself among them, in increasing order.
pub(crate) fn closure_of(
    alloc: Global,
    imports: &LinkRows,
    number: usize,
) -> Result<PackageList, AllocError>
    requires linked { AreLinked imports.now }
    requires number { number < length imports.now }
    ensures { IfOk result (IsClosureList imports.now number) }
{
    let reached = reached_from(alloc, imports, number)?;
    marked(alloc, &reached)
}

/// Marks each package that has no mark, and removes the other marks.
fn flip(marks: &mut Vec<bool>)
    ensures { InvertsMarks marks.old.items marks.new.items }
{
    for number in 0..marks.len() {
        marks[number] = !marks[number];
    }
}

/// Of the packages that package `number` reaches, which `marks` marks, marks those that reach it. All other packages are marked too, so
/// that the search along importers does not enter them.
fn back_from(
    alloc: Global,
    importers: &LinkRows,
    marks: Vec<bool>,
    number: usize,
) -> Result<Vec<bool>, AllocError>
    requires linked { AreLinked importers.now }
    requires number { number < length importers.now }
    requires size { length marks.items ≡ length importers.now }
    ensures { IfOk result (λ back. (g : LinkTable) → AreLinked g → AreImporterRows g (length g) importers.now → ((q : ℕ) → IsMarked marks.items q ↔ Reaches g number q) → UnmarksBelow g number back.items) }
{
    let mut marks = marks;
    flip(&mut marks);
    visit(alloc, importers, &mut marks, number)?;
    Ok(marks)
}

/// Of the packages that package `number` reaches, marks exactly those that reach it. All other packages are marked too.
pub(crate) fn back_marks(
    alloc: Global,
    imports: &LinkRows,
    importers: &LinkRows,
    number: usize,
) -> Result<Vec<bool>, AllocError>
    requires linked { AreLinked imports.now }
    requires back { AreImporterRows imports.now (length imports.now) importers.now }
    requires number { number < length imports.now }
    ensures { IfOk result (λ marks. UnmarksBelow imports.now number marks.items) }
{
    let reached = reached_from(alloc, imports, number)?;
    back_from(alloc, importers, reached, number)
}

/// The packages without a mark in `back`, in increasing order: by the marks of `back_marks`, those that a package reaches and that do not
/// reach it.
fn built_on_by(alloc: Global, back: &[bool]) -> Result<PackageList, AllocError>
    ensures { IfOk result (λ below. (g : LinkTable) (p : ℕ) → UnmarksBelow g p back.now → IsBuiltOnList g p below) }
{
    let mut marks = Vec::from_slice(alloc, back)?;
    flip(&mut marks);
    marked(alloc, &marks)
}

/// Whether none of the packages is marked.
fn none_marked(marks: &[bool], numbers: &[usize]) -> bool
    requires { All (λ q. q < length marks.now) numbers.now }
    ensures { IsTrue result → (q : ℕ) → Contains numbers.now q → IsMarked marks.now q → ⊥ }
{
    for number in numbers {
        if marks[*number] {
            return false;
        }
    }
    true
}

/// The marked packages without `one`, in increasing order.
fn marked_but(alloc: Global, marks: Vec<bool>, one: usize) -> Result<PackageList, AllocError>
    requires { one < length marks.items }
    ensures each { IfOk result (λ rest. (q : ℕ) → Contains rest q ↔ (IsMarked marks.items q × (q ≡ one → ⊥))) }
    ensures rising { IfOk result IsStrictlyIncreasing }
{
    let mut marks = marks;
    marks[one] = false;
    marked(alloc, &marks)
}

/// Marks for `count` packages, of which only `one` is marked.
fn one_marked(alloc: Global, count: usize, one: usize) -> Result<Vec<bool>, AllocError>
    requires { one < count }
    ensures { IfOk result (λ marks. (q : ℕ) → IsMarked marks.items q ↔ (q ≡ one)) }
{
    let mut marks = vec![in alloc; false; count]?;
    marks[one] = true;
    Ok(marks)
}

/// The marked packages without `one`, and marks of all packages, of which only `one` is marked.
fn rest_marked(alloc: Global, reached: Vec<bool>, one: usize) -> Result<PackagesBelow, AllocError>
    requires { one < length reached.items }
    ensures each { IfOk result (λ found. (q : ℕ) → Contains found.built_on q ↔ (IsMarked reached.items q × (q ≡ one → ⊥))) }
    ensures rising { IfOk result (λ found. IsStrictlyIncreasing found.built_on) }
    ensures back { IfOk result (λ found. (q : ℕ) → IsMarked found.back.items q ↔ (q ≡ one)) }
{
    let back = one_marked(alloc, reached.len(), one)?;
    let built_on = marked_but(alloc, reached, one)?;
    Ok(PackagesBelow { built_on, back })
}

/// The packages that package `number` reaches and that do not reach it, and marks of those that it reaches and that reach it. The way back
/// is searched for only if the package reaches an importer of itself.
pub(crate) fn below(
    alloc: Global,
    imports: &LinkRows,
    importers: &LinkRows,
    number: usize,
) -> Result<PackagesBelow, AllocError>
    requires linked { AreLinked imports.now }
    requires back { AreImporterRows imports.now (length imports.now) importers.now }
    requires number { number < length imports.now }
    ensures built_on { IfOk result (λ found. IsBuiltOnList imports.now number found.built_on) }
    ensures back { IfOk result (λ found. MarksWayBack imports.now number found.back.items) }
{
    let reached = reached_from(alloc, imports, number)?;
    if none_marked(&reached, importers.row(number)) {
        return rest_marked(alloc, reached, number);
    }
    let back = back_from(alloc, importers, reached, number)?;
    let built_on = built_on_by(alloc, &back)?;
    Ok(PackagesBelow { built_on, back })
}

/// The numbers, which increase, without `one`.
fn without(alloc: Global, numbers: &[usize], one: usize) -> Result<PackageList, AllocError>
    requires { IsStrictlyIncreasing numbers.now }
    ensures each { IfOk result (λ rest. (q : ℕ) → Contains rest q ↔ (Contains numbers.now q × (q ≡ one → ⊥))) }
    ensures rising { IfOk result IsStrictlyIncreasing }
{
    let mut rest = list_as_long(alloc, numbers)?;
    for number in numbers {
        if *number != one {
            rest.push(*number)?;
        }
    }
    Ok(PackageList::from_numbers(rest))
}

/// The closure of package `number` without itself, and marks for `count` packages, of which only `number` is marked.
pub(crate) fn rest_of(
    alloc: Global,
    count: usize,
    number: usize,
    closure: &[usize],
) -> Result<PackagesBelow, AllocError>
    requires number { number < count }
    requires rising { IsStrictlyIncreasing closure.now }
    ensures each { IfOk result (λ found. (q : ℕ) → Contains found.built_on q ↔ (Contains closure.now q × (q ≡ number → ⊥))) }
    ensures rising { IfOk result (λ found. IsStrictlyIncreasing found.built_on) }
    ensures back { IfOk result (λ found. (q : ℕ) → IsMarked found.back.items q ↔ (q ≡ number)) }
{
    let built_on = without(alloc, closure, number)?;
    let back = one_marked(alloc, count, number)?;
    Ok(PackagesBelow { built_on, back })
}

/// Marks exactly the packages that a package reaches which is marked in `starts`.
pub(crate) fn reached_by(
    alloc: Global,
    links: &LinkRows,
    starts: &[bool],
) -> Result<Vec<bool>, AllocError>
    requires linked { AreLinked links.now }
    requires size { length starts.now ≡ length links.now }
    ensures { IfOk result (λ marks. AreReached links.now starts.now (length links.now) marks.items) }
{
    let mut marks = vec![in alloc; false; links.len()]?;
    for start in 0..links.len() {
        if starts[start] {
            reach(alloc, links, &mut marks, start)?;
        }
    }
    Ok(marks)
}
