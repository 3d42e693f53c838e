//! Computes the links after one package was inserted, from the links before. The other packages keep their rows, with shifted numbers,
//! unless they import the new package.
ghost use Rattle.std.specs.Prelude.{◌≡◌, ◌+◌, ◌^◌, ◌<◌, ◌≤◌, ◌↔◌, ℕ, List, length, slice_get, slice_index, sum_by, Some, IfOk, IsTrue, MatchOption, OnOk};
ghost use Rattle.std.specs.List.{Contains};
ghost use Rattle.std.specs.List.Sorted.{IsStrictlyIncreasing, IsStrictlySortedBy};
ghost use Rattle.base_files.specs.Workspace.{path_cmp};
ghost use Rattle.workspace_graph.specs.Graphs.{paths_of};
ghost use Rattle.workspace_graph.specs.Growth.{AreGrown, AreRows, HasNewPackage, ImportsAt, IsGrowing, IsStop};
ghost use Rattle.workspace_graph.specs.ImportPaths.{AnyImports};
ghost use Rattle.workspace_graph.specs.Imports.{ListsBelow};
ghost use Rattle.workspace_graph.specs.Rows.{IsRow};
ghost use Rattle.workspace_graph.specs.Shifts.{Splits, shifted};
ghost use Rattle.workspace_graph.specs.declared.package.ParsedPackage.{ParsedPackage};

use crate::import_links::ImportLinks;
use crate::link_rows::{LinkRows, RowRun};
use crate::rows::fill_row;
use crate::shared_package::SharedPackage;
use std::alloc::{AllocError, Global};

/// Packages, of which the one at `place` is new, and the links of the others before it was inserted.
#[derive(Clone, Copy)]
pub(crate) struct Grown<'a> {
    pub(crate) packages: &'a [SharedPackage],
    pub(crate) links: &'a ImportLinks,
    pub(crate) place: usize,
}

/// Whether the files of a package import the path.
fn imports_path(one: &SharedPackage, path: &[u8]) -> bool
    ensures { IsTrue result ↔ AnyImports one.now.trees.items path.now }
{
    let imports = one.imports();
    if imports.is_empty() {
        return false;
    }
    imports.contains(path)
}

/// The index in an increasing list of the first number greater than `number`, where all before `index` are less than `number`.
fn past(list: &[usize], index: usize, number: usize) -> usize
    requires rising { IsStrictlyIncreasing list.now }
    requires passed { Splits list.now index number }
    ensures passed { Splits list.now result (number + 1) }
    ensures has { (index < result) ↔ Contains list.now number }
{
    if index < list.len() && list[index] == number {
        index + 1
    } else {
        index
    }
}

/// The number before of the package that has `number` after the insertion, or `None` for the new package.
fn number_before(number: usize, place: usize) -> Option<usize>
    ensures { MatchOption result (number ≡ place) (λ before. shifted place before ≡ number) }
{
    if number == place {
        return None;
    }
    Some(if number < place { number } else { number - 1 })
}

/// Whether every path that a package imports surely had a package before the insertion: its row has as many packages as it imports paths.
/// Such a package does not import the new one.
fn imports_had(grown: Grown<'_>, number: usize) -> bool
    requires sorted { IsStrictlySortedBy path_cmp (paths_of grown.packages.now) }
    requires grown { HasNewPackage grown.packages.now grown.links.now grown.place }
    requires number { number < length grown.packages.now }
    ensures { IsTrue result → (path : List ℕ) → slice_get (paths_of grown.entry.packages.now) grown.entry.place ≡ Some path → ImportsAt grown.entry.packages.now path number → ⊥ }
{
    let Some(before) = number_before(number, grown.place) else {
        return false;
    };
    let row = grown.links.imports(before);
    let imports = grown.packages[number].imports();
    if imports.len() > row.len() {
        return false;
    }
    true
}

/// Whether the files of package `number` import the new package, whose path is `path`.
fn imports_coming(grown: Grown<'_>, number: usize, path: &[u8]) -> bool
    requires sorted { IsStrictlySortedBy path_cmp (paths_of grown.packages.now) }
    requires grown { HasNewPackage grown.packages.now grown.links.now grown.place }
    requires path { slice_get (paths_of grown.packages.now) grown.place ≡ Some path.now }
    requires number { number < length grown.packages.now }
    ensures { IsTrue result ↔ ImportsAt grown.entry.packages.now path.now number }
{
    if imports_had(grown, number) {
        return false;
    }
    imports_path(&grown.packages[number], path)
}

/// The packages that import the new package, in increasing order.
fn importing(alloc: Global, grown: Grown<'_>, path: &[u8]) -> Result<Vec<usize>, AllocError>
    requires sorted { IsStrictlySortedBy path_cmp (paths_of grown.packages.now) }
    requires grown { HasNewPackage grown.packages.now grown.links.now grown.place }
    requires path { slice_get (paths_of grown.packages.now) grown.place ≡ Some path.now }
    ensures { IfOk result (λ list. ListsBelow (ImportsAt grown.entry.packages.now path.now) (length grown.entry.packages.now) list.items) }
{
    let mut list = Vec::new(alloc);
    for number in 0..grown.packages.len() {
        if imports_coming(grown, number, path) {
            list.push(number)?;
        }
    }
    Ok(list)
}

/// The number of leading numbers of a row that are below `bound`.
fn count_below(row: &[usize], bound: usize) -> usize
    ensures within { result ≤ length row.now }
    ensures below { (k : ℕ) → k < result → slice_index row.now k < bound }
    ensures above { result < length row.now → bound ≤ slice_index row.now result }
{
    for (index, number) in row.iter().enumerate() {
        if *number >= bound {
            return index;
        }
    }
    row.len()
}

/// The rows before the insertion at `place`, the new package's own row, and the increasing numbers of the rows that gain `place`.
#[derive(Clone, Copy)]
struct Growing<'a> {
    before: &'a LinkRows,
    place: usize,
    own: &'a [usize],
    linked: &'a [usize],
}

/// The linked number at an index, or the number of rows after the insertion where there is none.
fn linked_at(growing: Growing<'_>, index: usize) -> usize
    requires { IsGrowing growing.before.now growing.place growing.linked.now }
    ensures there { index < length growing.entry.linked.now → result ≡ slice_index growing.entry.linked.now index }
    ensures behind { length growing.entry.linked.now ≤ index → result ≡ length growing.entry.before.now + 1 }
{
    if index < growing.linked.len() {
        return growing.linked[index];
    }
    growing.before.one_more()
}

/// The number, from `number` on, of the next row that is not merely shifted, or the number of rows.
fn next_stop(growing: Growing<'_>, index: usize, number: usize) -> usize
    requires growing { IsGrowing growing.before.now growing.place growing.linked.now }
    requires passed { Splits growing.linked.now index number }
    requires within { number ≤ length growing.before.now + 1 }
    ensures { IsStop growing.entry.place (length growing.entry.before.now + 1) growing.entry.linked.now index number result }
{
    let end = linked_at(growing, index);
    if number <= growing.place && growing.place < end {
        growing.place
    } else {
        end
    }
}

/// The number of rows before the insertion that precede row `number` after it.
fn rows_before(number: usize, place: usize) -> usize
    ensures upto { number ≤ place → result ≡ number }
    ensures above { place < number → result + 1 ≡ number }
{
    if number <= place { number } else { number - 1 }
}

/// Adds the rows up to a stop, which are merely shifted.
fn add_run(growing: Growing<'_>, stop: usize, rows: &mut LinkRows) -> Result<(), AllocError>
    requires growing { IsGrowing growing.before.now growing.place growing.linked.now }
    requires small { length growing.before.now + 1 < 2 ^ 64 }
    requires grown { AreGrown growing.place growing.own.now growing.linked.now growing.before.now rows.old }
    requires stop { (index : ℕ) × Splits growing.linked.now index (length rows.old) × IsStop growing.place (length growing.before.now + 1) growing.linked.now index (length rows.old) stop }
    ensures grown { OnOk result (AreGrown growing.entry.place growing.entry.own.now growing.entry.linked.now growing.entry.before.now rows.new) }
    ensures count { OnOk result (length rows.new ≡ stop) }
{
    let run = RowRun {
        rows: growing.before,
        from: rows_before(rows.len(), growing.place),
        to: rows_before(stop, growing.place),
    };
    rows.add_shifted_rows(run, growing.place)
}

/// Adds the next row, where it is the new package's own or gains `place`.
fn add_stop(growing: Growing<'_>, rows: &mut LinkRows) -> Result<(), AllocError>
    requires growing { IsGrowing growing.before.now growing.place growing.linked.now }
    requires small { length growing.before.now + 1 < 2 ^ 64 }
    requires grown { AreGrown growing.place growing.own.now growing.linked.now growing.before.now rows.old }
    requires below { length rows.old < length growing.before.now + 1 }
    requires told { (length rows.old ≡ growing.place → ⊥) → Contains growing.linked.now (length rows.old) }
    ensures grown { OnOk result (AreGrown growing.entry.place growing.entry.own.now growing.entry.linked.now growing.entry.before.now rows.new) }
    ensures count { OnOk result (length rows.new ≡ length rows.old + 1) }
{
    let Some(before) = number_before(rows.len(), growing.place) else {
        return rows.add_row(growing.own);
    };
    let row = growing.before.row(before);
    let below = count_below(row, growing.place);
    rows.add_shifted_around(row, growing.place, below)
}

/// Adds the rows up to the next stop, and the row at the stop. Returns the index of the next linked number.
fn add_next(growing: Growing<'_>, index: usize, rows: &mut LinkRows) -> Result<usize, AllocError>
    requires growing { IsGrowing growing.before.now growing.place growing.linked.now }
    requires small { length growing.before.now + 1 < 2 ^ 64 }
    requires grown { AreGrown growing.place growing.own.now growing.linked.now growing.before.now rows.old }
    requires passed { Splits growing.linked.now index (length rows.old) }
    requires below { length rows.old < length growing.before.now + 1 }
    ensures grown { OnOk result (AreGrown growing.entry.place growing.entry.own.now growing.entry.linked.now growing.entry.before.now rows.new) }
    ensures passed { IfOk result (λ next. Splits growing.entry.linked.now next (length rows.new)) }
    ensures more { OnOk result (length rows.old < length rows.new) }
{
    let stop = next_stop(growing, index, rows.len());
    add_run(growing, stop, rows)?;
    if stop > growing.before.len() {
        return Ok(index);
    }
    add_stop(growing, rows)?;
    Ok(past(growing.linked, index, stop))
}

/// About how many numbers all rows have after the insertion: those before, those of the new row, and one more in each row that gains one.
fn number_count(growing: Growing<'_>) -> usize
    ensures { result ≤ sum_by (λ row. length row) growing.entry.before.now + length growing.entry.own.now + length growing.entry.linked.now }
{
    let before = growing.before.number_count();
    let more = growing.own.len().saturating_add(growing.linked.len());
    before.saturating_add(more)
}

/// All rows after the insertion.
fn grow(alloc: Global, growing: Growing<'_>) -> Result<LinkRows, AllocError>
    requires { IsGrowing growing.before.now growing.place growing.linked.now }
    ensures grown { IfOk result (AreGrown growing.entry.place growing.entry.own.now growing.entry.linked.now growing.entry.before.now) }
    ensures count { IfOk result (λ rows. length rows ≡ length growing.entry.before.now + 1) }
{
    let count = growing.before.one_more();
    let mut rows = LinkRows::with_capacity(alloc, count, number_count(growing))?;
    let mut index = 0;
    while rows.len() < count {
        index = add_next(growing, index, &mut rows)?;
    }
    Ok(rows)
}

/// The links after the insertion. `own` has the imports of the new package, and `importing` its importers. For the importers of all
/// packages the two change places.
fn grown_by(
    alloc: Global,
    grown: Grown<'_>,
    own: &[usize],
    importing: &[usize],
) -> Result<ImportLinks, AllocError>
    requires grown { HasNewPackage grown.packages.now grown.links.now grown.place }
    requires own { (p : ParsedPackage) → slice_get grown.packages.now grown.place ≡ Some p → IsRow (paths_of grown.packages.now) p.trees.items own.now }
    requires importing { (path : List ℕ) → slice_get (paths_of grown.packages.now) grown.place ≡ Some path → ListsBelow (ImportsAt grown.packages.now path) (length grown.packages.now) importing.now }
    ensures { IfOk result (AreRows grown.entry.packages.now) }
{
    let forth = Growing {
        before: grown.links.import_rows(),
        place: grown.place,
        own,
        linked: importing,
    };
    let back = Growing {
        before: grown.links.importer_rows(),
        place: grown.place,
        own: importing,
        linked: own,
    };
    let imports = grow(alloc, forth)?;
    let importers = grow(alloc, back)?;
    Ok(ImportLinks::with_importers(imports, importers))
}

/// The links of packages of which one is new.
pub(crate) fn grown_links(alloc: Global, grown: Grown<'_>) -> Result<ImportLinks, AllocError>
    requires sorted { IsStrictlySortedBy path_cmp (paths_of grown.packages.now) }
    requires grown { HasNewPackage grown.packages.now grown.links.now grown.place }
    ensures { IfOk result (AreRows grown.entry.packages.now) }
{
    let one = &grown.packages[grown.place];
    let importing = importing(alloc, grown, one.path())?;
    let mut own = Vec::new(alloc);
    fill_row(grown.packages, one, &[], &mut own)?;
    grown_by(alloc, grown, &own, &importing)
}
