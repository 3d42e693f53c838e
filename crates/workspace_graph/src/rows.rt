//! Computes which packages each package imports, by number.
ghost use Rattle.std.specs.Prelude.{◌≡◌, length, sum_by, IfOk, IsTrue, MatchOption, OnOk, Some, slice_get};
ghost use Rattle.std.specs.List.{AllZip};
ghost use Rattle.std.specs.List.Sorted.{IsStrictlyIncreasing, IsStrictlySortedBy};
ghost use Rattle.base_files.specs.Workspace.{path_cmp};
ghost use Rattle.workspace_graph.specs.Graphs.{paths_of};
ghost use Rattle.workspace_graph.specs.Imports.{ListsExactly};
ghost use Rattle.workspace_graph.specs.ImportPaths.{bytes_of_paths, IsOneOf};
ghost use Rattle.workspace_graph.specs.Rows.{AddsNumbers, IsRow};

use crate::import_links::ImportLinks;
use crate::link_rows::LinkRows;
use crate::shared_package::{SharedPackage, number_by_hint, place_near};
use std::alloc::{AllocError, Global};
use std::collections::BTreeSet;

/// The number at a place of a row, or 0 where the row is shorter.
fn number_at(row: &[usize], place: usize) -> usize {
    match row.get(place) {
        Some(number) => *number,
        None => 0,
    }
}

/// Adds the number of the package at a path, if there is one. It is first looked for at the number `near` and beside it.
fn add_path(
    packages: &[SharedPackage],
    path: &[u8],
    near: usize,
    row: &mut Vec<usize>,
) -> Result<(), AllocError>
    requires { IsStrictlySortedBy path_cmp (paths_of packages.now) }
    ensures { OnOk result (AddsNumbers (λ j. slice_get (paths_of packages.now) j ≡ Some path.now) row.old.items row.new.items) }
{
    if let Some(number) = number_by_hint(packages, path, near) {
        row.push(number)?;
    }
    Ok(())
}

/// Fills a row with the numbers of the packages at some paths. Each is first looked for at its number in an earlier graph.
fn fill_numbers(
    packages: &[SharedPackage],
    paths: &BTreeSet<Vec<u8>>,
    earlier: &[usize],
    row: &mut Vec<usize>,
) -> Result<(), AllocError>
    requires { IsStrictlySortedBy path_cmp (paths_of packages.now) }
    ensures { OnOk result (ListsExactly row.new.items (IsOneOf (paths_of packages.now) (bytes_of_paths paths.now.keys))) }
{
    row.clear();
    for path in paths.iter() {
        let near = number_at(earlier, row.len());
        add_path(packages, path, near, row)?;
    }
    Ok(())
}

/// Whether each number is less than the next.
fn is_rising(row: &[usize]) -> bool
    ensures { IsTrue result → IsStrictlyIncreasing row.now }
{
    for place in 1..row.len() {
        if row[place - 1] >= row[place] {
            return false;
        }
    }
    true
}

/// Fills a row with the packages that the files of `importer` import, in increasing order. Each is first looked for at its number in an
/// earlier graph. The numbers are sorted only if they do not rise already.
pub(crate) fn fill_row(
    packages: &[SharedPackage],
    importer: &SharedPackage,
    earlier: &[usize],
    row: &mut Vec<usize>,
) -> Result<(), AllocError>
    requires { IsStrictlySortedBy path_cmp (paths_of packages.now) }
    ensures { OnOk result (IsRow (paths_of packages.now) importer.now.trees.items row.new.items) }
{
    fill_numbers(packages, importer.imports(), earlier, row)?;
    if !is_rising(row) {
        row.sort_unstable();
        row.dedup();
    }
    Ok(())
}

/// The packages of an earlier graph by number, and their links.
#[derive(Clone, Copy)]
pub(crate) struct EarlierGraph<'a> {
    pub(crate) packages: &'a [SharedPackage],
    pub(crate) links: &'a ImportLinks,
}

/// The imports that the package at a path had in an earlier graph, if its number there was `near` or one beside it; otherwise none.
fn earlier_row<'a>(earlier: Option<EarlierGraph<'a>>, path: &[u8], near: usize) -> &'a [usize] {
    let Some(earlier) = earlier else {
        return &[];
    };
    match place_near(earlier.packages, path, near) {
        Some(number) if number < earlier.links.len() => earlier.links.imports(number),
        _ => &[],
    }
}

/// The number of links in an earlier graph, or 0 where there is none.
fn earlier_count(earlier: Option<EarlierGraph<'_>>) -> usize
    ensures { MatchOption earlier.entry (result ≡ 0) (λ graph. result ≡ sum_by (λ row. length row) graph.links.now) }
{
    match earlier {
        Some(earlier) => earlier.links.import_rows().number_count(),
        None => 0,
    }
}

/// For each package, the packages that its files import. The earlier graph only makes this faster.
pub(crate) fn rows(
    alloc: Global,
    packages: &[SharedPackage],
    earlier: Option<EarlierGraph<'_>>,
) -> Result<LinkRows, AllocError>
    requires { IsStrictlySortedBy path_cmp (paths_of packages.now) }
    ensures { IfOk result (λ rows. AllZip (λ p row. IsRow (paths_of packages.now) p.trees.items row) packages.now rows) }
{
    let mut rows = LinkRows::with_capacity(alloc, packages.len(), earlier_count(earlier))?;
    let mut row = Vec::new(alloc);
    for package in packages {
        let before = earlier_row(earlier, package.path(), rows.len());
        fill_row(packages, package, before, &mut row)?;
        rows.add_row(&row)?;
    }
    Ok(rows)
}
