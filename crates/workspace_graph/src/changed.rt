//! The packages after a change of files that adds and removes no package.
ghost use Rattle.std.specs.Prelude.{◌≡◌, IfOk, IsTrue, length};
ghost use Rattle.std.specs.List.{All};
ghost use Rattle.std.specs.List.Sorted.{IsStrictlySortedBy};
ghost use Rattle.base_files.specs.Workspace.{path_cmp};
ghost use Rattle.workspace_graph.specs.Changed.{AreReplaced, HasRow, KeepsPath, has_file};
ghost use Rattle.workspace_graph.specs.Graphs.{paths_of};

use crate::import_links::ImportLinks;
use crate::package::ParsedPackage;
use crate::rows::fill_row;
use crate::shared_package::{SharedPackage, number_of};
use std::alloc::{AllocError, Global};

/// Whether a package has a file.
pub(crate) fn has_file(one: &ParsedPackage) -> bool
    ensures { result ≡ has_file one.now }
{
    if !one.trees.is_empty() {
        return true;
    }
    !one.faulty.is_empty()
}

/// Whether a package has a file exactly if there was a package at its path: it is neither added nor removed.
fn keeps_path(before: &[SharedPackage], one: &SharedPackage) -> bool
    requires { IsStrictlySortedBy path_cmp (paths_of before.now) }
    ensures { IsTrue result → KeepsPath (paths_of before.now) one.now }
{
    match number_of(before, one.path()) {
        Some(_) => has_file(one.package()),
        None => !has_file(one.package()),
    }
}

/// Whether none of the packages `fresh` is added or removed.
pub(crate) fn keep_paths(before: &[SharedPackage], fresh: &[SharedPackage]) -> bool
    requires { IsStrictlySortedBy path_cmp (paths_of before.now) }
    ensures { IsTrue result → All (KeepsPath (paths_of before.now)) fresh.now }
{
    for package in fresh {
        if !keeps_path(before, package) {
            return false;
        }
    }
    true
}

/// The packages before, each replaced by the fresh package at its path, if there is one.
pub(crate) fn replaced(
    before: &Vec<SharedPackage>,
    fresh: &[SharedPackage],
) -> Result<Vec<SharedPackage>, AllocError>
    requires { IsStrictlySortedBy path_cmp (paths_of before.now.items) }
    ensures { IfOk result (λ packages. AreReplaced before.now.items fresh.now packages.items) }
{
    let mut packages = before.clone()?;
    for package in fresh {
        if let Some(number) = number_of(before, package.path()) {
            packages[number] = package.clone()?;
        }
    }
    Ok(packages)
}

/// Whether a package imports what the links say of it. True where it is not among the packages.
fn keeps_row(
    alloc: Global,
    packages: &[SharedPackage],
    links: &ImportLinks,
    one: &SharedPackage,
) -> Result<bool, AllocError>
    requires sorted { IsStrictlySortedBy path_cmp (paths_of packages.now) }
    requires size { length links.now ≡ length (paths_of packages.now) }
    ensures { IfOk result (λ kept. IsTrue kept → HasRow (paths_of packages.now) links.now one.now) }
{
    let Some(number) = number_of(packages, one.path()) else {
        return Ok(true);
    };
    let earlier = links.imports(number);
    let mut row = Vec::new(alloc);
    fill_row(packages, one, earlier, &mut row)?;
    Ok(row.as_slice() == earlier)
}

/// Whether each of the packages `fresh` imports what the links say of it, if it is among the packages.
pub(crate) fn keep_rows(
    alloc: Global,
    packages: &[SharedPackage],
    links: &ImportLinks,
    fresh: &[SharedPackage],
) -> Result<bool, AllocError>
    requires sorted { IsStrictlySortedBy path_cmp (paths_of packages.now) }
    requires size { length links.now ≡ length (paths_of packages.now) }
    ensures { IfOk result (λ kept. IsTrue kept → All (HasRow (paths_of packages.now) links.now) fresh.now) }
{
    for package in fresh {
        if !keeps_row(alloc, packages, links, package)? {
            return Ok(false);
        }
    }
    Ok(true)
}
