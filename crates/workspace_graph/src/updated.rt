//! The packages after a change of files, where packages may be replaced, added and removed.
ghost use Rattle.std.specs.Prelude.{◌≡◌, ◌≤◌, IfOk, IfSome, OnOk, Some, length, slice_get, MatchResult};
ghost use Rattle.std.specs.List.{insert};
ghost use Rattle.std.specs.List.Sorted.{IsStrictlySortedBy};
ghost use Rattle.base_files.specs.Workspace.{path_cmp};
ghost use Rattle.workspace_graph.specs.Graphs.{paths_of};
ghost use Rattle.workspace_graph.specs.Growth.{IsOnlyNew};
ghost use Rattle.workspace_graph.specs.Updated.{AreUpdated, IsPlace, SetsPackage, Removes};

use crate::changed::has_file;
use crate::shared_package::SharedPackage;
use std::alloc::AllocError;

/// The number of the package at a path, or as `Err` the index at which it would be inserted.
fn place_of(packages: &[SharedPackage], path: &[u8]) -> Result<usize, usize>
    requires { IsStrictlySortedBy path_cmp (paths_of packages.now) }
    ensures { MatchResult result (λ number. slice_get (paths_of packages.now) number ≡ Some path.now) (λ place. IsPlace (paths_of packages.now) path.now place) }
{
    packages.binary_search_by(|package| package.path().cmp(path))
}

/// Removes the package at a path, if there is one. Returns the index at which one would be inserted.
fn take_out(packages: &mut Vec<SharedPackage>, path: &[u8]) -> usize
    requires { IsStrictlySortedBy path_cmp (paths_of packages.old.items) }
    ensures { Removes (λ p. p.path.items) path.now packages.old.items packages.new.items result }
{
    match place_of(packages, path) {
        Ok(number) => {
            let _ = packages.remove(number);
            number
        }
        Err(place) => place,
    }
}

/// Sets the package at its path. A package without files is only removed.
fn put(packages: &mut Vec<SharedPackage>, one: &SharedPackage) -> Result<(), AllocError>
    requires { IsStrictlySortedBy path_cmp (paths_of packages.old.items) }
    ensures { OnOk result (SetsPackage one.now packages.old.items packages.new.items) }
{
    let place = take_out(packages, one.path());
    if !has_file(one.package()) {
        return Ok(());
    }
    packages.insert(place, one.clone()?)?;
    Ok(())
}

/// The packages before, with the fresh packages in place of those at their paths, or added. A fresh package without files is left out.
pub(crate) fn updated(
    before: &Vec<SharedPackage>,
    fresh: &[SharedPackage],
) -> Result<Vec<SharedPackage>, AllocError>
    requires before { IsStrictlySortedBy path_cmp (paths_of before.now.items) }
    requires fresh { IsStrictlySortedBy path_cmp (paths_of fresh.now) }
    ensures { IfOk result (λ packages. AreUpdated before.now.items fresh.now packages.items) }
{
    let mut packages = before.clone()?;
    for one in fresh {
        put(&mut packages, one)?;
    }
    Ok(packages)
}

/// A new package, and the index at which it is inserted.
#[derive(Clone, Copy)]
pub(crate) struct Coming<'a> {
    pub(crate) one: &'a SharedPackage,
    pub(crate) place: usize,
}

/// The only fresh package, if it has a file and no package before has its path.
pub(crate) fn one_that_comes<'a>(
    before: &[SharedPackage],
    fresh: &'a [SharedPackage],
) -> Option<Coming<'a>>
    requires { IsStrictlySortedBy path_cmp (paths_of before.now) }
    ensures { IfSome result (λ coming. IsOnlyNew before.now fresh.now coming.one.now coming.place) }
{
    if fresh.len() != 1 {
        return None;
    }
    let one = &fresh[0];
    if !has_file(one.package()) {
        return None;
    }
    match place_of(before, one.path()) {
        Ok(_) => None,
        Err(place) => Some(Coming { one, place }),
    }
}

/// The packages before, with the new package inserted.
pub(crate) fn with_coming(
    before: &Vec<SharedPackage>,
    coming: Coming<'_>,
) -> Result<Vec<SharedPackage>, AllocError>
    requires { coming.place ≤ length before.now.items }
    ensures { IfOk result (λ packages. packages.items ≡ insert before.now.items coming.entry.place coming.entry.one.now) }
{
    let mut packages = before.clone()?;
    packages.insert(coming.place, coming.one.clone()?)?;
    Ok(packages)
}
