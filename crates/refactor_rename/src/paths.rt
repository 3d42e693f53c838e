//! The paths of the files in which something gets another name.
ghost use Rattle.std.specs.Prelude.{ℕ, ◌≡◌, ◌↔◌, List, Contains, IfOk, OnOk, IsTrue};
ghost use Rattle.std.specs.List.Sorted.{IsStrictlySortedBy};
ghost use Rattle.base_files.specs.Workspace.{path_cmp};
ghost use Rattle.refs_binding.specs.Bindings.{AddsAll};
ghost use Rattle.refactor_rename.specs.Changes.{IsPathOfPlace, IsPathOfLiteral, IsPathToEdit};

use crate::renamed::{Literal, Renamed};
use base_files::{Path, Place};
use std::alloc::{AllocError, Global};

/// Whether a path is the last of a list.
fn is_last(paths: &[Path], path: &Path) -> bool
    ensures { IsTrue result → Contains paths.now path.now }
{
    match paths.last() {
        None => false,
        Some(last) => last == path,
    }
}

/// Appends a path, unless it is already the last one.
fn add_path(paths: &mut Vec<Path>, path: &Path) -> Result<(), AllocError>
    ensures { OnOk result (AddsAll paths.old.items paths.new.items (λ q. path.now ≡ q)) }
{
    if !is_last(paths.as_slice(), path) {
        paths.push(path.clone()?)?;
    }
    Ok(())
}

/// Appends the paths of some places.
fn add_places(paths: &mut Vec<Path>, places: &[Place]) -> Result<(), AllocError>
    ensures { OnOk result (AddsAll paths.old.items paths.new.items (IsPathOfPlace places.now)) }
{
    for place in places {
        add_path(paths, &place.path)?;
    }
    Ok(())
}

/// Appends the path of the literal, if there is one.
fn add_literal(paths: &mut Vec<Path>, literal: &Option<Literal>) -> Result<(), AllocError>
    ensures { OnOk result (AddsAll paths.old.items paths.new.items (IsPathOfLiteral literal.now)) }
{
    match literal {
        None => Ok(()),
        Some(literal) => add_path(paths, &literal.path),
    }
}

/// Sorts paths and removes duplicates.
fn sort(paths: &mut Vec<Path>)
    ensures same { (q : List ℕ) → Contains paths.new.items q ↔ Contains paths.old.items q }
    ensures order { IsStrictlySortedBy path_cmp paths.new.items }
{
    paths.sort_unstable();
    paths.dedup();
}

/// The paths of the places and of the literal, sorted, without duplicates.
pub(crate) fn paths_of(alloc: Global, renamed: &Renamed) -> Result<Vec<Path>, AllocError>
    ensures each { IfOk result (λ paths. (q : List ℕ) → Contains paths.items q ↔ IsPathToEdit renamed.now q) }
    ensures order { IfOk result (λ paths. IsStrictlySortedBy path_cmp paths.items) }
{
    let mut paths = Vec::new(alloc);
    add_places(&mut paths, renamed.places.as_slice())?;
    add_literal(&mut paths, &renamed.literal)?;
    sort(&mut paths);
    Ok(paths)
}
