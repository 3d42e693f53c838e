//! Lists of package paths, which states share.
ghost use Rattle.std.specs.Prelude.{◌≡◌, ◌<◌, IfOk, IsTrue, MatchOption, Some, length, slice_get};
ghost use Rattle.std.specs.List.{Contains};
ghost use Rattle.std.specs.List.Sorted.{IsStrictlySortedBy};
ghost use Rattle.base_files.specs.Packages.{package_paths};
ghost use Rattle.base_files.specs.Workspace.{path_cmp};
ghost use Rattle.history_machine.specs.PathPlaces.{IsOnlyPlace};

use base_files::SharedPath;
use std::alloc::{AllocError, Global};
use std::marker::Model;
use std::sync::Arc;
use workspace_graph::Graph;

/// The paths of all packages of a workspace, in their order. A clone shares them.
#[derive(Drop)]
pub struct PathList {
    paths: Arc<Vec<SharedPath>, Global>,
}

impl Model for PathList {
    ghost use Rattle.std.specs.Prelude.{List, ℕ};
    ghost use Rattle.std.specs.Arc.{arc_value};
    ghost use Rattle.std.specs.List.Sorted.{IsStrictlySortedBy};
    ghost use Rattle.base_files.specs.Workspace.{path_cmp};

    ghost Value = { List (List ℕ) };

    ghost view = { λ a. (arc_value a.paths).items };

    ghost invariant = { λ a. IsStrictlySortedBy path_cmp (arc_value a.paths).items };
}

/// Whether the package of a number has this path.
fn is_path_of(files: &Graph, number: usize, path: &SharedPath) -> bool
    requires { number < length (package_paths files.now) }
    ensures { IsTrue result → slice_get (package_paths files.now) number ≡ Some path.now }
{
    files.package(number).path.as_slice() == path.path()
}

/// Whether these are the paths of all packages.
fn are_all_paths(paths: &[SharedPath], files: &Graph) -> bool
    ensures { IsTrue result → paths.now ≡ package_paths files.now }
{
    if paths.len() != files.len() {
        return false;
    }
    for number in 0..paths.len() {
        if !is_path_of(files, number, &paths[number]) {
            return false;
        }
    }
    true
}

/// The path of the package of a number.
fn path_of(alloc: Global, files: &Graph, number: usize) -> Result<SharedPath, AllocError>
    requires { number < length (package_paths files.now) }
    ensures { IfOk result (λ path. slice_get (package_paths files.now) number ≡ Some path) }
{
    SharedPath::new(alloc, &files.package(number).path)
}

/// The paths of all packages.
fn all_paths(alloc: Global, files: &Graph) -> Result<Vec<SharedPath>, AllocError>
    ensures { IfOk result (λ paths. paths.items ≡ package_paths files.now) }
{
    let mut paths = Vec::with_capacity(alloc, files.len())?;
    for number in 0..files.len() {
        let path = path_of(alloc, files, number)?;
        paths.push(path)?;
    }
    Ok(paths)
}

/// The place of a path among others that are in order.
fn place_of(paths: &[SharedPath], path: &[u8]) -> Option<usize>
    requires { IsStrictlySortedBy path_cmp paths.now }
    ensures { MatchOption result (Contains paths.now path.now → ⊥) (λ place. IsOnlyPlace paths.now path.now place) }
{
    match paths.binary_search_by(|other| other.path().cmp(path)) {
        Ok(place) => Some(place),
        Err(_) => None,
    }
}

impl PathList {
    /// The paths of all packages of `files`.
    fn of(alloc: Global, files: &Graph) -> Result<PathList, AllocError>
        ensures { IfOk result (λ list. list ≡ package_paths files.now) }
    {
        let paths = all_paths(alloc, files)?;
        Ok(PathList {
            paths: Arc::new(alloc, paths)?,
        })
    }

    /// The paths of all packages of `files`, shared with another list where it has the same.
    pub(crate) fn shared(
        alloc: Global,
        files: &Graph,
        other: Option<&PathList>,
    ) -> Result<PathList, AllocError>
        ensures { IfOk result (λ list. list ≡ package_paths files.now) }
    {
        match other {
            Some(list) if are_all_paths(&list.paths, files) => list.clone(),
            _ => PathList::of(alloc, files),
        }
    }

    /// The number of the package at a path, if there is one.
    pub fn number_of(&self, path: &[u8]) -> Option<usize>
        ensures { MatchOption result (Contains self.now path.now → ⊥) (λ number. IsOnlyPlace self.now path.now number) }
    {
        place_of(&self.paths, path)
    }
}

impl Clone for PathList {
    ghost is_clone = { λ list copy. copy ≡ list };

    fn clone(&self) -> Result<PathList, AllocError> {
        let paths = Arc::try_clone(&self.paths)?;
        Ok(PathList { paths })
    }
}
