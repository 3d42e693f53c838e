//! Packages that several graphs share.
ghost use Rattle.std.specs.Prelude.{◌≡◌, IfOk, IfSome, IsTrue, Some, slice_get, MatchOption};
ghost use Rattle.std.specs.Arc.{arc_value};
ghost use Rattle.std.specs.List.{Contains};
ghost use Rattle.std.specs.List.Sorted.{IsStrictlySortedBy};
ghost use Rattle.base_files.specs.Workspace.{path_cmp};
ghost use Rattle.workspace_graph.specs.Drafts.{IsDraft, IsSamePackage};
ghost use Rattle.workspace_graph.specs.Graphs.{paths_of};
ghost use Rattle.workspace_graph.specs.ImportPaths.{ListsPaths, AnyImports};

use crate::drafts::Draft;
use crate::import_paths::import_paths;
use crate::in_folder::tree_at;
use crate::package::ParsedPackage;
use base_files::Path;
use go_ast::FileTree;
use std::alloc::{AllocError, Global};
use std::collections::BTreeSet;
use std::marker::Model;
use std::sync::Arc;

/// A package, and the paths that its files import.
#[derive(Drop)]
struct PackageParts {
    package: ParsedPackage,
    imports: Arc<BTreeSet<Vec<u8>>, Global>,
}

/// The paths that the files of a draft import. They are read where the draft does not know them.
fn imports_of(alloc: Global, draft: &Draft) -> Result<Arc<BTreeSet<Vec<u8>>, Global>, AllocError>
    requires { IsDraft draft.now }
    ensures { IfOk result (λ paths. ListsPaths (AnyImports draft.now.package.trees.items) (arc_value paths).keys) }
{
    match &draft.imports {
        Some(imports) => Arc::try_clone(imports),
        None => {
            let imports = import_paths(alloc, &draft.package.trees)?;
            Ok(Arc::new(alloc, imports)?)
        }
    }
}

/// A package behind a counted reference, which does not change. A clone shares it.
#[derive(Drop)]
pub(crate) struct SharedPackage {
    parts: Arc<PackageParts, Global>,
}

impl Model for SharedPackage {
    ghost use Rattle.std.specs.Arc.{arc_value};
    ghost use Rattle.workspace_graph.specs.Drafts.{IsPackageParts};
    ghost use Rattle.workspace_graph.specs.declared.package.ParsedPackage.{ParsedPackage};
    ghost use Rattle.workspace_graph.specs.contracts.package.ParsedPackage.{the_row};

    ghost Value = { ParsedPackage };

    ghost coded = { the_row.coded };

    ghost view = { λ a. (arc_value a.parts).package };

    ghost invariant = { λ a. IsPackageParts (arc_value a.parts).package (arc_value (arc_value a.parts).imports).keys };
}

impl SharedPackage {
    /// The package of a draft. Its import paths are read where the draft does not know them.
    pub(crate) fn of(alloc: Global, draft: Draft) -> Result<SharedPackage, AllocError>
        requires { IsDraft draft }
        ensures { IfOk result (λ shared. shared ≡ draft.package) }
    {
        let imports = imports_of(alloc, &draft)?;
        let parts = PackageParts {
            package: draft.package,
            imports,
        };
        Ok(SharedPackage {
            parts: Arc::new(alloc, parts)?,
        })
    }

    /// A draft with the files and import paths of the package, of which files can be set.
    pub(crate) fn to_draft(&self) -> Result<Draft, AllocError>
        ensures draft { IfOk result IsDraft }
        ensures package { IfOk result (λ draft. IsSamePackage draft.package self.now) }
    {
        let imports = Arc::try_clone(&self.parts.imports)?;
        let package = self.parts.package.copy()?;
        Ok(Draft {
            package,
            imports: Some(imports),
            changed: false,
        })
    }

    /// The package.
    pub(crate) fn package(&self) -> &ParsedPackage
        ensures { result.now ≡ self.now }
    {
        &self.parts.package
    }

    /// The tree that the package has at a path, if it has one.
    pub(crate) fn tree_at_path(&self, path: &Path) -> Option<&FileTree>
        ensures { IfSome result (λ tree. Contains self.now.trees.items tree.now × (tree.now.path ≡ path.now)) }
    {
        tree_at(&self.parts.package.trees, path)
    }

    /// The path of the package.
    pub(crate) fn path(&self) -> &[u8]
        ensures { result.now ≡ self.now.path.items }
    {
        &self.parts.package.path
    }

    /// The paths that the files of the package import.
    pub(crate) fn imports(&self) -> &BTreeSet<Vec<u8>>
        ensures { ListsPaths (AnyImports self.now.trees.items) result.now.keys }
    {
        &self.parts.imports
    }
}

impl Clone for SharedPackage {
    ghost is_clone = { λ shared copy. copy ≡ shared };

    fn clone(&self) -> Result<SharedPackage, AllocError> {
        let parts = Arc::try_clone(&self.parts)?;
        Ok(SharedPackage { parts })
    }
}

/// The number of the package at a path, or `None` where there is no such package.
pub(crate) fn number_of(packages: &[SharedPackage], path: &[u8]) -> Option<usize>
    requires { IsStrictlySortedBy path_cmp (paths_of packages.now) }
    ensures { MatchOption result (Contains (paths_of packages.now) path.now → ⊥) (λ number. slice_get (paths_of packages.now) number ≡ Some path.now) }
{
    match packages.binary_search_by(|package| package.path().cmp(path)) {
        Ok(number) => Some(number),
        Err(_) => None,
    }
}

/// Whether there is a package of that number, and it has the path.
fn is_at(packages: &[SharedPackage], number: usize, path: &[u8]) -> bool
    ensures { IsTrue result → slice_get (paths_of packages.now) number ≡ Some path.now }
{
    number < packages.len() && packages[number].path() == path
}

/// The number of the package at a path, if it is `near`, `near + 1` or `near - 1`.
pub(crate) fn place_near(packages: &[SharedPackage], path: &[u8], near: usize) -> Option<usize>
    ensures { IfSome result (λ number. slice_get (paths_of packages.now) number ≡ Some path.now) }
{
    let after = near.saturating_add(1);
    let before = near.saturating_sub(1);
    if is_at(packages, near, path) {
        Some(near)
    } else if is_at(packages, after, path) {
        Some(after)
    } else if is_at(packages, before, path) {
        Some(before)
    } else {
        None
    }
}

/// The number of the package at a path, or `None` where there is no such package. It is first looked for at `near` and beside it.
pub(crate) fn number_by_hint(packages: &[SharedPackage], path: &[u8], near: usize) -> Option<usize>
    requires { IsStrictlySortedBy path_cmp (paths_of packages.now) }
    ensures { MatchOption result (Contains (paths_of packages.now) path.now → ⊥) (λ number. slice_get (paths_of packages.now) number ≡ Some path.now) }
{
    match place_near(packages, path, near) {
        Some(number) => Some(number),
        None => number_of(packages, path),
    }
}
