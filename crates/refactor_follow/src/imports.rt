//! The imports of a package that get another name, and the conflicts of their renames.
ghost use Rattle.std.specs.Prelude.{◌≡◌, ◌<◌, ◌↔◌, Some, option_map, length, IsTrue, IfOk};
ghost use Rattle.go_scope.specs.Bindings.{AllCount, Declares};
ghost use Rattle.types_declared.specs.PackageView.{package_of};
ghost use Rattle.refs_binding.specs.Indexed.{IsPackageNumber, IsPackageNumbered};
ghost use Rattle.refs_binding.specs.Uses.{IsCheckedPackage};
ghost use Rattle.refs_binding.specs.Workspaces.{known_in};
ghost use Rattle.refactor_decide.specs.Own.{TellsOwn};
ghost use Rattle.refactor_follow.specs.ImportNames.{GetsName, IsBareImportOf, TellsIfNamed};
ghost use Rattle.refactor_follow.specs.FirstConflicts.{IsFirstOfImports};

use refactor_conflict::Conflict;
use refactor_decide::{earlier, first_placed};
use refactor_scopes::ScopeRename;
use refs_binding::indexed::Numbered;
use std::alloc::{AllocError, Global};
use types_declared::{Package, is_import, literal_of, path_of};

/// The package whose name changes, by its path, and its new name.
#[derive(Clone, Copy)]
pub(crate) struct FollowedName<'a> {
    pub path: &'a [u8],
    pub name: &'a [u8],
}

/// Whether a path was found and equals this one.
fn is_path(found: Option<Vec<u8>>, path: &[u8]) -> bool
    ensures { IsTrue result ↔ (option_map (λ v. v.items) found ≡ Some path.now) }
{
    match found {
        None => false,
        Some(other) => other.as_slice() == path,
    }
}

/// Whether a declaration is an import, without a name, of the package at a path.
fn is_bare_import(
    alloc: Global,
    unit: Package<'_>,
    d: usize,
    path: &[u8],
) -> Result<bool, AllocError>
    requires { d < length unit.table.now.sites }
    ensures { IfOk result (λ is. IsTrue is ↔ IsBareImportOf (package_of unit.entry) path.now d) }
{
    if is_import(unit.table, d) && literal_of(unit.table, d) == d {
        let found = path_of(alloc, unit.table, unit.files, d)?;
        Ok(is_path(found, path))
    } else {
        Ok(false)
    }
}

/// Whether a declaration is an import, without a name, of the package whose name changes, and has another name.
fn gets_name(
    alloc: Global,
    unit: Package<'_>,
    d: usize,
    new: FollowedName<'_>,
) -> Result<bool, AllocError>
    requires { d < length unit.table.now.sites }
    ensures { IfOk result (λ is. IsTrue is ↔ GetsName (package_of unit.entry) new.entry.path.now new.entry.name.now d) }
{
    Ok(unit.table.name(d) != new.name && is_bare_import(alloc, unit, d, new.path)?)
}

/// The first conflict of the rename of a declaration in the scopes of its package.
fn rename_conflict(
    alloc: Global,
    unit: Package<'_>,
    d: usize,
    name: &[u8],
) -> Result<Option<Conflict>, AllocError>
    requires in_range { d < length unit.table.now.sites }
    requires declared { let p = package_of unit in
        Declares p.layout p.names d }
    requires other { (package_of unit).names d ≡ name.now → ⊥ }
    requires all_count { let p = package_of unit in
        AllCount p.layout p.names }
    ensures { IfOk result (TellsOwn (package_of unit.entry) d name.now) }
{
    let rename = ScopeRename::of(alloc, unit.table, d, name)?;
    first_placed(unit, &rename)
}

/// The first conflict of the rename of a declaration, if it is an import that gets the new name.
fn conflict_of(
    alloc: Global,
    unit: Package<'_>,
    d: usize,
    new: FollowedName<'_>,
) -> Result<Option<Conflict>, AllocError>
    requires in_range { d < length unit.table.now.sites }
    requires all_count { let p = package_of unit in
        AllCount p.layout p.names }
    ensures { IfOk result (TellsIfNamed (package_of unit.entry) new.entry.path.now new.entry.name.now d) }
{
    unit.table.is_well_formed();
    if gets_name(alloc, unit, d, new)? {
        rename_conflict(alloc, unit, d, new.name)
    } else {
        Ok(None)
    }
}

/// The first conflict of the renames of the imports of a package.
pub(crate) fn first_in(
    alloc: Global,
    at: Numbered<'_>,
    unit: Package<'_>,
    new: FollowedName<'_>,
) -> Result<Option<Conflict>, AllocError>
    requires numbered { IsPackageNumber at }
    requires unit { IsPackageNumbered at (package_of unit) }
    ensures { let p = package_of unit.entry in
        IfOk result (IsFirstOfImports (IsCheckedPackage at.entry.workspace.now.graph (known_in at.entry.workspace.now.findings)) p new.entry.path.now new.entry.name.now p.size) }
{
    at.workspace.has_no_faults();
    let mut first = None;
    for d in 0..unit.table.len() {
        let found = conflict_of(alloc, unit, d, new)?;
        first = earlier(first, found);
    }
    Ok(first)
}
