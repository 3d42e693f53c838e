//! The first conflict of a rename in the scopes of the declaring package, by its place.
ghost use Rattle.std.specs.Prelude.{◌≡◌, ◌<◌, ◌↔◌, length, IsTrue, IfOk};
ghost use Rattle.go_scope.specs.Bindings.{AllCount};
ghost use Rattle.types_declared.specs.PackageView.{package_of};
ghost use Rattle.refactor_rename.specs.Literals.{IsUnnamedImport};
ghost use Rattle.refactor_scopes.specs.Conflicts.{IsScopeRename};
ghost use Rattle.refactor_decide.specs.Capturers.{CountsIfAny};
ghost use Rattle.refactor_decide.specs.Own.{CanRename, IsConflictPlace, TellsOwn};

use crate::capturers::capturer_if;
use refactor_conflict::Conflict;
use refactor_scopes::{ScopeConflict, ScopeRename};
use refs_places::beginning;
use std::alloc::{AllocError, Global};
use types_declared::{Package, is_import, literal_of};

/// Whether a declaration is an import without a name.
pub(crate) fn is_unnamed(unit: Package<'_>, n: usize) -> bool
    requires { n < length unit.table.now.sites }
    ensures { IsTrue result ↔ IsUnnamedImport (package_of unit.entry) n }
{
    is_import(unit.table, n) && literal_of(unit.table, n) == n
}

/// The conflict at an identifier of a package, by the place where this begins.
fn placed(unit: Package<'_>, told: ScopeConflict) -> Result<Option<Conflict>, AllocError>
    requires in_range { told.identifier < length unit.table.now.sites }
    requires counts { CountsIfAny (package_of unit) told.by }
    ensures { IfOk result (IsConflictPlace (package_of unit.entry) told) }
{
    match beginning(unit, told.identifier)? {
        None => Ok(None),
        Some(used) => Ok(Some(Conflict {
            used,
            by: capturer_if(unit, told.by)?,
        })),
    }
}

/// The first conflict that the scopes of a package tell, by its place.
pub fn first_placed(
    unit: Package<'_>,
    rename: &ScopeRename<'_>,
) -> Result<Option<Conflict>, AllocError>
    requires read { IsScopeRename rename.now }
    requires table { rename.now.table.now ≡ unit.table.now }
    ensures { IfOk result (TellsOwn (package_of unit.entry) rename.now.declaration rename.now.name.now) }
{
    rename.table.is_well_formed();
    match rename.conflict() {
        None => Ok(None),
        Some(told) => placed(unit, told),
    }
}

/// The first conflict of a rename in the scopes of the declaring package, by its place.
pub(crate) fn own_conflict(
    alloc: Global,
    unit: Package<'_>,
    n: usize,
    name: &[u8],
) -> Result<Option<Conflict>, AllocError>
    requires can { CanRename (package_of unit) n name.now }
    requires all_count { let p = package_of unit in
        AllCount p.layout p.names }
    ensures { IfOk result (TellsOwn (package_of unit.entry) n name.now) }
{
    let rename = ScopeRename::of(alloc, unit.table, n, name)?;
    first_placed(unit, &rename)
}
