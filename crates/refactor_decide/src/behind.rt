//! The first identifier of another package, behind the name of the declaring package, that a rename captures or loses.
ghost use Rattle.std.specs.Prelude.{◌≡◌, ◌↔◌, IsTrue, IfOk};
ghost use Rattle.base_files.specs.Path.{folder};
ghost use Rattle.go_scope.specs.Bindings.{AllCount};
ghost use Rattle.types_declared.specs.PackageView.{package_of};
ghost use Rattle.refs_binding.specs.Indexed.{IsPackageNumber, IsPackageNumbered, IsIndexed};
ghost use Rattle.refs_binding.specs.declared.declaration.Declaration.TheVariants.{Declared};
ghost use Rattle.refs_binding.specs.Uses.{IsCheckedPackage};
ghost use Rattle.refs_binding.specs.Workspaces.{ListsFound, known_in};
ghost use Rattle.law_agreement.specs.ScopeConflicts.{FirstConflictBehind};
ghost use Rattle.refactor_decide.specs.Behind.{IsFirstListed, IsFirstOutside, IsFirstUse};
ghost use Rattle.refactor_decide.specs.Capturers.{CountsIfAny, NamesEach};
ghost use Rattle.refactor_decide.specs.Own.{CanRename};

use crate::capturers::capturer_if;
use crate::turned::{TurnedUses, turned};
use base_files::Place;
use refactor_conflict::Conflict;
use refs_binding::Declaration;
use refs_binding::indexed::{Indexed, Numbered};
use refs_uses::{Places, list_uses_from};
use std::alloc::{AllocError, Global};
use types_declared::Package;

/// Whether a file of this place is in the package of this path.
fn is_inside(place: &Place, path: &[u8]) -> bool
    ensures { IsTrue result ↔ (folder place.now.path ≡ path.now) }
{
    place.path.folder() == path
}

/// The first of some places that is outside of the package of this path.
fn first_outside<'a>(places: &'a [Place], path: &[u8]) -> Option<&'a Place>
    ensures { IsFirstOutside places.now path.now result }
{
    for k in 0..places.len() {
        if !is_inside(&places[k], path) {
            return Some(&places[k]);
        }
    }
    None
}

/// The conflict of the identifier at a place, with what captures it.
fn conflict_at(unit: Package<'_>, used: &Place, by: Option<usize>) -> Result<Conflict, AllocError>
    requires { CountsIfAny (package_of unit) by }
    ensures { IfOk result (λ c. (c.used ≡ used.now) × NamesEach (package_of unit.entry) by c.by) }
{
    let path = used.path.clone()?;
    Ok(Conflict {
        used: Place {
            path,
            offset: used.offset,
        },
        by: capturer_if(unit, by)?,
    })
}

/// The conflict at the first place that is outside of a package, with what captures it.
fn first_of(
    unit: Package<'_>,
    places: &[Place],
    by: Option<usize>,
) -> Result<Option<Conflict>, AllocError>
    requires { CountsIfAny (package_of unit) by }
    ensures { IfOk result (IsFirstListed (package_of unit.entry) places.now by) }
{
    match first_outside(places, unit.path.path()) {
        None => Ok(None),
        Some(used) => Ok(Some(conflict_at(unit, used, by)?)),
    }
}

/// The places of the uses of a declaration of a package.
fn uses_of(
    alloc: Global,
    at: Numbered<'_>,
    of: &Indexed<'_>,
    d: usize,
) -> Result<Places, AllocError>
    requires numbered { IsPackageNumber at }
    requires unit { IsPackageNumbered at (package_of of.now.unit) }
    requires indexed { IsIndexed of.now }
    ensures { IfOk result (ListsFound at.entry.workspace.now.graph (known_in at.entry.workspace.now.findings) (Declared (package_of of.now.unit).path d)) }
{
    let path = of.unit.path.clone()?;
    let declaration = Declaration::Declared(path, d);
    list_uses_from(alloc, at, of, &declaration)
}

/// The first conflict of the uses of a declaration in other packages, of which all turn.
fn first_turned(
    alloc: Global,
    at: Numbered<'_>,
    of: &Indexed<'_>,
    turned: TurnedUses,
) -> Result<Option<Conflict>, AllocError>
    requires numbered { IsPackageNumber at }
    requires unit { IsPackageNumbered at (package_of of.now.unit) }
    requires indexed { IsIndexed of.now }
    requires counts { CountsIfAny (package_of of.now.unit) turned.by }
    ensures { IfOk result (IsFirstUse at.entry.workspace.now.graph (known_in at.entry.workspace.now.findings) (package_of of.now.unit) turned) }
{
    let places = uses_of(alloc, at, of, turned.declaration)?;
    first_of(of.unit, places.as_slice(), turned.by)
}

/// The first identifier of another package, behind the name of the declaring one, that the rename of a declaration captures or loses.
pub(crate) fn conflict_behind(
    alloc: Global,
    at: Numbered<'_>,
    of: &Indexed<'_>,
    n: usize,
    name: &[u8],
) -> Result<Option<Conflict>, AllocError>
    requires numbered { IsPackageNumber at }
    requires unit { IsPackageNumbered at (package_of of.now.unit) }
    requires indexed { IsIndexed of.now }
    requires can { CanRename (package_of of.now.unit) n name.now }
    requires all_count { let p = package_of of.now.unit in
        AllCount p.layout p.names }
    ensures { IfOk result (FirstConflictBehind (IsCheckedPackage at.entry.workspace.now.graph (known_in at.entry.workspace.now.findings)) (package_of of.now.unit) n name.now) }
{
    at.workspace.has_no_faults();
    match turned(of.unit, n, name) {
        None => Ok(None),
        Some(turned) => first_turned(alloc, at, of, turned),
    }
}
