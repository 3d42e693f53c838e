//! Finds the identifiers of one package that are bound to a declaration.
ghost use Rattle.std.specs.Prelude.{OnOk};
ghost use Rattle.go_scope.specs.Named.{name_value};
ghost use Rattle.types_declared.specs.PackageView.{package_of};
ghost use Rattle.refs_binding.specs.Indexed.{IsIndexed};
ghost use Rattle.refs_binding.specs.Steps.{AddsPlaces, UsesIn, BindsIn};

use crate::may_use::Sought;
use crate::member_uses::add_member_uses;
use crate::own_names::add_own_names;
use crate::qualified_uses::add_exported_uses;
use crate::scope_uses::add_scope_uses;
use refs_binding::PlaceKey;
use refs_binding::indexed::Indexed;
use std::alloc::{AllocError, Global};

/// Adds the places of the identifiers of a package that are bound to a declaration.
pub fn add_uses_in_package(
    alloc: Global,
    found: &mut Vec<PlaceKey>,
    of: &Indexed<'_>,
    sought: &Sought<'_>,
) -> Result<(), AllocError>
    requires { IsIndexed of.now }
    ensures { let p = package_of of.now.unit in
        OnOk result (AddsPlaces found.old.items found.new.items (UsesIn p (BindsIn p sought.now.declaration.now (name_value sought.now.name)))) }
{
    let declaration = sought.declaration;
    add_scope_uses(found, of.unit, declaration)?;
    add_exported_uses(found, of.unit, of.index, declaration, sought.name)?;
    add_member_uses(found, of, declaration)?;
    add_own_names(alloc, found, of.unit, of.index, declaration)
}
