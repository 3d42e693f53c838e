//! Finds the uses of a declaration in qualified identifiers.
ghost use Rattle.std.specs.Prelude.{◌≡◌, ◌<◌, ◌↔◌, Some, length, IsTrue, OnOk};
ghost use Rattle.go_scope.specs.Named.{name_value};
ghost use Rattle.types_declared.specs.PackageView.{package_of, IsIndexOf};
ghost use Rattle.types_info.specs.QualifiedIdentifiers.{IsQualifiedByPath};
ghost use Rattle.refs_binding.specs.Identifiers.{BeginsAt};
ghost use Rattle.refs_binding.specs.Steps.{AddsPlaces, UsesIn, QualifiesAs};

use refs_binding::identifiers::add_identifier;
use refs_binding::{Declaration, PlaceKey};
use refs_lookup::has_name;
use std::alloc::AllocError;
use types_declared::{Index, Package};
use types_info::qualifying_path;

/// Whether `found` is this path.
fn is_path(found: Option<&[u8]>, path: &[u8]) -> bool
    ensures { IsTrue result ↔ (name_value found.entry ≡ Some path.now) }
{
    match found {
        None => false,
        Some(other) => other == path,
    }
}

/// Whether `u` is `N` in a qualified identifier `q.N`, where `q` names the package of `path` and `N` is `name`.
fn is_package_use(unit: Package<'_>, index: &Index<'_>, path: &[u8], name: &[u8], u: usize) -> bool
    requires index { IsIndexOf (package_of unit) index.now }
    requires in_range { u < length unit.table.now.sites }
    ensures { let p = package_of unit.entry in
        IsTrue result ↔ (IsQualifiedByPath p u path.now × (p.names u ≡ name.now)) }
{
    has_name(unit, u, name) && is_path(qualifying_path(unit, index, u), path)
}

/// Adds the place of `u`, if it is `N` in a qualified identifier `q.N`, where `q` names the package of `path` and `N` is `name`.
fn add_package_use(
    found: &mut Vec<PlaceKey>,
    unit: Package<'_>,
    index: &Index<'_>,
    path: &[u8],
    name: &[u8],
    u: usize,
) -> Result<(), AllocError>
    requires index { IsIndexOf (package_of unit) index.now }
    requires in_range { u < length unit.table.now.sites }
    ensures { let p = package_of unit.entry in
        OnOk result (AddsPlaces found.old.items found.new.items (λ place. BeginsAt p place.path place.offset u × (IsQualifiedByPath p u path.now × (p.names u ≡ name.now)))) }
{
    if is_package_use(unit, index, path, name, u) {
        add_identifier(found, unit, u)
    } else {
        Ok(())
    }
}

/// Adds the place of each `N` in a qualified identifier `q.N`, where `q` names the package of `path` and `N` is `name`.
fn add_package_uses(
    found: &mut Vec<PlaceKey>,
    unit: Package<'_>,
    index: &Index<'_>,
    path: &[u8],
    name: &[u8],
) -> Result<(), AllocError>
    requires { IsIndexOf (package_of unit) index.now }
    ensures { let p = package_of unit.entry in
        OnOk result (AddsPlaces found.old.items found.new.items (UsesIn p (λ u. IsQualifiedByPath p u path.now × (p.names u ≡ name.now)))) }
{
    for u in 0..unit.table.len() {
        add_package_use(found, unit, index, path, name, u)?;
    }
    Ok(())
}

/// Adds the place of each `N` in a qualified identifier `q.N`, where `q` names the declaration's package and `N` is `name`. `name` is the
/// name under which the declaration is exported; without it nothing is added.
pub fn add_exported_uses(
    found: &mut Vec<PlaceKey>,
    unit: Package<'_>,
    index: &Index<'_>,
    declaration: &Declaration,
    name: Option<&[u8]>,
) -> Result<(), AllocError>
    requires { IsIndexOf (package_of unit) index.now }
    ensures { let p = package_of unit.entry in
        OnOk result (AddsPlaces found.old.items found.new.items (UsesIn p (QualifiesAs p declaration.now (name_value name.entry)))) }
{
    match name {
        None => Ok(()),
        Some(name) => match declaration {
            Declaration::Declared(path, _) => {
                add_package_uses(found, unit, index, path.path(), name)
            }
            Declaration::Predeclared(_) | Declaration::Field(_) | Declaration::Method(_) => Ok(()),
        },
    }
}
