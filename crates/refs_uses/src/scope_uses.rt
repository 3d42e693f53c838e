//! Finds the identifiers that the scopes of a package bind to a declaration.
ghost use Rattle.std.specs.Prelude.{◌≡◌, ◌<◌, ◌↔◌, Some, length, IsTrue, OnOk};
ghost use Rattle.go_scope.specs.Bindings.{IsBoundTo};
ghost use Rattle.types_declared.specs.PackageView.{package_of};
ghost use Rattle.refs_binding.specs.Binding.{BindsByScope};
ghost use Rattle.refs_binding.specs.Identifiers.{BeginsAt};
ghost use Rattle.refs_binding.specs.Steps.{AddsPlaces, UsesIn, IsNumberOf};

use go_scope::identifiers::PREDECLARED;
use refs_binding::identifiers::add_identifier;
use refs_binding::{Declaration, PlaceKey};
use std::alloc::AllocError;
use types_declared::Package;

/// Returns the number of a declaration in the table of a package, if the package's scopes can bind an identifier to it.
fn number_in(unit: Package<'_>, declaration: &Declaration) -> Option<usize>
    ensures { IsNumberOf (package_of unit.entry) declaration.now result }
{
    match declaration {
        Declaration::Predeclared(d) => { if *d < PREDECLARED { Some(*d) } else { None } }
        Declaration::Declared(path, d) => {
            if PREDECLARED <= *d && path.path() == unit.path.path() {
                Some(*d)
            } else {
                None
            }
        }
        Declaration::Field(_) | Declaration::Method(_) => None,
    }
}

/// Whether the identifier `u` has the name of the declaration `d`.
fn has_name_of(unit: Package<'_>, u: usize, d: usize) -> bool
    requires { u < length unit.table.now.sites }
    ensures { let p = package_of unit.entry in
        IsTrue result ↔ ((d < p.size) × (p.names u ≡ p.names d)) }
{
    d < unit.table.len() && unit.table.name(u) == unit.table.name(d)
}

/// Whether `found` is this number.
fn is_number(found: Option<usize>, d: usize) -> bool
    ensures { IsTrue result ↔ (found ≡ Some d) }
{
    match found {
        None => false,
        Some(e) => e == d,
    }
}

/// Whether the scopes bind `u` to the declaration with the number `d`. Only identifiers with its name are resolved.
fn is_bound_to(unit: Package<'_>, u: usize, d: usize) -> bool
    requires { u < length unit.table.now.sites }
    ensures { let p = package_of unit.entry in
        IsTrue result ↔ IsBoundTo p.layout p.names u d }
{
    go_scope::laws::bindings_are_unique();
    unit.table.is_well_formed();
    has_name_of(unit, u, d) && is_number(unit.table.binding(u), d)
}

/// Adds the place of `u`, if the scopes bind it to the declaration with the number `d`.
fn add_bound(
    found: &mut Vec<PlaceKey>,
    unit: Package<'_>,
    d: usize,
    u: usize,
) -> Result<(), AllocError>
    requires { u < length unit.table.now.sites }
    ensures { let p = package_of unit.entry in
        OnOk result (AddsPlaces found.old.items found.new.items (λ place. BeginsAt p place.path place.offset u × IsBoundTo p.layout p.names u d)) }
{
    if is_bound_to(unit, u, d) {
        add_identifier(found, unit, u)
    } else {
        Ok(())
    }
}

/// Adds the places of the identifiers that the scopes bind to the declaration with the number `d`.
fn add_all_bound(found: &mut Vec<PlaceKey>, unit: Package<'_>, d: usize) -> Result<(), AllocError>
    ensures { let p = package_of unit.entry in
        OnOk result (AddsPlaces found.old.items found.new.items (UsesIn p (λ u. IsBoundTo p.layout p.names u d))) }
{
    for u in 0..unit.table.len() {
        add_bound(found, unit, d, u)?;
    }
    Ok(())
}

/// Adds the places of the identifiers that the scopes of a package bind to a declaration.
pub fn add_scope_uses(
    found: &mut Vec<PlaceKey>,
    unit: Package<'_>,
    declaration: &Declaration,
) -> Result<(), AllocError>
    ensures { let p = package_of unit.entry in
        OnOk result (AddsPlaces found.old.items found.new.items (UsesIn p (λ u. BindsByScope p u declaration.now))) }
{
    match number_in(unit, declaration) {
        None => Ok(()),
        Some(d) => add_all_bound(found, unit, d),
    }
}
