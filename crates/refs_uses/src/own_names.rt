//! Finds the declaring identifiers of fields and methods.
ghost use Rattle.std.specs.Prelude.{◌≡◌, ◌↔◌, Some, None, slice_index_or, IsTrue, IfOk, OnOk};
ghost use Rattle.types_declared.specs.PackageView.{package_of, IsIndexOf};
ghost use Rattle.refs_binding.specs.declared.declaration.Declaration.TheVariants.{Field, Method};
ghost use Rattle.refs_binding.specs.Binding.{DeclaresMember};
ghost use Rattle.refs_binding.specs.Steps.{AddsPlaces, UsesIn, AtFound};
ghost use Rattle.refs_uses.specs.SoughtMembers.{AreNamePlaces, IsListedName, IsPlaceOfSome};

use go_scope::model::Position;
use refs_binding::identifiers::add_token;
use refs_binding::own_names::{place_of, symbol};
use refs_binding::{Declaration, PlaceKey, field_places, method_places};
use std::alloc::{AllocError, Global};
use types_declared::{Index, Package};
use types_expr::symbol::{SharedPath, Symbol};

/// Adds the place of the identifier at the position that a list has for a rank.
fn add_named(
    found: &mut Vec<PlaceKey>,
    unit: Package<'_>,
    index: &Index<'_>,
    places: &[Option<Position>],
    rank: usize,
) -> Result<(), AllocError>
    requires { IsIndexOf (package_of unit) index.now }
    ensures { OnOk result (AddsPlaces found.old.items found.new.items (AtFound (package_of unit.entry) (slice_index_or places.now rank None))) }
{
    match place_of(places, rank) {
        None => Ok(()),
        Some(at) => add_token(found, unit, index, at),
    }
}

/// Whether a package has this path.
pub(crate) fn is_own(unit: Package<'_>, path: &SharedPath) -> bool
    ensures { IsTrue result ↔ (path.now ≡ unit.entry.path.now) }
{
    path.path() == unit.path.path()
}

/// Adds the place of the declaring identifier of a field.
fn add_own_field(
    alloc: Global,
    found: &mut Vec<PlaceKey>,
    unit: Package<'_>,
    index: &Index<'_>,
    symbol: &Symbol,
) -> Result<(), AllocError>
    requires { IsIndexOf (package_of unit) index.now }
    ensures { let p = package_of unit.entry in
        OnOk result (AddsPlaces found.old.items found.new.items (UsesIn p (λ u. DeclaresMember p u (Field symbol.now)))) }
{
    if is_own(unit, &symbol.package) {
        let places = field_places(alloc, unit, index)?;
        add_named(found, unit, index, &places, symbol.rank)
    } else {
        Ok(())
    }
}

/// Adds the place of the declaring identifier of a method.
fn add_own_method(
    alloc: Global,
    found: &mut Vec<PlaceKey>,
    unit: Package<'_>,
    index: &Index<'_>,
    symbol: &Symbol,
) -> Result<(), AllocError>
    requires { IsIndexOf (package_of unit) index.now }
    ensures { let p = package_of unit.entry in
        OnOk result (AddsPlaces found.old.items found.new.items (UsesIn p (λ u. DeclaresMember p u (Method symbol.now)))) }
{
    if is_own(unit, &symbol.package) {
        let places = method_places(alloc, unit, index)?;
        add_named(found, unit, index, &places, symbol.rank)
    } else {
        Ok(())
    }
}

/// Adds the place of the declaring identifier of a field or method, if this package declares it.
pub fn add_own_names(
    alloc: Global,
    found: &mut Vec<PlaceKey>,
    unit: Package<'_>,
    index: &Index<'_>,
    declaration: &Declaration,
) -> Result<(), AllocError>
    requires { IsIndexOf (package_of unit) index.now }
    ensures { let p = package_of unit.entry in
        OnOk result (AddsPlaces found.old.items found.new.items (UsesIn p (λ u. DeclaresMember p u declaration.now))) }
{
    match declaration {
        Declaration::Predeclared(_) | Declaration::Declared(_, _) => Ok(()),
        Declaration::Field(symbol) => add_own_field(alloc, found, unit, index, symbol),
        Declaration::Method(symbol) => add_own_method(alloc, found, unit, index, symbol),
    }
}

/// The places of the names of a package's fields and methods, by their ranks.
#[derive(Drop)]
pub(crate) struct NamePlaces {
    fields: Vec<Option<Position>>,
    methods: Vec<Option<Position>>,
}

/// Finds the places of the names of all fields and methods of a package.
fn name_places(
    alloc: Global,
    unit: Package<'_>,
    index: &Index<'_>,
) -> Result<NamePlaces, AllocError>
    requires { IsIndexOf (package_of unit) index.now }
    ensures { IfOk result (AreNamePlaces (package_of unit.entry)) }
{
    let fields = field_places(alloc, unit, index)?;
    let methods = method_places(alloc, unit, index)?;
    Ok(NamePlaces { fields, methods })
}

/// Adds the place of the identifier that a list has for the rank of a symbol, if the symbol is one of this package.
fn add_if_own(
    found: &mut Vec<PlaceKey>,
    unit: Package<'_>,
    index: &Index<'_>,
    places: &[Option<Position>],
    symbol: &Symbol,
) -> Result<(), AllocError>
    requires { IsIndexOf (package_of unit) index.now }
    ensures { OnOk result (AddsPlaces found.old.items found.new.items (IsListedName (package_of unit.entry) places.now symbol.now)) }
{
    if is_own(unit, &symbol.package) {
        add_named(found, unit, index, places, symbol.rank)
    } else {
        Ok(())
    }
}

/// Adds the place of the declaring identifier of a field or method, if this package declares it. The places of its names are known.
fn add_listed_name(
    found: &mut Vec<PlaceKey>,
    unit: Package<'_>,
    index: &Index<'_>,
    places: &NamePlaces,
    declaration: &Declaration,
) -> Result<(), AllocError>
    requires index { IsIndexOf (package_of unit) index.now }
    requires places { AreNamePlaces (package_of unit) places.now }
    ensures { let p = package_of unit.entry in
        OnOk result (AddsPlaces found.old.items found.new.items (UsesIn p (λ u. DeclaresMember p u declaration.now))) }
{
    match declaration {
        Declaration::Predeclared(_) | Declaration::Declared(_, _) => Ok(()),
        Declaration::Field(symbol) => add_if_own(found, unit, index, &places.fields, symbol),
        Declaration::Method(symbol) => add_if_own(found, unit, index, &places.methods, symbol),
    }
}

/// Adds the places of the declaring identifiers of those fields and methods of a list that this package declares. The places of its names
/// are known.
fn add_listed_names(
    found: &mut Vec<PlaceKey>,
    unit: Package<'_>,
    index: &Index<'_>,
    places: &NamePlaces,
    set: &[Declaration],
) -> Result<(), AllocError>
    requires index { IsIndexOf (package_of unit) index.now }
    requires places { AreNamePlaces (package_of unit) places.now }
    ensures { let p = package_of unit.entry in
        OnOk result (AddsPlaces found.old.items found.new.items (IsPlaceOfSome set.now (λ d. UsesIn p (λ u. DeclaresMember p u d)))) }
{
    for declaration in set {
        add_listed_name(found, unit, index, places, declaration)?;
    }
    Ok(())
}

/// Adds the places of the declaring identifiers of those fields and methods of a list that this package declares.
pub(crate) fn add_names_of_each(
    alloc: Global,
    found: &mut Vec<PlaceKey>,
    unit: Package<'_>,
    index: &Index<'_>,
    set: &[Declaration],
) -> Result<(), AllocError>
    requires { IsIndexOf (package_of unit) index.now }
    ensures { let p = package_of unit.entry in
        OnOk result (AddsPlaces found.old.items found.new.items (IsPlaceOfSome set.now (λ d. UsesIn p (λ u. DeclaresMember p u d)))) }
{
    let places = name_places(alloc, unit, index)?;
    add_listed_names(found, unit, index, &places, set)
}
