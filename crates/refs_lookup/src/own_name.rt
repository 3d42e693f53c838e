//! Finds the field or method whose declaring identifier an identifier is.
ghost use Rattle.std.specs.Prelude.{ℕ, ◌≡◌, ◌<◌, ◌↔◌, Some, None, length, slice_index_or, IsTrue, IfOk, MatchOption};
ghost use Rattle.go_scope.specs.Bindings.{IsIdentifier};
ghost use Rattle.types_declared.specs.PackageView.{package_of, IsIndexOf};
ghost use Rattle.refs_binding.specs.Binding.{DeclaresMember};
ghost use Rattle.refs_binding.specs.Steps.{IsDeclarationResult, DeclaresField, DeclaresMethod};

use go_scope::model::Position;
use refs_binding::own_names::{place_of, symbol};
use refs_binding::{Declaration, field_places, method_places};
use std::alloc::{AllocError, Global};
use types_declared::{Index, Package};

/// Whether `found` is this position.
fn is_place(found: Option<Position>, at: Position) -> bool
    ensures { IsTrue result ↔ (found ≡ Some at) }
{
    match found {
        None => false,
        Some(place) => place.file == at.file && place.index == at.index,
    }
}

/// Returns the rank for which a list has this position.
fn rank_at(places: &[Option<Position>], at: Position) -> Option<usize>
    ensures { MatchOption result ((rank : ℕ) → slice_index_or places.now rank None ≡ Some at → ⊥) (λ rank. slice_index_or places.now rank None ≡ Some at) }
{
    for rank in 0..places.len() {
        if is_place(place_of(places, rank), at) {
            return Some(rank);
        }
    }
    None
}

/// Returns the field whose declaring identifier `u` is.
fn own_field(
    alloc: Global,
    unit: Package<'_>,
    index: &Index<'_>,
    u: usize,
) -> Result<Option<Declaration>, AllocError>
    requires index { IsIndexOf (package_of unit) index.now }
    requires in_range { u < length unit.table.now.sites }
    requires stands { IsIdentifier (package_of unit).layout u }
    ensures { IfOk result (IsDeclarationResult (DeclaresField (package_of unit.entry) u)) }
{
    let places = field_places(alloc, unit, index)?;
    match rank_at(&places, unit.table.place(u)) {
        None => Ok(None),
        Some(rank) => Ok(Some(Declaration::Field(symbol(unit, rank)?))),
    }
}

/// Returns the method whose declaring identifier `u` is.
fn own_method(
    alloc: Global,
    unit: Package<'_>,
    index: &Index<'_>,
    u: usize,
) -> Result<Option<Declaration>, AllocError>
    requires index { IsIndexOf (package_of unit) index.now }
    requires in_range { u < length unit.table.now.sites }
    requires stands { IsIdentifier (package_of unit).layout u }
    ensures { IfOk result (IsDeclarationResult (DeclaresMethod (package_of unit.entry) u)) }
{
    let places = method_places(alloc, unit, index)?;
    match rank_at(&places, unit.table.place(u)) {
        None => Ok(None),
        Some(rank) => Ok(Some(Declaration::Method(symbol(unit, rank)?))),
    }
}

/// Returns the field or method whose declaring identifier `u` is.
pub fn declaration_by_name(
    alloc: Global,
    unit: Package<'_>,
    index: &Index<'_>,
    u: usize,
) -> Result<Option<Declaration>, AllocError>
    requires index { IsIndexOf (package_of unit) index.now }
    requires in_range { u < length unit.table.now.sites }
    ensures { IfOk result (IsDeclarationResult (DeclaresMember (package_of unit.entry) u)) }
{
    if unit.table.role(u).is_implied() {
        return Ok(None);
    }
    match own_field(alloc, unit, index, u)? {
        None => own_method(alloc, unit, index, u),
        Some(declaration) => Ok(Some(declaration)),
    }
}
