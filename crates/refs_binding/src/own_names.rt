//! Finds the positions of the names of fields and methods that a package declares.
ghost use Rattle.std.specs.Prelude.{◌≡◌, Some, None, slice_index_or, if◌then◌else◌, IfOk};
ghost use Rattle.types_members.specs.MembersView.{AreCountingMethods};
ghost use Rattle.types_declared.specs.PackageView.{package_of, IsIndexOf};
ghost use Rattle.refs_binding.specs.Binding.{IsFieldAt, IsMethodAt};
ghost use Rattle.refs_binding.specs.Steps.{ArePlaces};

use go_scope::model::Position;
use std::alloc::{AllocError, Global};
use types_declared::{Index, Package};
use types_expr::symbol::Symbol;
use types_members::{counting_fields, counting_methods, fields, owners, underlying_types};

/// The position, if the mark is set.
fn marked(mark: bool, at: Position) -> Option<Position>
    ensures { result ≡ (if mark then Some at else None) }
{
    if mark { Some(at) } else { None }
}

/// Returns the position of each field's name, by the field's rank, or `None` for a field that doesn't count.
pub fn field_places(
    alloc: Global,
    unit: Package<'_>,
    index: &Index<'_>,
) -> Result<Vec<Option<Position>>, AllocError>
    requires { IsIndexOf (package_of unit) index.now }
    ensures { IfOk result (λ places. ArePlaces (IsFieldAt (package_of unit.entry)) places.items) }
{
    let fields = fields(alloc, unit, index)?;
    let marks = counting_fields(alloc, unit, &fields)?;
    let mut places = Vec::new(alloc);
    for rank in 0..fields.len() {
        let field = fields[rank];
        let at = Position {
            file: field.file,
            index: field.name,
        };
        places.push(marked(marks[rank], at))?;
    }
    Ok(places)
}

/// Marks the functions, by rank, that are methods that count.
fn method_marks(
    alloc: Global,
    unit: Package<'_>,
    index: &Index<'_>,
) -> Result<Vec<bool>, AllocError>
    requires { IsIndexOf (package_of unit) index.now }
    ensures { IfOk result (λ marks. AreCountingMethods (package_of unit.entry) marks.items) }
{
    let fields = fields(alloc, unit, index)?;
    let owners = owners(alloc, unit, index)?;
    let underlying = underlying_types(alloc, unit, index)?;
    counting_methods(alloc, unit, index, &fields, &owners, &underlying)
}

/// Returns the position of each method's name, by the function's rank, or `None` for a function that is no method that counts.
pub fn method_places(
    alloc: Global,
    unit: Package<'_>,
    index: &Index<'_>,
) -> Result<Vec<Option<Position>>, AllocError>
    requires { IsIndexOf (package_of unit) index.now }
    ensures { IfOk result (λ places. ArePlaces (IsMethodAt (package_of unit.entry)) places.items) }
{
    let marks = method_marks(alloc, unit, index)?;
    let functions = &index.declared.functions;
    let mut places = Vec::new(alloc);
    for rank in 0..functions.len() {
        let function = functions[rank];
        let at = Position {
            file: function.file,
            index: function.func.name as usize,
        };
        places.push(marked(marks[rank], at))?;
    }
    Ok(places)
}

/// Returns the position that a list has for a rank.
pub fn place_of(places: &[Option<Position>], rank: usize) -> Option<Position>
    ensures { result ≡ slice_index_or places.now rank None }
{
    *places.get(rank)?
}

/// Returns the symbol of a field or method of a package.
pub fn symbol(unit: Package<'_>, rank: usize) -> Result<Symbol, AllocError>
    ensures { IfOk result (λ s. (s.package ≡ unit.entry.path.now) × (s.rank ≡ rank)) }
{
    let package = unit.path.clone()?;
    Ok(Symbol { package, rank })
}
