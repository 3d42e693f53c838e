//! Whether a name is legal for a declaration.
ghost use Rattle.std.specs.Prelude.{◌≡◌, ◌<◌, ◌↔◌, ◌⊎◌, ℕ, Some, length, slice_index_or, MatchOption, IsTrue, codes};
ghost use Rattle.go_scope.specs.Bindings.{IsPackageLevel, IsImport};
ghost use Rattle.types_declared.specs.Package.{spelled};
ghost use Rattle.types_declared.specs.PackageView.{package_of, IsIndexOf};
ghost use Rattle.refs_binding.specs.declared.declaration.Declaration.TheVariants.{Field, Method};
ghost use Rattle.refs_binding.specs.Indexed.{IsPackageNumbered, IsIndexed};
ghost use Rattle.refs_binding.specs.Uses.{IsCheckedPackage};
ghost use Rattle.refs_binding.specs.Workspaces.{home_path, known_in};
ghost use Rattle.refactor_rename.specs.NewName.{IsReserved};
ghost use Rattle.refactor_rename.specs.Naming.{RefusesFor, RefusesNumber, RefusesNameIn, RefusesName};

use crate::new_name::is_reserved;
use base_files::Refusal;
use go_scope::model::{Block, Position};
use refs_binding::indexed::{Indexed, Numbered};
use refs_binding::{Declaration, field_places, method_places};
use std::alloc::Global;
use types_declared::{Index, Package, is_import};
use types_expr::symbol::Symbol;

/// Whether a declaration is in the package block.
fn is_package_level(unit: Package<'_>, d: usize) -> bool
    requires { d < length unit.table.now.sites }
    ensures { IsTrue result ↔ IsPackageLevel (package_of unit.entry).layout d }
{
    match unit.table.role(d).block() {
        Block::Package => true,
        Block::Universe | Block::File(_) | Block::Inner(_, _, _) => false,
    }
}

/// Refuses the name that a declaration already has, as `Same`.
fn refuse_same(own: &[u8], name: &[u8]) -> Result<(), Refusal>
    ensures { RefusesFor ⊥ ⊥ (own.now ≡ name.now) result }
{
    if own == name {
        Err(Refusal::Same)
    } else {
        Ok(())
    }
}

/// Whether a declaration is `main` in the package block.
fn is_main(unit: Package<'_>, d: usize) -> bool
    requires { d < length unit.table.now.sites }
    ensures { IsTrue result ↔ (IsPackageLevel (package_of unit.entry).layout d × ((package_of unit.entry).names d ≡ codes "main")) }
{
    is_package_level(unit, d) && unit.table.name(d) == b"main".as_slice()
}

/// Whether a declaration is in the package block or is an import.
fn is_top_level(unit: Package<'_>, d: usize) -> bool
    requires { d < length unit.table.now.sites }
    ensures { IsTrue result ↔ (IsPackageLevel (package_of unit.entry).layout d ⊎ IsImport (package_of unit.entry).layout d) }
{
    is_package_level(unit, d) || is_import(unit.table, d)
}

/// Refuses a name for a declaration of a package's scopes.
fn refuse_in_scopes(unit: Package<'_>, d: usize, name: &[u8]) -> Result<(), Refusal>
    requires { d < length unit.table.now.sites }
    ensures { let p = package_of unit.entry in
        RefusesFor (IsPackageLevel p.layout d × (p.names d ≡ codes "main")) ((IsPackageLevel p.layout d ⊎ IsImport p.layout d) × IsReserved name.now) (p.names d ≡ name.now) result }
{
    if is_main(unit, d) {
        return Err(Refusal::NotRenamable);
    }
    if is_top_level(unit, d) && is_reserved(name) {
        return Err(Refusal::BadName);
    }
    refuse_same(unit.table.name(d), name)
}

/// Refuses a name for the declaration of a number. Refuses none where the package has no such declaration.
fn refuse_number(unit: Package<'_>, d: usize, name: &[u8]) -> Result<(), Refusal>
    ensures { RefusesNumber (package_of unit.entry) d name.now result }
{
    if d < unit.table.len() {
        refuse_in_scopes(unit, d, name)
    } else {
        Ok(())
    }
}

/// Refuses the name that is the spelling at a position of a package.
fn refuse_at(unit: Package<'_>, at: Option<Position>, name: &[u8]) -> Result<(), Refusal>
    ensures { MatchOption at (RefusesFor ⊥ ⊥ ⊥ result) (λ a. RefusesFor ⊥ ⊥ (spelled (package_of unit.entry) a.file a.index ≡ name.now) result) }
{
    match at {
        None => Ok(()),
        Some(at) => refuse_same(unit.spelling(at.file, at.index), name),
    }
}

/// The position that the list has for a rank.
fn place_at(places: &[Option<Position>], rank: usize) -> Option<Position>
    ensures { result ≡ slice_index_or places.now rank None }
{
    *places.get(rank)?
}

/// Refuses the name that a field of a package already has.
fn refuse_field(
    alloc: Global,
    unit: Package<'_>,
    index: &Index<'_>,
    symbol: &Symbol,
    name: &[u8],
) -> Result<(), Refusal>
    requires { IsIndexOf (package_of unit) index.now }
    ensures { RefusesNameIn (package_of unit.entry) (Field symbol.now) name.now result }
{
    let places = field_places(alloc, unit, index)?;
    refuse_at(unit, place_at(&places, symbol.rank), name)
}

/// Refuses the name that a method of a package already has.
fn refuse_method(
    alloc: Global,
    unit: Package<'_>,
    index: &Index<'_>,
    symbol: &Symbol,
    name: &[u8],
) -> Result<(), Refusal>
    requires { IsIndexOf (package_of unit) index.now }
    ensures { RefusesNameIn (package_of unit.entry) (Method symbol.now) name.now result }
{
    let places = method_places(alloc, unit, index)?;
    refuse_at(unit, place_at(&places, symbol.rank), name)
}

/// Refuses a name for a declaration of a package.
fn refuse_in_unit(
    alloc: Global,
    unit: Package<'_>,
    index: &Index<'_>,
    declaration: &Declaration,
    name: &[u8],
) -> Result<(), Refusal>
    requires { IsIndexOf (package_of unit) index.now }
    ensures { RefusesNameIn (package_of unit.entry) declaration.now name.now result }
{
    match declaration {
        Declaration::Predeclared(_) => Ok(()),
        Declaration::Declared(_, d) => refuse_number(unit, *d, name),
        Declaration::Field(symbol) => refuse_field(alloc, unit, index, symbol, name),
        Declaration::Method(symbol) => refuse_method(alloc, unit, index, symbol, name),
    }
}

/// Refuses a name that is not legal for a declaration of a package, or that the declaration already has. The reasons, in order:
/// `NotRenamable`, `BadName`, `Same`. The package is given, and not read again.
pub fn refuse_name(
    alloc: Global,
    at: Numbered<'_>,
    of: &Indexed<'_>,
    declaration: &Declaration,
    name: &[u8],
) -> Result<(), Refusal>
    requires unit { IsPackageNumbered at (package_of of.now.unit) }
    requires indexed { IsIndexed of.now }
    requires home { home_path declaration.now ≡ Some (package_of of.now.unit).path }
    ensures { RefusesName (IsCheckedPackage at.entry.workspace.now.graph (known_in at.entry.workspace.now.findings)) declaration.now name.now result }
{
    refuse_in_unit(alloc, of.unit, of.index, declaration, name)
}
