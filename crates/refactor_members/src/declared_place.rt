//! The places of declarations, and of the identifiers that declare fields and methods. The package of one declaration is read.
ghost use Rattle.std.specs.Prelude.{◌≡◌, IfOk, Some};
ghost use Rattle.types_declared.specs.Package.{Package as Checked};
ghost use Rattle.types_declared.specs.PackageView.{package_of, IsIndexOf};
ghost use Rattle.refs_binding.specs.declared.declaration.Declaration.TheVariants.{Field, Method};
ghost use Rattle.refs_binding.specs.DeclaringPlaces.{HasDeclarationAt, IsDeclaredAt};
ghost use Rattle.refs_binding.specs.Indexed.{IsPackageNumber, IsPackageNumbered};
ghost use Rattle.refs_binding.specs.Packages.{IsTableAs};
ghost use Rattle.refs_binding.specs.Uses.{IsCheckedPackage};
ghost use Rattle.refs_binding.specs.Workspaces.{known_in, home_path};
ghost use Rattle.refs_places.specs.DeclaredPlaces.{AreDeclaredIn, IsChoice};
ghost use Rattle.refactor_conflict.specs.Conflicts.{IsCapturer};
ghost use Rattle.refactor_members.specs.Judging.{IsNamedAt};

use crate::beginning::found_beginning;
use base_files::Place;
use go_scope::table::ScopeTable;
use refactor_conflict::Capturer;
use refs_binding::indexed::{Numbered, unit_of};
use refs_binding::own_names::place_of;
use refs_binding::{
    Declaration, FaultlessWorkspace, field_places, method_places, read_table, seen_by,
};
use refs_places::declared_places::{DeclaredPlaces, package_path, package_places};
use std::alloc::{AllocError, Global};
use types_declared::{ExportTable, Index, Package};

/// The place that a package's places have for a declaration.
fn listed_place(
    places: &DeclaredPlaces,
    declaration: &Declaration,
) -> Result<Option<Place>, AllocError>
    ensures { IfOk result (λ found. (p : Checked) → AreDeclaredIn p places.now → IsChoice (HasDeclarationAt p declaration.now) found) }
{
    match places.at(declaration) {
        None => Ok(None),
        Some(place) => Ok(Some(Place {
            path: place.path.clone()?,
            offset: place.offset,
        })),
    }
}

/// The place of a declaration of a package.
fn place_in(
    alloc: Global,
    unit: Package<'_>,
    declaration: &Declaration,
) -> Result<Option<Place>, AllocError>
    ensures { IfOk result (IsChoice (HasDeclarationAt (package_of unit.entry) declaration.now)) }
{
    let places = package_places(alloc, unit)?;
    listed_place(&places, declaration)
}

/// The place of a declaration of the package of a number, by the package's table and by what it sees of others.
fn place_by(
    alloc: Global,
    at: Numbered<'_>,
    seen: &ExportTable,
    table: &ScopeTable<'_>,
    declaration: &Declaration,
) -> Result<Option<Place>, AllocError>
    requires numbered { IsPackageNumber at }
    requires table { IsTableAs at.workspace.now.graph (known_in at.workspace.now.findings) at.number table.now seen.now }
    ensures { IfOk result (λ found. (p : Checked) → IsPackageNumbered at.entry p → IsChoice (HasDeclarationAt p declaration.now) found) }
{
    place_in(alloc, unit_of(at, seen, table), declaration)
}

/// The place of a declaration of the package of a number.
fn place_at(
    alloc: Global,
    at: Numbered<'_>,
    declaration: &Declaration,
) -> Result<Option<Place>, AllocError>
    requires { IsPackageNumber at }
    ensures { IfOk result (λ found. (p : Checked) → IsPackageNumbered at.entry p → IsChoice (HasDeclarationAt p declaration.now) found) }
{
    let seen = seen_by(alloc, at.workspace, at.number)?;
    let table = read_table(alloc, at.workspace, &seen, at.number)?;
    place_by(alloc, at, &seen, &table, declaration)
}

/// The place of a declaration, or `None` where it has none.
pub fn declared_place(
    alloc: Global,
    workspace: &FaultlessWorkspace<'_>,
    declaration: &Declaration,
) -> Result<Option<Place>, AllocError>
    ensures { IfOk result (IsChoice (IsDeclaredAt (IsCheckedPackage workspace.now.graph (known_in workspace.now.findings)) declaration.now)) }
{
    workspace.has_no_faults();
    match package_path(declaration) {
        None => Ok(None),
        Some(path) => match workspace.number_of(path.path()) {
            None => Ok(None),
            Some(number) => place_at(alloc, Numbered { workspace, number }, declaration),
        },
    }
}

/// The capturer that names a declaration.
pub(crate) fn capturer(
    alloc: Global,
    workspace: &FaultlessWorkspace<'_>,
    declaration: &Declaration,
) -> Result<Capturer, AllocError>
    ensures { IfOk result (IsCapturer (IsCheckedPackage workspace.now.graph (known_in workspace.now.findings)) declaration.now) }
{
    match declared_place(alloc, workspace, declaration)? {
        None => Ok(Capturer::Universe),
        Some(place) => Ok(Capturer::At(place)),
    }
}

/// The place of the identifier that declares the field of a rank.
fn field_name_place(
    alloc: Global,
    unit: Package<'_>,
    index: &Index<'_>,
    rank: usize,
) -> Result<Option<Place>, AllocError>
    requires { IsIndexOf (package_of unit) index.now }
    ensures { let p = package_of unit.entry in
        IfOk result (IsChoice (IsNamedAt p (Field (record { «package» = p.path; rank = rank })))) }
{
    let places = field_places(alloc, unit, index)?;
    found_beginning(unit, index, place_of(&places, rank))
}

/// The place of the identifier that declares the method of a rank.
fn method_name_place(
    alloc: Global,
    unit: Package<'_>,
    index: &Index<'_>,
    rank: usize,
) -> Result<Option<Place>, AllocError>
    requires { IsIndexOf (package_of unit) index.now }
    ensures { let p = package_of unit.entry in
        IfOk result (IsChoice (IsNamedAt p (Method (record { «package» = p.path; rank = rank })))) }
{
    let places = method_places(alloc, unit, index)?;
    found_beginning(unit, index, place_of(&places, rank))
}

/// The place of the identifier that declares a field or method of a package, by the package's index.
fn name_place_by_index(
    alloc: Global,
    unit: Package<'_>,
    index: &Index<'_>,
    member: &Declaration,
) -> Result<Option<Place>, AllocError>
    requires { IsIndexOf (package_of unit) index.now }
    ensures { let p = package_of unit.entry in
        IfOk result (λ found. home_path member.now ≡ Some p.path → IsChoice (IsNamedAt p member.now) found) }
{
    match member {
        Declaration::Predeclared(_) | Declaration::Declared(_, _) => Ok(None),
        Declaration::Field(symbol) => field_name_place(alloc, unit, index, symbol.rank),
        Declaration::Method(symbol) => method_name_place(alloc, unit, index, symbol.rank),
    }
}

/// The place of the identifier that declares a field or method of a package.
fn name_place_in(
    alloc: Global,
    unit: Package<'_>,
    member: &Declaration,
) -> Result<Option<Place>, AllocError>
    ensures { let p = package_of unit.entry in
        IfOk result (λ found. home_path member.now ≡ Some p.path → IsChoice (IsNamedAt p member.now) found) }
{
    let index = Index::of(alloc, unit)?;
    name_place_by_index(alloc, unit, &index, member)
}

/// The place of the identifier that declares a field or method of the package of a number. The package's table and what it sees of others
/// are given.
fn name_place_by(
    alloc: Global,
    at: Numbered<'_>,
    seen: &ExportTable,
    table: &ScopeTable<'_>,
    member: &Declaration,
) -> Result<Option<Place>, AllocError>
    requires numbered { IsPackageNumber at }
    requires table { IsTableAs at.workspace.now.graph (known_in at.workspace.now.findings) at.number table.now seen.now }
    ensures { IfOk result (λ found. (p : Checked) → IsPackageNumbered at.entry p → home_path member.now ≡ Some p.path → IsChoice (IsNamedAt p member.now) found) }
{
    name_place_in(alloc, unit_of(at, seen, table), member)
}

/// The place of the identifier that declares a field or method of the package of a number.
pub(crate) fn name_place(
    alloc: Global,
    at: Numbered<'_>,
    member: &Declaration,
) -> Result<Option<Place>, AllocError>
    requires { IsPackageNumber at }
    ensures { IfOk result (λ found. (p : Checked) → IsPackageNumbered at.entry p → home_path member.now ≡ Some p.path → IsChoice (IsNamedAt p member.now) found) }
{
    let seen = seen_by(alloc, at.workspace, at.number)?;
    let table = read_table(alloc, at.workspace, &seen, at.number)?;
    name_place_by(alloc, at, &seen, &table, member)
}
