//! The places of the declarations of a workspace without faults.
ghost use Rattle.std.specs.Prelude.{◌≡◌, ◌<◌, ◌↔◌, None, Some, length, map, slice_get, slice_index_or, Contains, IsTrue, IfOk, MatchOption};
ghost use Rattle.std.specs.Option.{option_copied};
ghost use Rattle.base_files.specs.Packages.{package_paths};
ghost use Rattle.go_ast.specs.SourceFile.{source_of};
ghost use Rattle.go_scope.specs.Bindings.{Counts};
ghost use Rattle.go_scope.specs.Packages.{layout_in, names_in};
ghost use Rattle.types_declared.specs.Package.{Package as Checked};
ghost use Rattle.types_declared.specs.PackageView.{package_of, IsIndexOf};
ghost use Rattle.base_files.specs.declared.place.Place.{Place as At};
ghost use Rattle.workspace_check.specs.Verdicts.{Verdicts};
ghost use Rattle.refs_binding.specs.Steps.{ArePlaces};
ghost use Rattle.refs_binding.specs.Uses.{IsCheckedPackage};
ghost use Rattle.refs_binding.specs.Packages.{ArePackagesRead};
ghost use Rattle.refs_binding.specs.Workspaces.{known_in};
ghost use Rattle.refs_binding.specs.DeclaringPlaces.{InPackage, IsScopeAt, HasDeclarationAt, IsDeclaredAt};
ghost use Rattle.refs_places.specs.Outside.{declaring_path};
ghost use Rattle.refs_places.specs.DeclaredPlaces.{IsChoice, IsChoiceIn, TokenBeginsAt, ArePlacesOf, AreDeclaredIn, AreDeclaredAt, AreAllPlaces, IsPlaceIn};

use crate::places::place_of;
use base_files::Place;
use go_ast::FileTree;
use go_scope::identifiers::PREDECLARED;
use go_scope::model::Position;
use go_scope::table::ScopeTable;
use refs_binding::{Declaration, FaultlessWorkspace, Packages, field_places, method_places};
use std::alloc::{AllocError, Global};
use types_declared::{Index, Package, literal_of};
use types_expr::symbol::SharedPath;

/// The places of the declarations of a package that count: those of its scopes by number, and fields and methods by rank.
#[derive(Drop)]
pub struct DeclaredPlaces {
    pub names: Vec<Option<Place>>,
    pub fields: Vec<Option<Place>>,
    pub methods: Vec<Option<Place>>,
}

/// Whether `d` is a declaration that counts.
fn counts(table: &ScopeTable<'_>, d: usize) -> bool
    requires { d < length table.now.sites }
    ensures { IsTrue result ↔ Counts (layout_in table.now) (names_in table.now) d }
{
    if !table.declares(d) {
        return false;
    }
    match table.binding(d) {
        None => false,
        Some(_) => true,
    }
}

/// Returns the position of a declaration of a package's own scopes. An import is at its path literal.
fn position_in(unit: Package<'_>, d: usize) -> Option<Position>
    requires { d < length unit.table.now.sites }
    ensures { IsChoice (IsScopeAt (package_of unit.entry) d) result }
{
    if d < PREDECLARED {
        return None;
    }
    if counts(unit.table, d) {
        Some(unit.table.place(literal_of(unit.table, d)))
    } else {
        None
    }
}

/// Returns the position of each declaration of a package's own scopes, by number.
fn name_places(alloc: Global, unit: Package<'_>) -> Result<Vec<Option<Position>>, AllocError>
    ensures { IfOk result (λ places. ArePlaces (IsScopeAt (package_of unit.entry)) places.items) }
{
    let mut places = Vec::new(alloc);
    for d in 0..unit.table.len() {
        places.push(position_in(unit, d))?;
    }
    Ok(places)
}

/// Returns the place of the token at a position, if there is a position.
fn found_place(files: &[FileTree], at: Option<Position>) -> Result<Option<Place>, AllocError>
    ensures { IfOk result (IsChoice (TokenBeginsAt (map source_of files.now) at)) }
{
    match at {
        None => Ok(None),
        Some(at) => place_of(files, at),
    }
}

/// Returns the places of the tokens at some positions.
fn places_of(
    alloc: Global,
    files: &[FileTree],
    positions: &[Option<Position>],
) -> Result<Vec<Option<Place>>, AllocError>
    ensures { IfOk result (λ places. ArePlacesOf (map source_of files.now) positions.now places.items) }
{
    let mut places = Vec::new(alloc);
    for at in positions {
        places.push(found_place(files, *at)?)?;
    }
    Ok(places)
}

/// Returns the places of the declarations of a package, by its index.
pub fn indexed_places(
    alloc: Global,
    unit: Package<'_>,
    index: &Index<'_>,
) -> Result<DeclaredPlaces, AllocError>
    requires { IsIndexOf (package_of unit) index.now }
    ensures { IfOk result (AreDeclaredIn (package_of unit.entry)) }
{
    let names = name_places(alloc, unit)?;
    let fields = field_places(alloc, unit, index)?;
    let methods = method_places(alloc, unit, index)?;
    Ok(DeclaredPlaces {
        names: places_of(alloc, unit.files, &names)?,
        fields: places_of(alloc, unit.files, &fields)?,
        methods: places_of(alloc, unit.files, &methods)?,
    })
}

/// Indexes a package, and returns the places of its declarations.
pub fn package_places(alloc: Global, unit: Package<'_>) -> Result<DeclaredPlaces, AllocError>
    ensures { IfOk result (AreDeclaredIn (package_of unit.entry)) }
{
    let index = Index::of(alloc, unit)?;
    indexed_places(alloc, unit, &index)
}

/// Returns the places of the declarations of the package of a number.
fn places_at(
    alloc: Global,
    packages: &Packages<'_>,
    number: usize,
) -> Result<DeclaredPlaces, AllocError>
    requires in_range { number < length (package_paths packages.now.workspace.now.graph) }
    requires read { ArePackagesRead packages.now }
    ensures { IfOk result (AreDeclaredAt packages.now.workspace.now.graph (known_in packages.now.workspace.now.findings) number) }
{
    let unit = packages.unit(number);
    package_places(alloc, unit)
}

/// Returns the places of the declarations of all packages, by package number.
pub fn declared_places(
    alloc: Global,
    packages: &Packages<'_>,
) -> Result<Vec<DeclaredPlaces>, AllocError>
    requires { ArePackagesRead packages.now }
    ensures { IfOk result (λ all. AreAllPlaces packages.now.workspace.now.graph (known_in packages.now.workspace.now.findings) all.items) }
{
    let mut all = Vec::new(alloc);
    for number in 0..packages.workspace.len() {
        all.push(places_at(alloc, packages, number)?)?;
    }
    Ok(all)
}

/// Returns the place that a list has at an index.
fn listed(places: &[Option<Place>], number: usize) -> Option<&Place>
    ensures { option_copied result ≡ slice_index_or places.now number None }
{
    match places.get(number) {
        None => None,
        Some(place) => place.as_ref(),
    }
}

impl DeclaredPlaces {
    /// Returns the place of a declaration of the package, or `None` if it is predeclared.
    pub fn at(&self, declaration: &Declaration) -> Option<&Place>
        ensures { (p : Checked) → AreDeclaredIn p self.now → IsPlaceIn p declaration.now result }
    {
        match declaration {
            Declaration::Predeclared(_) => None,
            Declaration::Declared(_, d) => listed(&self.names, *d),
            Declaration::Field(symbol) => listed(&self.fields, symbol.rank),
            Declaration::Method(symbol) => listed(&self.methods, symbol.rank),
        }
    }
}

/// Returns the path of the package of a declaration, or `None` if it is predeclared.
pub fn package_path(declaration: &Declaration) -> Option<&SharedPath>
    ensures { option_copied result ≡ declaring_path declaration.now }
{
    match declaration {
        Declaration::Predeclared(_) => None,
        Declaration::Declared(path, _) => Some(path),
        Declaration::Field(symbol) => Some(&symbol.package),
        Declaration::Method(symbol) => Some(&symbol.package),
    }
}

/// Whether the package of a number has this path.
fn has_path(workspace: &FaultlessWorkspace<'_>, number: usize, path: &[u8]) -> bool
    ensures { IsTrue result → slice_get (package_paths workspace.now.graph) number ≡ Some path.now }
{
    number < workspace.len() && workspace.graph.package(number).path.as_slice() == path
}

/// Returns the number of the package of a path. The search starts at `near`, the number found last.
fn number_by_hint(
    workspace: &FaultlessWorkspace<'_>,
    near: &mut usize,
    path: &[u8],
) -> Option<usize>
    ensures { MatchOption result (Contains (package_paths workspace.now.graph) path.now → ⊥) (λ number. slice_get (package_paths workspace.now.graph) number ≡ Some path.now) }
{
    if has_path(workspace, *near, path) {
        return Some(*near);
    }
    let found = workspace.number_of(path);
    *near = found.unwrap_or(0);
    found
}

/// Returns the place of a declaration of the package of a path.
fn declared_under<'a>(
    workspace: &FaultlessWorkspace<'_>,
    all: &'a [DeclaredPlaces],
    near: &mut usize,
    path: &SharedPath,
    declaration: &Declaration,
) -> Option<&'a Place>
    ensures { (known : Verdicts) → AreAllPlaces workspace.now.graph known all.now → IsChoiceIn (λ (place : At). InPackage (IsCheckedPackage workspace.now.graph known) path.now (λ p. HasDeclarationAt p declaration.now place)) result }
{
    match number_by_hint(workspace, near, path.path()) {
        None => None,
        Some(number) => match all.get(number) {
            None => None,
            Some(places) => places.at(declaration),
        },
    }
}

/// Returns the place of a declaration, or `None` if it is predeclared. The search for its package starts at `near`, the number found last.
pub fn declared_near<'a>(
    workspace: &FaultlessWorkspace<'_>,
    all: &'a [DeclaredPlaces],
    near: &mut usize,
    declaration: &Declaration,
) -> Option<&'a Place>
    ensures { (known : Verdicts) → AreAllPlaces workspace.now.graph known all.now → IsChoiceIn (IsDeclaredAt (IsCheckedPackage workspace.now.graph known) declaration.now) result }
{
    match declaration {
        Declaration::Predeclared(_) => None,
        Declaration::Declared(path, _) => declared_under(workspace, all, near, path, declaration),
        Declaration::Field(symbol) => {
            declared_under(workspace, all, near, &symbol.package, declaration)
        },
        Declaration::Method(symbol) => {
            declared_under(workspace, all, near, &symbol.package, declaration)
        },
    }
}

/// Returns the place of a declaration, or `None` if it is predeclared.
pub fn declared_at<'a>(
    workspace: &FaultlessWorkspace<'_>,
    all: &'a [DeclaredPlaces],
    declaration: &Declaration,
) -> Option<&'a Place>
    ensures { (known : Verdicts) → AreAllPlaces workspace.now.graph known all.now → IsChoiceIn (IsDeclaredAt (IsCheckedPackage workspace.now.graph known) declaration.now) result }
{
    let mut near = 0;
    declared_near(workspace, all, &mut near, declaration)
}
