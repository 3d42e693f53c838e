//! Lists the uses of a declaration in all packages of a workspace.
ghost use Rattle.std.specs.Prelude.{◌≡◌, ◌<◌, Some, length, option_map, slice_get, IfOk, OnOk};
ghost use Rattle.base_files.specs.Packages.{package_paths};
ghost use Rattle.base_files.specs.Path.{folder};
ghost use Rattle.go_scope.specs.Named.{name_value};
ghost use Rattle.types_declared.specs.PackageView.{package_of};
ghost use Rattle.workspace_check.specs.Found.{AreFindings};
ghost use Rattle.refs_binding.specs.declared.declaration.Declaration.TheVariants.{Declared};
ghost use Rattle.refs_binding.specs.Indexed.{IsPackageNumber, IsPackageNumbered, IsIndexed};
ghost use Rattle.refs_uses.specs.MemberNames.{IsNameFound};
ghost use Rattle.refs_uses.specs.Sought.{IsSought};
ghost use Rattle.refs_uses.specs.UsesOfEach.{IsUseOfSome, ListsUsesOfEach};
ghost use Rattle.refs_binding.specs.Steps.{AddsPlaces};
ghost use Rattle.refs_binding.specs.Uses.{IsUseOf, AnswersUses, AnswersUsesAt};
ghost use Rattle.refs_binding.specs.Workspaces.{known_in, name_bytes, IsExportedUnder, IsUseAt, ListsFound, AnswersUsesIn};

use crate::exported_name::{declared_name, exported_under, own_name};
use crate::may_use::{Sought, home_of, importing_home, may_use};
use crate::member_name::member_name;
use crate::members_abroad::{add_members_abroad, is_member_abroad};
use crate::own_names::is_own;
use crate::places::Places;
use crate::qualified_abroad::{add_abroad, path_abroad};
use crate::set_uses::{add_uses_of_members, are_several_members};
use crate::sorting::places;
use crate::uses_in_package::add_uses_in_package;
use base_files::{Path, Refusal};
use refs_binding::indexed::{Indexed, Numbered, known_of};
use refs_binding::{Declaration, FaultlessWorkspace, PackageReader, PlaceKey, refuse_faults};
use refs_lookup::declaration_in_package;
use std::alloc::{AllocError, Global};
use types_declared::{Index, Package};
use types_expr::symbol::SharedPath;
use workspace_check::Findings;
use workspace_graph::Graph;

/// Adds the places of the identifiers of the package of a number that are bound to a declaration.
fn add_known_uses(
    alloc: Global,
    spots: &mut Vec<PlaceKey>,
    at: Numbered<'_>,
    of: &Indexed<'_>,
    sought: &Sought<'_>,
) -> Result<(), AllocError>
    requires unit { IsPackageNumbered at (package_of of.now.unit) }
    requires indexed { IsIndexed of.now }
    ensures { OnOk result (AddsPlaces spots.old.items spots.new.items
        (IsUseAt at.entry.workspace.now.graph (known_in at.entry.workspace.now.findings) sought.now.declaration.now (name_value sought.now.name) at.entry.number)) }
{
    add_uses_in_package(alloc, spots, of, sought)
}

/// Adds the places of a package's identifiers that are bound to a declaration.
fn add_uses_by(
    alloc: Global,
    spots: &mut Vec<PlaceKey>,
    at: Numbered<'_>,
    unit: Package<'_>,
    sought: &Sought<'_>,
) -> Result<(), AllocError>
    requires numbered { IsPackageNumber at }
    requires unit { IsPackageNumbered at (package_of unit) }
    ensures { OnOk result (AddsPlaces spots.old.items spots.new.items
        (IsUseAt at.entry.workspace.now.graph (known_in at.entry.workspace.now.findings) sought.now.declaration.now (name_value sought.now.name) at.entry.number)) }
{
    let index = Index::of(alloc, unit)?;
    let of = known_of(at, unit, &index);
    add_known_uses(alloc, spots, at, &of, sought)
}

/// Reads a package, and adds the places of its identifiers that are bound to a declaration.
fn add_package_uses(
    alloc: Global,
    spots: &mut Vec<PlaceKey>,
    at: Numbered<'_>,
    sought: &Sought<'_>,
) -> Result<(), AllocError>
    requires { IsPackageNumber at }
    ensures { OnOk result (AddsPlaces spots.old.items spots.new.items
        (IsUseAt at.entry.workspace.now.graph (known_in at.entry.workspace.now.findings) sought.now.declaration.now (name_value sought.now.name) at.entry.number)) }
{
    let reader = PackageReader::of(alloc, at)?;
    let table = reader.table(alloc)?;
    add_uses_by(alloc, spots, at, reader.unit(&table), sought)
}

/// Adds the places of a package's identifiers that are bound to a declaration. Does not read the package for a field or method of another
/// one.
fn add_members_or_read(
    alloc: Global,
    spots: &mut Vec<PlaceKey>,
    at: Numbered<'_>,
    sought: &Sought<'_>,
) -> Result<(), AllocError>
    requires numbered { IsPackageNumber at }
    requires named { IsNameFound at.workspace.now.graph (known_in at.workspace.now.findings) sought.now.declaration.now (name_value sought.now.member) }
    ensures { OnOk result (AddsPlaces spots.old.items spots.new.items
        (IsUseAt at.entry.workspace.now.graph (known_in at.entry.workspace.now.findings) sought.now.declaration.now (name_value sought.now.name) at.entry.number)) }
{
    if is_member_abroad(at, sought.declaration) {
        add_members_abroad(alloc, spots, at, sought)
    } else {
        add_package_uses(alloc, spots, at, sought)
    }
}

/// Adds the places of a package's identifiers that are bound to a declaration which it may use. Does not read the package if another one
/// declares that.
fn add_where_used(
    alloc: Global,
    spots: &mut Vec<PlaceKey>,
    at: Numbered<'_>,
    sought: &Sought<'_>,
) -> Result<(), AllocError>
    requires numbered { IsPackageNumber at }
    requires named { IsNameFound at.workspace.now.graph (known_in at.workspace.now.findings) sought.now.declaration.now (name_value sought.now.member) }
    ensures { OnOk result (AddsPlaces spots.old.items spots.new.items
        (IsUseAt at.entry.workspace.now.graph (known_in at.entry.workspace.now.findings) sought.now.declaration.now (name_value sought.now.name) at.entry.number)) }
{
    match path_abroad(at, sought.declaration) {
        None => add_members_or_read(alloc, spots, at, sought),
        Some(path) => add_abroad(spots, at, path, sought.name),
    }
}

/// Adds the places of a package's identifiers that are bound to a declaration. Skips a package that can't use it.
fn add_if_used(
    alloc: Global,
    spots: &mut Vec<PlaceKey>,
    at: Numbered<'_>,
    sought: &Sought<'_>,
) -> Result<(), AllocError>
    requires numbered { IsPackageNumber at }
    requires sought { IsSought at.workspace.now.graph (known_in at.workspace.now.findings) sought.now }
    ensures { OnOk result (AddsPlaces spots.old.items spots.new.items
        (IsUseAt at.entry.workspace.now.graph (known_in at.entry.workspace.now.findings) sought.now.declaration.now (name_value sought.now.name) at.entry.number)) }
{
    if may_use(at.workspace, at.number, sought) {
        add_where_used(alloc, spots, at, sought)
    } else {
        Ok(())
    }
}

/// Adds the places of the identifiers of all packages that are bound to a declaration.
fn add_all_uses(
    alloc: Global,
    spots: &mut Vec<PlaceKey>,
    workspace: &FaultlessWorkspace<'_>,
    sought: &Sought<'_>,
) -> Result<(), AllocError>
    requires { IsSought workspace.now.graph (known_in workspace.now.findings) sought.now }
    ensures { OnOk result (AddsPlaces spots.old.items spots.new.items (IsUseOf workspace.now.graph (known_in workspace.now.findings) sought.now.declaration.now)) }
{
    for number in 0..workspace.len() {
        let at = Numbered {
            workspace: &*workspace,
            number,
        };
        add_if_used(alloc, spots, at, sought)?;
    }
    Ok(())
}

/// Adds the places of the identifiers of the package `number` that are bound to a declaration. The package `read` is not read again.
fn add_uses_at(
    alloc: Global,
    spots: &mut Vec<PlaceKey>,
    read: Numbered<'_>,
    of: &Indexed<'_>,
    number: usize,
    sought: &Sought<'_>,
) -> Result<(), AllocError>
    requires numbered { IsPackageNumber read }
    requires unit { IsPackageNumbered read (package_of of.now.unit) }
    requires indexed { IsIndexed of.now }
    requires in_range { number < length (package_paths read.workspace.now.graph) }
    requires sought { IsSought read.workspace.now.graph (known_in read.workspace.now.findings) sought.now }
    ensures { OnOk result (AddsPlaces spots.old.items spots.new.items
        (IsUseAt read.entry.workspace.now.graph (known_in read.entry.workspace.now.findings) sought.now.declaration.now (name_value sought.now.name) number)) }
{
    if number == read.number {
        return add_known_uses(alloc, spots, read, of, sought);
    }
    let at = Numbered {
        workspace: read.workspace,
        number,
    };
    add_if_used(alloc, spots, at, sought)
}

/// Adds the places of the identifiers of all packages that are bound to a declaration. The package `read` is not read again.
fn add_uses_beyond(
    alloc: Global,
    spots: &mut Vec<PlaceKey>,
    read: Numbered<'_>,
    of: &Indexed<'_>,
    sought: &Sought<'_>,
) -> Result<(), AllocError>
    requires numbered { IsPackageNumber read }
    requires unit { IsPackageNumbered read (package_of of.now.unit) }
    requires indexed { IsIndexed of.now }
    requires sought { IsSought read.workspace.now.graph (known_in read.workspace.now.findings) sought.now }
    ensures { OnOk result (AddsPlaces spots.old.items spots.new.items (IsUseOf read.entry.workspace.now.graph (known_in read.entry.workspace.now.findings) sought.now.declaration.now)) }
{
    for number in 0..read.workspace.len() {
        add_uses_at(alloc, spots, read, of, number, sought)?;
    }
    Ok(())
}

/// Returns the name under which the package of `path` exports its declaration `d`, if it does. The package `read` is not read again.
fn scope_name(
    alloc: Global,
    read: Numbered<'_>,
    unit: Package<'_>,
    path: &SharedPath,
    d: usize,
) -> Result<Option<Vec<u8>>, AllocError>
    requires numbered { IsPackageNumber read }
    requires unit { IsPackageNumbered read (package_of unit) }
    ensures { IfOk result (λ name. IsExportedUnder read.entry.workspace.now.graph (known_in read.entry.workspace.now.findings) (Declared path.now d) (option_map name_bytes name)) }
{
    if is_own(unit, path) {
        own_name(alloc, unit, d)
    } else {
        declared_name(alloc, read.workspace, path, d)
    }
}

/// Returns the name under which a declaration is exported, if it is. The package `read` is not read again.
fn name_by_read(
    alloc: Global,
    read: Numbered<'_>,
    unit: Package<'_>,
    declaration: &Declaration,
) -> Result<Option<Vec<u8>>, AllocError>
    requires numbered { IsPackageNumber read }
    requires unit { IsPackageNumbered read (package_of unit) }
    ensures { IfOk result (λ name. IsExportedUnder read.entry.workspace.now.graph (known_in read.entry.workspace.now.findings) declaration.now (option_map name_bytes name)) }
{
    match declaration {
        Declaration::Declared(path, d) => scope_name(alloc, read, unit, path, *d),
        Declaration::Predeclared(_) | Declaration::Field(_) | Declaration::Method(_) => Ok(None),
    }
}

/// Borrows the bytes of a name.
fn bytes(name: &Option<Vec<u8>>) -> Option<&[u8]>
    ensures { name_value result ≡ option_map name_bytes name.now }
{
    match name {
        None => None,
        Some(name) => Some(name.as_slice()),
    }
}

/// Adds the places of all uses of a declaration. `name` is the name under which it is exported, if it is. The package `read` is not read
/// again.
fn add_named(
    alloc: Global,
    spots: &mut Vec<PlaceKey>,
    read: Numbered<'_>,
    of: &Indexed<'_>,
    declaration: &Declaration,
    name: Option<&[u8]>,
) -> Result<(), AllocError>
    requires numbered { IsPackageNumber read }
    requires unit { IsPackageNumbered read (package_of of.now.unit) }
    requires indexed { IsIndexed of.now }
    requires name { IsExportedUnder read.workspace.now.graph (known_in read.workspace.now.findings) declaration.now (name_value name) }
    ensures { OnOk result (AddsPlaces spots.old.items spots.new.items (IsUseOf read.entry.workspace.now.graph (known_in read.entry.workspace.now.findings) declaration.now)) }
{
    let home = home_of(read.workspace, declaration);
    let member = member_name(read.workspace, declaration, home);
    let importing = importing_home(alloc, read.workspace, home)?;
    let sought = Sought {
        declaration,
        name,
        member,
        home,
        importing: &importing,
    };
    add_uses_beyond(alloc, spots, read, of, &sought)
}

/// Adds the places of all uses of a declaration. The package `read` is not read again.
fn add_uses_from(
    alloc: Global,
    spots: &mut Vec<PlaceKey>,
    read: Numbered<'_>,
    of: &Indexed<'_>,
    declaration: &Declaration,
) -> Result<(), AllocError>
    requires numbered { IsPackageNumber read }
    requires unit { IsPackageNumbered read (package_of of.now.unit) }
    requires indexed { IsIndexed of.now }
    ensures { OnOk result (AddsPlaces spots.old.items spots.new.items (IsUseOf read.entry.workspace.now.graph (known_in read.entry.workspace.now.findings) declaration.now)) }
{
    let name = name_by_read(alloc, read, of.unit, declaration)?;
    add_named(alloc, spots, read, of, declaration, bytes(&name))
}

/// Returns the places of all uses of a declaration, sorted. The package `read` is not read again.
pub fn list_uses_from(
    alloc: Global,
    read: Numbered<'_>,
    of: &Indexed<'_>,
    declaration: &Declaration,
) -> Result<Places, AllocError>
    requires numbered { IsPackageNumber read }
    requires unit { IsPackageNumbered read (package_of of.now.unit) }
    requires indexed { IsIndexed of.now }
    ensures { IfOk result (ListsFound read.entry.workspace.now.graph (known_in read.entry.workspace.now.findings) declaration.now) }
{
    let mut spots = Vec::new(alloc);
    add_uses_from(alloc, &mut spots, read, of, declaration)?;
    Ok(Places::new(places(alloc, spots)?))
}

/// Adds the places of all uses of each declaration of a list. The package `read` is not read again.
fn add_uses_of_each(
    alloc: Global,
    spots: &mut Vec<PlaceKey>,
    read: Numbered<'_>,
    of: &Indexed<'_>,
    set: &[Declaration],
) -> Result<(), AllocError>
    requires numbered { IsPackageNumber read }
    requires unit { IsPackageNumbered read (package_of of.now.unit) }
    requires indexed { IsIndexed of.now }
    ensures { OnOk result (AddsPlaces spots.old.items spots.new.items (IsUseOfSome read.entry.workspace.now.graph (known_in read.entry.workspace.now.findings) set.now)) }
{
    for declaration in set {
        add_uses_from(alloc, spots, read, of, declaration)?;
    }
    Ok(())
}

/// Adds the places of all uses of the declarations of a list. Several fields and methods are looked for together.
fn add_uses_of_list(
    alloc: Global,
    spots: &mut Vec<PlaceKey>,
    read: Numbered<'_>,
    of: &Indexed<'_>,
    set: &[Declaration],
) -> Result<(), AllocError>
    requires numbered { IsPackageNumber read }
    requires unit { IsPackageNumbered read (package_of of.now.unit) }
    requires indexed { IsIndexed of.now }
    ensures { OnOk result (AddsPlaces spots.old.items spots.new.items (IsUseOfSome read.entry.workspace.now.graph (known_in read.entry.workspace.now.findings) set.now)) }
{
    if are_several_members(set) {
        add_uses_of_members(alloc, spots, read.workspace, set)
    } else {
        add_uses_of_each(alloc, spots, read, of, set)
    }
}

/// Returns the places of all uses of the declarations of a list, sorted and without duplicates. The package `read` is not read again, unless
/// they are several fields and methods.
pub fn list_uses_of_each(
    alloc: Global,
    read: Numbered<'_>,
    of: &Indexed<'_>,
    set: &[Declaration],
) -> Result<Places, AllocError>
    requires numbered { IsPackageNumber read }
    requires unit { IsPackageNumbered read (package_of of.now.unit) }
    requires indexed { IsIndexed of.now }
    ensures { IfOk result (ListsUsesOfEach read.entry.workspace.now.graph (known_in read.entry.workspace.now.findings) set.now) }
{
    let mut spots = Vec::new(alloc);
    add_uses_of_list(alloc, &mut spots, read, of, set)?;
    Ok(Places::new(places(alloc, spots)?))
}

/// Returns the places of all uses of a declaration, sorted. `name` is the name under which it is exported, if it is.
fn list_everywhere(
    alloc: Global,
    workspace: &FaultlessWorkspace<'_>,
    declaration: &Declaration,
    name: Option<&[u8]>,
) -> Result<Places, AllocError>
    requires { IsExportedUnder workspace.now.graph (known_in workspace.now.findings) declaration.now (name_value name) }
    ensures { IfOk result (ListsFound workspace.now.graph (known_in workspace.now.findings) declaration.now) }
{
    let home = home_of(workspace, declaration);
    let member = member_name(workspace, declaration, home);
    let importing = importing_home(alloc, workspace, home)?;
    let sought = Sought {
        declaration,
        name,
        member,
        home,
        importing: &importing,
    };
    let mut spots = Vec::new(alloc);
    add_all_uses(alloc, &mut spots, workspace, &sought)?;
    Ok(Places::new(places(alloc, spots)?))
}

/// Returns the places of all uses of a declaration, sorted and without duplicates. Packages that can't use it are not read.
pub fn list_uses(
    alloc: Global,
    workspace: &FaultlessWorkspace<'_>,
    declaration: &Declaration,
) -> Result<Places, AllocError>
    ensures { IfOk result (ListsFound workspace.now.graph (known_in workspace.now.findings) declaration.now) }
{
    let name = exported_under(alloc, workspace, declaration)?;
    list_everywhere(alloc, workspace, declaration, bytes(&name))
}

/// Returns the uses of the identifier at a byte of a file of a package, or a refusal.
fn uses_known(
    alloc: Global,
    at: Numbered<'_>,
    of: &Indexed<'_>,
    path: &Path,
    offset: usize,
) -> Result<Places, Refusal>
    requires numbered { IsPackageNumber at }
    requires folder { slice_get (package_paths at.workspace.now.graph) at.number ≡ Some (folder path.now) }
    requires unit { IsPackageNumbered at (package_of of.now.unit) }
    requires indexed { IsIndexed of.now }
    ensures { AnswersUsesAt at.entry.workspace.now.graph path.now offset result }
{
    at.workspace.has_no_faults();
    match declaration_in_package(alloc, at.workspace, of, path, offset) {
        Err(refusal) => Err(refusal),
        Ok(declaration) => Ok(list_uses_from(alloc, at, of, &declaration)?),
    }
}

/// Returns the uses of the identifier at a byte of a file of the package of a number.
fn uses_by(
    alloc: Global,
    at: Numbered<'_>,
    unit: Package<'_>,
    path: &Path,
    offset: usize,
) -> Result<Places, Refusal>
    requires numbered { IsPackageNumber at }
    requires folder { slice_get (package_paths at.workspace.now.graph) at.number ≡ Some (folder path.now) }
    requires unit { IsPackageNumbered at (package_of unit) }
    ensures { AnswersUsesAt at.entry.workspace.now.graph path.now offset result }
{
    let index = Index::of(alloc, unit)?;
    let of = known_of(at, unit, &index);
    uses_known(alloc, at, &of, path, offset)
}

/// Reads the package of a number once, and returns the uses of the identifier at a byte of one of its files.
fn uses_of_package(
    alloc: Global,
    at: Numbered<'_>,
    path: &Path,
    offset: usize,
) -> Result<Places, Refusal>
    requires numbered { IsPackageNumber at }
    requires folder { slice_get (package_paths at.workspace.now.graph) at.number ≡ Some (folder path.now) }
    ensures { AnswersUsesAt at.entry.workspace.now.graph path.now offset result }
{
    let reader = PackageReader::of(alloc, at)?;
    let table = reader.table(alloc)?;
    uses_by(alloc, at, reader.unit(&table), path, offset)
}

/// Returns the uses of the identifier at a byte of a file of a workspace without faults.
fn uses_at(
    alloc: Global,
    workspace: &FaultlessWorkspace<'_>,
    path: &Path,
    offset: usize,
) -> Result<Places, Refusal>
    ensures { AnswersUsesAt workspace.now.graph path.now offset result }
{
    workspace.has_no_faults();
    match workspace.number_of(path.folder()) {
        None => Err(Refusal::NoIdentifier),
        Some(number) => {
            let at = Numbered { workspace, number };
            uses_of_package(alloc, at, path, offset)
        }
    }
}

/// Returns the uses of the identifier at a byte of a file, or refuses with the first fault of the workspace.
fn uses_in(
    alloc: Global,
    graph: &Graph,
    found: &Findings,
    path: &Path,
    offset: usize,
) -> Result<Places, Refusal>
    requires { AreFindings graph.now found.now }
    ensures { AnswersUsesIn graph.now path.now offset result }
{
    match refuse_faults(alloc, graph, found) {
        Err(refusal) => Err(refusal),
        Ok(workspace) => uses_at(alloc, &workspace, path, offset),
    }
}

/// Returns the places of all identifiers that are bound to the declaration of the identifier at a byte of a file. The places are sorted by
/// path and offset; offsets are in bytes, from 0.
///
/// Refuses, in this order: `path` is no path of a file; the file is missing; the workspace has a fault, of which it names the first; the
/// byte is in no identifier; the identifier has no declaration.
pub fn uses(
    alloc: Global,
    graph: &Graph,
    found: &Findings,
    path: &str,
    offset: usize,
) -> Result<Places, Refusal>
    requires { AreFindings graph.now found.now }
    ensures { AnswersUses graph.now path.now offset result }
{
    let path = Path::read(alloc, path, 2)?;
    if graph.files().get(&path).is_none() {
        return Err(Refusal::NoFile);
    }
    uses_in(alloc, graph, found, &path, offset)
}
