//! Finds the declaration that the identifier at a byte of a file is bound to.
ghost use Rattle.std.specs.Prelude.{◌<◌, length, IfOk};
ghost use Rattle.types_declared.specs.PackageView.{package_of, IsIndexOf};
ghost use Rattle.refs_binding.specs.declared.declaration.Declaration.{Declaration as Bound};
ghost use Rattle.refs_binding.specs.Binding.{BindsByScope, BindsQualified};
ghost use Rattle.refs_binding.specs.Indexed.{IsPackageNumber, IsPackageNumbered, IsIndexed};
ghost use Rattle.refs_binding.specs.Steps.{IsDeclarationResult};
ghost use Rattle.refs_binding.specs.Uses.{IsCheckedPackage, IsBoundToDeclaration};
ghost use Rattle.refs_binding.specs.Workspaces.{known_in, ExportsAs, IsExportedNumber, BindsMember, FindsDeclaration, FindsDeclarationAt, FindsDeclarationIn};

use crate::exported::exported_as;
use crate::identifier_at_byte::{identifier_at, named_by};
use crate::own_name::declaration_by_name;
use crate::used_member::declaration_by_member;
use base_files::{Path, Refusal};
use refs_binding::indexed::{Indexed, Numbered, known_of};
use refs_binding::{Declaration, FaultlessWorkspace, PackageReader, declaration_in_scope, path_of};
use std::alloc::{AllocError, Global};
use types_declared::{Index, Package};
use types_info::qualifying_path;

/// Reads the package of a number, and returns the number of the declaration that it exports under a name.
fn exported_number(
    alloc: Global,
    at: Numbered<'_>,
    name: &[u8],
) -> Result<Option<usize>, AllocError>
    requires { IsPackageNumber at }
    ensures { IfOk result (IsExportedNumber at.entry.workspace.now.graph (known_in at.entry.workspace.now.findings) at.entry.number name.now) }
{
    let reader = PackageReader::of(alloc, at)?;
    let table = reader.table(alloc)?;
    Ok(exported_as(reader.unit(&table), name))
}

/// Returns the declaration that the package of a path exports under a name.
fn exported_declaration(
    alloc: Global,
    workspace: &FaultlessWorkspace<'_>,
    path: &[u8],
    name: &[u8],
) -> Result<Option<Declaration>, AllocError>
    ensures { IfOk result (IsDeclarationResult (ExportsAs workspace.now.graph (known_in workspace.now.findings) path.now name.now)) }
{
    match workspace.number_of(path) {
        None => Ok(None),
        Some(number) => {
            let at = Numbered { workspace, number };
            match exported_number(alloc, at, name)? {
                None => Ok(None),
                Some(d) => {
                    let path = path_of(workspace, number).clone()?;
                    Ok(Some(Declaration::Declared(path, d)))
                }
            }
        }
    }
}

/// Returns the declaration of `u` as `N` in a qualified identifier `q.N`: what the package that `q` names exports under the name `N`.
fn declaration_by_package(
    alloc: Global,
    workspace: &FaultlessWorkspace<'_>,
    unit: Package<'_>,
    index: &Index<'_>,
    u: usize,
) -> Result<Option<Declaration>, AllocError>
    requires index { IsIndexOf (package_of unit) index.now }
    requires in_range { u < length unit.table.now.sites }
    ensures { IfOk result (IsDeclarationResult (BindsQualified (IsCheckedPackage workspace.now.graph (known_in workspace.now.findings)) (package_of unit.entry) u)) }
{
    match qualifying_path(unit, index, u) {
        None => Ok(None),
        Some(path) => exported_declaration(alloc, workspace, path, unit.table.name(u)),
    }
}

/// Returns the field or method that `u` uses or declares.
fn member_declaration(
    alloc: Global,
    of: &Indexed<'_>,
    u: usize,
) -> Result<Option<Declaration>, AllocError>
    requires indexed { IsIndexed of.now }
    requires in_range { u < length of.now.unit.table.now.sites }
    ensures { IfOk result (IsDeclarationResult (BindsMember (package_of of.now.unit) u)) }
{
    match declaration_by_member(of.unit, of.own, of.members, u)? {
        None => declaration_by_name(alloc, of.unit, of.index, u),
        Some(declaration) => Ok(Some(declaration)),
    }
}

/// Returns the declaration of an identifier that no scope binds: a declaration that another package exports, or a field or method.
fn declaration_beyond(
    alloc: Global,
    workspace: &FaultlessWorkspace<'_>,
    of: &Indexed<'_>,
    u: usize,
) -> Result<Option<Declaration>, AllocError>
    requires indexed { IsIndexed of.now }
    requires in_range { u < length of.now.unit.table.now.sites }
    requires unbound { (d : Bound) → BindsByScope (package_of of.now.unit) u d → ⊥ }
    ensures { IfOk result (IsDeclarationResult (IsBoundToDeclaration workspace.now.graph (known_in workspace.now.findings) (package_of of.now.unit) u)) }
{
    match declaration_by_package(alloc, workspace, of.unit, of.index, u)? {
        Some(declaration) => Ok(Some(declaration)),
        None => member_declaration(alloc, of, u),
    }
}

/// Returns the declaration that an identifier of a package is bound to.
fn declaration_of(
    alloc: Global,
    workspace: &FaultlessWorkspace<'_>,
    of: &Indexed<'_>,
    u: usize,
) -> Result<Option<Declaration>, AllocError>
    requires indexed { IsIndexed of.now }
    requires in_range { u < length of.now.unit.table.now.sites }
    ensures { IfOk result (IsDeclarationResult (IsBoundToDeclaration workspace.now.graph (known_in workspace.now.findings) (package_of of.now.unit) u)) }
{
    match declaration_in_scope(of.unit, u)? {
        Some(declaration) => Ok(Some(declaration)),
        None => declaration_beyond(alloc, workspace, of, u),
    }
}

/// Returns the declaration of the identifier at a byte of a file of a package.
///
/// Refuses with `NoIdentifier` if the byte is in no identifier and no import's path literal. Refuses with `NotRenamable` if the identifier
/// is bound to no declaration.
pub fn declaration_in_package(
    alloc: Global,
    workspace: &FaultlessWorkspace<'_>,
    of: &Indexed<'_>,
    path: &Path,
    offset: usize,
) -> Result<Declaration, Refusal>
    requires { IsIndexed of.now }
    ensures { FindsDeclarationIn workspace.now.graph (known_in workspace.now.findings) (package_of of.now.unit) path.now offset result }
{
    match identifier_at(of.unit, path, offset) {
        None => Err(Refusal::NoIdentifier),
        Some(u) => {
            let name = named_by(of.unit, u);
            match declaration_of(alloc, workspace, of, name)? {
                None => Err(Refusal::NotRenamable),
                Some(declaration) => Ok(declaration),
            }
        }
    }
}

/// Returns the declaration of the identifier at a byte of a file of the package of a number.
fn declaration_by(
    alloc: Global,
    at: Numbered<'_>,
    unit: Package<'_>,
    file: &Path,
    offset: usize,
) -> Result<Declaration, Refusal>
    requires numbered { IsPackageNumber at }
    requires unit { IsPackageNumbered at (package_of unit) }
    ensures { FindsDeclarationAt at.entry.workspace.now.graph (known_in at.entry.workspace.now.findings) at.entry.number file.now offset result }
{
    let index = Index::of(alloc, unit)?;
    let of = known_of(at, unit, &index);
    declaration_in_package(alloc, at.workspace, &of, file, offset)
}

/// Reads the package of a number, and returns the declaration of the identifier at a byte of one of its files.
fn declaration_in(
    alloc: Global,
    at: Numbered<'_>,
    file: &Path,
    offset: usize,
) -> Result<Declaration, Refusal>
    requires { IsPackageNumber at }
    ensures { FindsDeclarationAt at.entry.workspace.now.graph (known_in at.entry.workspace.now.findings) at.entry.number file.now offset result }
{
    let reader = PackageReader::of(alloc, at)?;
    let table = reader.table(alloc)?;
    declaration_by(alloc, at, reader.unit(&table), file, offset)
}

/// Returns the declaration of the identifier at a byte of a file, or a refusal. The offset is in bytes, from 0.
///
/// Refuses with `NoIdentifier` if the byte is in no identifier and no import's path literal. Refuses with `NotRenamable` if the identifier
/// is bound to no declaration.
pub fn declaration_at(
    alloc: Global,
    workspace: &FaultlessWorkspace<'_>,
    path: &Path,
    offset: usize,
) -> Result<Declaration, Refusal>
    ensures { FindsDeclaration workspace.now.graph (known_in workspace.now.findings) path.now offset result }
{
    match workspace.number_of(path.folder()) {
        None => Err(Refusal::NoIdentifier),
        Some(number) => {
            let at = Numbered { workspace, number };
            declaration_in(alloc, at, path, offset)
        }
    }
}
