//! Finds out whether the identifier at a byte is bound to a local declaration: no object prints its name, and no other package sees it.
ghost use Rattle.std.specs.Prelude.{◌≡◌, ◌<◌, ◌↔◌, Some, length, slice_get, IfOk, IsTrue};
ghost use Rattle.base_files.specs.Packages.{package_paths};
ghost use Rattle.base_files.specs.Path.{folder};
ghost use Rattle.go_scope.specs.Bindings.{IsPackageLevel};
ghost use Rattle.types_declared.specs.PackageView.{package_of};
ghost use Rattle.refs_binding.specs.Indexed.{IsPackageNumber, IsPackageNumbered};
ghost use Rattle.refactor_rename.specs.Literals.{IsUnnamedImport};
ghost use Rattle.refactor_units.specs.LocalNames.{IsLocalNumber, IsLocalOf, IsLocalAt};

use base_files::{Path, Refusal};
use go_scope::identifiers::PREDECLARED;
use go_scope::model::Block;
use refs_binding::indexed::{Numbered, known_of};
use refs_binding::{Declaration, FaultlessWorkspace, PackageReader};
use refs_lookup::declaration_in_package;
use std::alloc::{AllocError, Global};
use types_declared::{Index, Package, is_import, literal_of};

/// Whether a declaration is in the package block.
pub(crate) fn is_package_level(unit: Package<'_>, n: usize) -> bool
    requires { n < length unit.table.now.sites }
    ensures { IsTrue result ↔ IsPackageLevel (package_of unit.entry).layout n }
{
    match unit.table.role(n).block() {
        Block::Package => true,
        Block::Universe | Block::File(_) | Block::Inner(_, _, _) => false,
    }
}

/// Whether a declaration is an import without a name.
pub(crate) fn is_unnamed(unit: Package<'_>, n: usize) -> bool
    requires { n < length unit.table.now.sites }
    ensures { IsTrue result ↔ IsUnnamedImport (package_of unit.entry) n }
{
    is_import(unit.table, n) && literal_of(unit.table, n) == n
}

/// Whether a number is that of a declaration of a package that is neither predeclared nor package-level, and is no import without a name.
fn is_local_number(unit: Package<'_>, n: usize) -> bool
    ensures { IsTrue result ↔ IsLocalNumber (package_of unit.entry) n }
{
    PREDECLARED <= n
        && n < unit.table.len()
        && unit.table.declares(n)
        && !is_package_level(unit, n)
        && !is_unnamed(unit, n)
}

/// Whether a declaration is such a one of the package.
fn is_local(unit: Package<'_>, declaration: &Declaration) -> bool
    ensures { IsTrue result ↔ IsLocalOf (package_of unit.entry) declaration.now }
{
    match declaration {
        Declaration::Declared(path, n) => {
            path.path() == unit.path.path() && is_local_number(unit, *n)
        }
        Declaration::Predeclared(_) | Declaration::Field(_) | Declaration::Method(_) => false,
    }
}

/// Whether the identifier at a byte of a file of a package is bound to a local declaration of this.
fn names_local_by(
    alloc: Global,
    at: Numbered<'_>,
    unit: Package<'_>,
    path: &Path,
    offset: usize,
) -> Result<bool, AllocError>
    requires numbered { IsPackageNumber at }
    requires unit { IsPackageNumbered at (package_of unit) }
    requires folder { slice_get (package_paths at.workspace.now.graph) at.number ≡ Some (folder path.now) }
    ensures { IfOk result (λ is. IsTrue is ↔ IsLocalAt at.entry.workspace.now.graph path.now offset) }
{
    at.workspace.has_no_faults();
    let index = Index::of(alloc, unit)?;
    let of = known_of(at, unit, &index);
    match declaration_in_package(alloc, at.workspace, &of, path, offset) {
        Err(Refusal::Memory) => Err(AllocError),
        Err(_) => Ok(false),
        Ok(declaration) => Ok(is_local(of.unit, &declaration)),
    }
}

/// Whether the identifier at a byte of a file of the package of a number is bound to a local declaration. Reads the package.
fn names_local_in(
    alloc: Global,
    at: Numbered<'_>,
    path: &Path,
    offset: usize,
) -> Result<bool, AllocError>
    requires numbered { IsPackageNumber at }
    requires folder { slice_get (package_paths at.workspace.now.graph) at.number ≡ Some (folder path.now) }
    ensures { IfOk result (λ is. IsTrue is ↔ IsLocalAt at.entry.workspace.now.graph path.now offset) }
{
    let reader = PackageReader::of(alloc, at)?;
    let table = reader.table(alloc)?;
    names_local_by(alloc, at, reader.unit(&table), path, offset)
}

/// Whether the identifier at a byte is bound to a local declaration.
pub(crate) fn names_local(
    alloc: Global,
    workspace: &FaultlessWorkspace<'_>,
    path: &Path,
    offset: usize,
) -> Result<bool, AllocError>
    ensures { IfOk result (λ is. IsTrue is ↔ IsLocalAt workspace.now.graph path.now offset) }
{
    match workspace.number_of(path.folder()) {
        None => Ok(false),
        Some(number) => names_local_in(alloc, Numbered { workspace, number }, path, offset),
    }
}
