//! Finds out whether the identifier at a byte is bound to a package-level declaration, whose name objects print.
ghost use Rattle.std.specs.Prelude.{◌≡◌, ◌<◌, ◌↔◌, IfNone, IfOk, IfSome, IsTrue, length};
ghost use Rattle.std.specs.List.{list_all};
ghost use Rattle.base_files.specs.Packages.{package_paths};
ghost use Rattle.types_declared.specs.PackageView.{package_of};
ghost use Rattle.refs_binding.specs.Indexed.{IsPackageNumber, IsPackageNumbered};
ghost use Rattle.refs_binding.specs.Workspaces.{known_in};
ghost use Rattle.build_names.specs.Words.{NameChange};
ghost use Rattle.law_objects.specs.CarriedUnits.{AreLegiblePaths};
ghost use Rattle.law_objects.specs.Legible.{is_name_byte};
ghost use Rattle.refactor_units.specs.LevelNames.{ChangesLevel, HasLegiblePath, HasNoLevelNumber, IsLevelAt, IsLevelNumber, IsLevelOf};

use crate::local::{is_package_level, is_unnamed};
use base_files::{Path, Refusal};
use build_names::{GivenName, is_break};
use go_scope::identifiers::PREDECLARED;
use refs_binding::indexed::Numbered;
use refs_binding::{Declaration, FaultlessWorkspace, PackageReader};
use refs_lookup::declaration_at;
use std::alloc::{AllocError, Global};
use types_declared::Package;
use workspace_graph::Graph;

/// Whether the byte may be in a name.
fn is_name_byte(byte: u8) -> bool
    ensures { result ≡ is_name_byte byte }
{
    !is_break(byte) && byte != b'#'
}

/// Whether each byte may be in a name.
fn is_legible(bytes: &[u8]) -> bool
    ensures { result ≡ list_all is_name_byte bytes.now }
{
    bytes.iter().all(|byte| is_name_byte(*byte))
}

/// Whether the path of the package of a number is legible in objects.
fn has_legible_path(files: &Graph, number: usize) -> bool
    requires { number < length (package_paths files.now) }
    ensures { IsTrue result ↔ HasLegiblePath files.now number }
{
    let path = files.package(number).path.as_slice();
    is_legible(path)
}

/// Whether the paths of all packages are legible in objects.
fn have_legible_paths(files: &Graph) -> bool
    ensures { IsTrue result ↔ AreLegiblePaths files.now }
{
    for number in 0..files.len() {
        if !has_legible_path(files, number) {
            return false;
        }
    }
    true
}

/// Whether a number is that of a package-level declaration of a package.
fn is_level_number(unit: Package<'_>, n: usize) -> bool
    ensures { IsTrue result ↔ IsLevelNumber (package_of unit.entry) n }
{
    PREDECLARED <= n
        && n < unit.table.len()
        && unit.table.declares(n)
        && is_package_level(unit, n)
        && !is_unnamed(unit, n)
}

/// The name that a package-level declaration of a package gets. `None` for a number of no such declaration.
fn level_name(
    alloc: Global,
    at: Numbered<'_>,
    unit: Package<'_>,
    n: usize,
    name: &str,
) -> Result<Option<GivenName>, AllocError>
    requires { IsPackageNumbered at (package_of unit) }
    ensures names { IfOk result (λ given. IfSome given (ChangesLevel at.entry n name.now)) }
    ensures finds { IfOk result (λ given. IfNone given (IsLevelNumber (package_of unit.entry) n → ⊥)) }
{
    if !is_level_number(unit, n) {
        return Ok(None);
    }
    let given = GivenName::new(alloc, unit.path.path(), unit.table.name(n), name.as_bytes())?;
    Ok(Some(given))
}

/// The name that a package-level declaration of the package of a number gets. Reads the package.
fn level_name_in(
    alloc: Global,
    at: Numbered<'_>,
    n: usize,
    name: &str,
) -> Result<Option<GivenName>, AllocError>
    requires { IsPackageNumber at }
    ensures names { IfOk result (λ given. IfSome given (ChangesLevel at.entry n name.now)) }
    ensures finds { IfOk result (λ given. IfNone given (HasNoLevelNumber at.entry n)) }
{
    let reader = PackageReader::of(alloc, at)?;
    let table = reader.table(alloc)?;
    level_name(alloc, at, reader.unit(&table), n, name)
}

/// The name that a declaration gets. `None` where it is no package-level one.
fn level_name_of(
    alloc: Global,
    workspace: &FaultlessWorkspace<'_>,
    declaration: &Declaration,
    name: &str,
) -> Result<Option<GivenName>, AllocError>
    ensures names { IfOk result (λ given. IfSome given (IsLevelOf workspace.now.graph (known_in workspace.now.findings) declaration.now name.now)) }
    ensures finds { IfOk result (λ given. IfNone given ((c : NameChange) → IsLevelOf workspace.now.graph (known_in workspace.now.findings) declaration.now name.now c → ⊥)) }
{
    match declaration {
        Declaration::Declared(home, n) => match workspace.number_of(home.path()) {
            Some(number) => level_name_in(alloc, Numbered { workspace, number }, *n, name),
            None => Ok(None),
        },
        Declaration::Predeclared(_) | Declaration::Field(_) | Declaration::Method(_) => Ok(None),
    }
}

/// The name that the package-level declaration gets to which the identifier at a byte is bound. `None` where it is bound to no such one, and
/// where a path of a package is not legible.
pub(crate) fn level_name_at(
    alloc: Global,
    workspace: &FaultlessWorkspace<'_>,
    path: &Path,
    offset: usize,
    name: &str,
) -> Result<Option<GivenName>, AllocError>
    ensures names { IfOk result (λ given. IfSome given (IsLevelAt workspace.now.graph path.now offset name.now)) }
    ensures finds { IfOk result (λ given. IfNone given ((c : NameChange) → IsLevelAt workspace.now.graph path.now offset name.now c → ⊥)) }
{
    if !have_legible_paths(workspace.graph) {
        return Ok(None);
    }
    workspace.has_no_faults();
    match declaration_at(alloc, workspace, path, offset) {
        Err(Refusal::Memory) => Err(AllocError),
        Err(_) => Ok(None),
        Ok(declaration) => level_name_of(alloc, workspace, &declaration, name),
    }
}
