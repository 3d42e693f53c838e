//! Finds the name under which a declaration is exported.
ghost use Rattle.std.specs.Prelude.{option_map, IfOk, Some};
ghost use Rattle.types_declared.specs.PackageView.{package_of};
ghost use Rattle.refs_binding.specs.declared.declaration.Declaration.TheVariants.{Declared};
ghost use Rattle.refs_binding.specs.Indexed.{IsPackageNumber};
ghost use Rattle.refs_binding.specs.Steps.{IsExportedBy};
ghost use Rattle.refs_binding.specs.Workspaces.{known_in, name_bytes, IsExportedUnder, IsExportedName};
ghost use Rattle.go_scope.specs.Named.{name_value};

use refs_binding::indexed::Numbered;
use refs_binding::{Declaration, FaultlessWorkspace, PackageReader};
use std::alloc::{AllocError, Global};
use types_check::is_seen;
use types_declared::Package;
use types_expr::symbol::SharedPath;

/// Returns the name under which a package exports its declaration `d`, if it does.
pub(crate) fn own_name(
    alloc: Global,
    unit: Package<'_>,
    d: usize,
) -> Result<Option<Vec<u8>>, AllocError>
    ensures { IfOk result (λ name. IsExportedBy (package_of unit.entry) d (option_map name_bytes name)) }
{
    match exported_name(unit, d) {
        None => Ok(None),
        Some(name) => Ok(Some(Vec::from_slice(alloc, name)?)),
    }
}

/// Reads the package of a number, and returns the name under which it exports its declaration `d`, if it does.
fn name_at(alloc: Global, at: Numbered<'_>, d: usize) -> Result<Option<Vec<u8>>, AllocError>
    requires { IsPackageNumber at }
    ensures { IfOk result (λ name. IsExportedName at.entry.workspace.now.graph (known_in at.entry.workspace.now.findings) at.entry.number d (option_map name_bytes name)) }
{
    let reader = PackageReader::of(alloc, at)?;
    let table = reader.table(alloc)?;
    own_name(alloc, reader.unit(&table), d)
}

/// Returns the name under which the package of `path` exports its declaration `d`, if it does.
pub(crate) fn declared_name(
    alloc: Global,
    workspace: &FaultlessWorkspace<'_>,
    path: &SharedPath,
    d: usize,
) -> Result<Option<Vec<u8>>, AllocError>
    ensures { IfOk result (λ name. IsExportedUnder workspace.now.graph (known_in workspace.now.findings) (Declared path.now d) (option_map name_bytes name)) }
{
    match workspace.number_of(path.path()) {
        None => Ok(None),
        Some(number) => {
            let at = Numbered { workspace, number };
            name_at(alloc, at, d)
        }
    }
}

/// Returns the name under which a declaration is exported, if it is.
pub(crate) fn exported_under(
    alloc: Global,
    workspace: &FaultlessWorkspace<'_>,
    declaration: &Declaration,
) -> Result<Option<Vec<u8>>, AllocError>
    ensures { IfOk result (λ name. IsExportedUnder workspace.now.graph (known_in workspace.now.findings) declaration.now (option_map name_bytes name)) }
{
    match declaration {
        Declaration::Declared(path, d) => declared_name(alloc, workspace, path, *d),
        Declaration::Predeclared(_) | Declaration::Field(_) | Declaration::Method(_) => Ok(None),
    }
}

/// Returns the name under which a package exports its declaration `d`, if it does, as borrowed bytes.
pub fn exported_name<'a>(unit: Package<'a>, d: usize) -> Option<&'a [u8]>
    ensures { IsExportedBy (package_of unit.entry) d (name_value result) }
{
    if d < unit.table.len() && is_seen(unit, d) {
        Some(unit.table.name(d))
    } else {
        None
    }
}
