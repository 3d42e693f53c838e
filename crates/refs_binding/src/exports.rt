//! The declarations that a package exports, by name.
ghost use Rattle.std.specs.Prelude.{◌<◌, ◌+◌, length, map, IfOk, OnOk};
ghost use Rattle.go_ast.specs.SourceFile.{source_of};
ghost use Rattle.types_info.specs.PackageOf.{package_in};
ghost use Rattle.types_declared.specs.ExportTablesView.{export_data_in};
ghost use Rattle.types_declared.specs.PackageView.{package_of};
ghost use Rattle.refs_binding.specs.Exports.{number_named, ExportNamesBelow, AreExportsByName};

use go_ast::FileTree;
use go_scope::table::ScopeTable;
use std::alloc::{AllocError, Global};
use std::collections::BTreeMap;
use types_check::is_seen;
use types_declared::{ExportTable, Package};
use types_expr::symbol::SharedPath;

/// Adds the declaration `d` under its name, if the package exports it.
fn add_number(
    alloc: Global,
    unit: Package<'_>,
    numbers: &mut BTreeMap<Vec<u8>, usize>,
    d: usize,
) -> Result<(), AllocError>
    requires { d < length unit.table.now.sites }
    ensures { OnOk result (ExportNamesBelow (package_of unit.entry) d (number_named numbers.old) → ExportNamesBelow (package_of unit.entry) (d + 1) (number_named numbers.new)) }
{
    if is_seen(unit, d) {
        let name = Vec::from_slice(alloc, unit.table.name(d))?;
        numbers.insert(name, d)?;
    }
    Ok(())
}

/// Returns the numbers of the declarations that a package exports, by name.
pub fn numbers(alloc: Global, unit: Package<'_>) -> Result<BTreeMap<Vec<u8>, usize>, AllocError>
    ensures { IfOk result (λ numbers. AreExportsByName (package_of unit.entry) (number_named numbers)) }
{
    let mut numbers = BTreeMap::new(alloc);
    for d in 0..unit.table.len() {
        add_number(alloc, unit, &mut numbers, d)?;
    }
    Ok(numbers)
}

/// Returns the numbers of the declarations that the package of a path exports, by name.
pub fn numbers_by(
    alloc: Global,
    path: &SharedPath,
    files: &[FileTree],
    table: &ScopeTable<'_>,
    export_table: &ExportTable,
) -> Result<BTreeMap<Vec<u8>, usize>, AllocError>
    ensures { let p = package_in path.now (map source_of files.now) table.now (export_data_in export_table.now) in
        IfOk result (λ numbers. AreExportsByName p (number_named numbers)) }
{
    let unit = Package {
        path,
        files,
        table,
        export_table,
    };
    numbers(alloc, unit)
}
