//! Builds the export data of a package.
ghost use Rattle.std.specs.Prelude.{◌≡◌, ◌+◌, ◌<◌, ◌↔◌, None, length, map, slice_index_or, option_copied, option_map, IsTrue, IfOk, OnOk};
ghost use Rattle.go_ast.specs.SourceFile.{source_of};
ghost use Rattle.go_scope.specs.Bindings.{Counts};
ghost use Rattle.go_scope.specs.Packages.{layout_in, names_in};
ghost use Rattle.types_expr.specs.WorldView.{bound_of, bound_at};
ghost use Rattle.types_declared.specs.Files.{package_name};
ghost use Rattle.types_declared.specs.ExportTablesView.{export_of, exports_at, meaning_of, export_data_of};
ghost use Rattle.types_check.specs.Exports.{DoesExport, IsGlobalFound, IsExportFound, AreExportsBelow, IsExportedOnce, IsExportData};
ghost use Rattle.types_declared.specs.MeaningOf.{IsMeaningOf};
ghost use Rattle.types_info.specs.MeaningsView.{AreMeanings};
ghost use Rattle.types_info.specs.Uniqueness.{HasOneMeaning};
ghost use Rattle.types_info.specs.DefinitionsView.{HaveDefinitions};
ghost use Rattle.types_declared.specs.PackageView.{package_of};

use go_scope::model::Block;
use go_scope::table::ScopeTable;
use std::alloc::{AllocError, Global};
use std::collections::BTreeMap;
use types_declared::{Export, ExportData, ExportMeaning, Package, PackageScope, is_exported};
use types_expr::world::{Bound, Definition};
use types_info::{MeaningTable, copy_signature, has_one_meaning};

/// The meaning of an export whose declaration has this meaning; none where it is no package-level variable, type or function.
#[tactic(auto, unfolding(types_expr::specs::WorldView::bound_of, types_declared::specs::ExportTablesView::meaning_of))]
fn global_meaning(alloc: Global, bound: &Bound) -> Result<Option<ExportMeaning>, AllocError>
    ensures { IfOk result (λ m. IsGlobalFound (bound_of bound.now) (option_map meaning_of m)) }
{
    match bound {
        Bound::Variable(own) => Ok(Some(ExportMeaning::Variable(own.copy(alloc)?))),
        Bound::TypeName(own) => Ok(Some(ExportMeaning::TypeName(own.copy(alloc)?))),
        Bound::Function(own) => Ok(Some(ExportMeaning::Function(copy_signature(alloc, own)?))),
        Bound::Local(_)
        | Bound::Truth
        | Bound::Nil
        | Bound::Builtin(_)
        | Bound::Package
        | Bound::BrokenVariable
        | Bound::BrokenFunction
        | Bound::BrokenType => Ok(None),
    }
}

/// The meaning of the declaration `d`; none where it has none.
fn meant(bounds: &MeaningTable, d: usize) -> Option<&Bound>
    ensures { option_copied result ≡ bound_at bounds.now.list.items (slice_index_or bounds.now.of.items d None) }
{
    let place = bounds.get(d)?;
    bounds.list().get(place)
}

/// Whether `d` declares a name, and is the first of its block to do so.
fn counts(table: &ScopeTable<'_>, d: usize) -> bool
    requires { d < length table.now.sites }
    ensures { IsTrue result ↔ Counts (layout_in table.now) (names_in table.now) d }
{
    go_scope::laws::declarations_are_bound_to_themselves();
    table.declares(d) && table.binding(d).is_some()
}

/// Whether the package exports the declaration `d`.
pub fn is_seen(pkg: Package<'_>, d: usize) -> bool
    requires { d < length pkg.table.now.sites }
    ensures { IsTrue result ↔ DoesExport (package_of pkg.entry) d }
{
    pkg.table.role(d).block().same(Block::Package)
        && counts(pkg.table, d)
        && is_exported(pkg.table.name(d))
}

/// The export of the exported declaration `d` with this meaning; none where its type is broken.
fn export_by(
    alloc: Global,
    pkg: Package<'_>,
    d: usize,
    bound: &Bound,
) -> Result<Option<Export>, AllocError>
    requires seen { DoesExport (package_of pkg) d }
    requires means { IsMeaningOf (package_of pkg) d (bound_of bound.now) }
    requires one { HasOneMeaning (package_of pkg) }
    ensures { IfOk result (λ e. IsExportFound (package_of pkg.entry) d (option_map export_of e)) }
{
    match global_meaning(alloc, bound)? {
        None => Ok(None),
        Some(meaning) => Ok(Some(Export { meaning })),
    }
}

/// The export of the declaration `d`; none where the package doesn't export it or its type is broken.
fn export(
    alloc: Global,
    pkg: Package<'_>,
    bounds: &MeaningTable,
    d: usize,
) -> Result<Option<Export>, AllocError>
    requires in_range { d < length pkg.table.now.sites }
    requires bounds { AreMeanings (package_of pkg) bounds.now.list.items bounds.now.of.items }
    requires one { HasOneMeaning (package_of pkg) }
    ensures { IfOk result (λ e. IsExportFound (package_of pkg.entry) d (option_map export_of e)) }
{
    if !is_seen(pkg, d) {
        return Ok(None);
    }
    match meant(bounds, d) {
        None => Ok(None),
        Some(bound) => export_by(alloc, pkg, d, bound),
    }
}

/// Adds the export of the declaration `d`, if there is one.
fn add_export(
    alloc: Global,
    pkg: Package<'_>,
    bounds: &MeaningTable,
    found: &mut BTreeMap<Vec<u8>, Export>,
    d: usize,
) -> Result<(), AllocError>
    requires in_range { d < length pkg.table.now.sites }
    requires bounds { AreMeanings (package_of pkg) bounds.now.list.items bounds.now.of.items }
    requires one { HasOneMeaning (package_of pkg) }
    ensures { OnOk result (AreExportsBelow (package_of pkg.entry) d (exports_at found.old) → AreExportsBelow (package_of pkg.entry) (d + 1) (exports_at found.new)) }
{
    match export(alloc, pkg, bounds, d)? {
        None => Ok(()),
        Some(export) => {
            let name = Vec::from_slice(alloc, pkg.table.name(d))?;
            found.insert(name, export)?;
            Ok(())
        }
    }
}

/// Returns the exports of a package, by name.
fn exports(
    alloc: Global,
    pkg: Package<'_>,
    bounds: &MeaningTable,
) -> Result<BTreeMap<Vec<u8>, Export>, AllocError>
    requires bounds { AreMeanings (package_of pkg) bounds.now.list.items bounds.now.of.items }
    requires one { HasOneMeaning (package_of pkg) }
    ensures { IfOk result (λ found. AreExportsBelow (package_of pkg.entry) (length pkg.entry.table.now.sites) (exports_at found)) }
{
    let mut found = BTreeMap::new(alloc);
    for d in 0..pkg.table.len() {
        add_export(alloc, pkg, bounds, &mut found, d)?;
    }
    Ok(found)
}

/// The name in the package clause of a package's first file; empty where it has no file.
#[tactic(auto, unfolding(go_ast::specs::FileView::file_view))]
fn package_name(alloc: Global, pkg: Package<'_>) -> Result<Vec<u8>, AllocError>
    ensures { IfOk result (λ name. name.items ≡ package_name (map source_of pkg.entry.files.now)) }
{
    match pkg.files.first() {
        None => Ok(Vec::new(alloc)),
        Some(file) => Vec::from_slice(alloc, file.spelling(file.file().name as usize)),
    }
}

/// Builds the export data of a package from the meanings of its declarations and its type definitions.
pub fn export_data(
    alloc: Global,
    pkg: Package<'_>,
    bounds: &MeaningTable,
    definitions: Vec<Definition>,
) -> Result<ExportData, AllocError>
    requires bounds { AreMeanings (package_of pkg) bounds.now.list.items bounds.now.of.items }
    requires definitions { HaveDefinitions (package_of pkg) definitions.items }
    ensures { IfOk result (λ i. IsExportData (package_of pkg.entry) (export_data_of pkg.entry.path.now i)) }
{
    has_one_meaning(pkg);
    let name = package_name(alloc, pkg)?;
    let exported = exports(alloc, pkg, bounds)?;
    Ok(ExportData {
        scope: PackageScope { name, exported },
        definitions,
    })
}

/// A package has at most one export under a name.
pub fn exports_once(pkg: Package<'_>)
    ensures { IsExportedOnce (package_of pkg.entry) }
{
    has_one_meaning(pkg);
}
