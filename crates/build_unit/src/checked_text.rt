//! Prints the object of a package on which no verdict is known: it is checked, and printed by what checking found.
ghost use Rattle.std.specs.Prelude.{◌≡◌, ◌<◌, [], List, None, ℕ, length, map, IfOk, OnOk};
ghost use Rattle.base_files.specs.Packages.{package_paths};
ghost use Rattle.go_ast.specs.SourceFile.{SourceFile};
ghost use Rattle.workspace_graph.specs.Graphs.{IsPackage, OfPackage};
ghost use Rattle.types_declared.specs.States.{state_in};
ghost use Rattle.types_declared.specs.declared.states.ImportState.{ImportState};
ghost use Rattle.types_declared.specs.ExportTablesView.{export_data_in, name_in};
ghost use Rattle.types_declared.specs.PackageView.{package_of, IsIndexOf};
ghost use Rattle.types_info.specs.MeaningsView.{AreMeanings};
ghost use Rattle.types_info.specs.MemberUses.{AreEnterings, AreMemberUses, enterings_in, uses_in};
ghost use Rattle.types_check.specs.Check.{IsFindingBy, IsFindingIn, IsSoundTable, IsLaterFault, IsTableFound, AreMeaningsFound};
ghost use Rattle.workspace_check.specs.Steps.{IsCheckResult, IsGathered, SeesExactly, IsProgress};
ghost use Rattle.workspace_check.specs.KnownFindings.{verdicts_by, AreNamedEntries};
ghost use Rattle.workspace_check.specs.Verdicts.{AreSeen, AreStates, AreVerdictsBelow, Verdicts};
ghost use Rattle.build_object.specs.ObjectView.{AreObjectDefinitions, HaveNames};
ghost use Rattle.build_object.specs.Sources.{IsObjectText};
ghost use Rattle.build_unit.specs.Compiling.{IsPackageToBuild, MayBeText, MayPrint, found_definitions};

use crate::known_text::known_text;
use crate::naming::names_below;
use crate::package_at::PackageAt;
use base_files::FileText;
use build_object::objects::{Faultless, checked_object};
use build_object::packages::ObjectNames;
use go_scope::table::ScopeTable;
use std::alloc::{AllocError, Global};
use types_check::{Checked, CheckedPackage, check, check_package, table_of};
use types_declared::{ExportData, ExportTable, Index, Package};
use types_expr::symbol::SharedPath;
use types_expr::world::Definition;
use types_info::MeaningTable;
use workspace_check::{Progress, seen_imports};
use workspace_graph::ParsedPackage as Folder;

/// What checking found in a package, and the text of its object if it has no fault.
#[derive(Drop)]
pub(crate) struct CheckedText {
    checked: Checked,
    text: Option<FileText>,
}

/// The type definitions of export data, and none where there is no export data.
fn found_definitions(export_data: &Option<ExportData>) -> &[Definition]
    ensures { result.now ≡ found_definitions export_data.now }
{
    match export_data {
        None => &[],
        Some(export_data) => export_data.definitions.as_slice(),
    }
}

/// Prints the object of a package without faults, by what checking found.
fn printed<'a>(
    alloc: Global,
    unit: Package<'a>,
    index: &'a Index<'a>,
    checked: &'a Checked,
    bounds: &mut MeaningTable,
    packages: &'a ObjectNames<'a>,
) -> Result<FileText, AllocError>
    requires index { IsIndexOf (package_of unit) index.now }
    requires bounds { AreMeanings (package_of unit) bounds.old.list.items bounds.old.of.items }
    requires definitions { AreObjectDefinitions (package_of unit) (found_definitions checked.now.export_data) }
    ensures { IfOk result (λ text. (files_of : List ℕ → List SourceFile) → AreMemberUses (package_of unit.entry) (map uses_in checked.now.members.items) → AreEnterings (package_of unit.entry) (map enterings_in checked.now.enterings.items) → HaveNames packages.now files_of → IsObjectText (package_of unit.entry) files_of text) }
{
    let given = Faultless {
        path: unit.path,
        files: unit.files,
        definitions: found_definitions(&checked.export_data),
        members: checked.members.as_slice(),
        enterings: checked.enterings.as_slice(),
    };
    let text = checked_object(alloc, unit, index, bounds, given, packages)?;
    FileText::new(alloc, text)
}

/// Adds the text of the object to what checking found, if the package has no fault.
fn with_text(
    alloc: Global,
    at: PackageAt<'_>,
    unit: Package<'_>,
    index: &Index<'_>,
    found: CheckedPackage,
) -> Result<CheckedText, AllocError>
    requires number { at.number < length (package_paths at.graph.now) }
    requires at { OfPackage at.graph.now at.number (IsPackageToBuild at) }
    requires index { IsIndexOf (package_of unit) index.now }
    requires checked { IsFindingBy (IsLaterFault (package_of unit)) (package_of unit) found.checked }
    requires bounds { AreMeaningsFound (package_of unit) found }
    ensures checked { IfOk result (λ made. IsFindingBy (IsLaterFault (package_of unit.entry)) (package_of unit.entry) made.checked) }
    ensures text { IfOk result (λ made. OfPackage at.entry.graph.now at.entry.number (λ p. MayPrint at.entry.graph.now p (package_of unit.entry) made.text)) }
{
    let CheckedPackage { checked, bounds } = found;
    let Some(meant) = bounds else {
        return Ok(CheckedText {
            checked,
            text: None,
        });
    };
    let mut bounds = meant;
    let packages = names_below(alloc, at)?;
    let text = printed(alloc, unit, index, &checked, &mut bounds, &packages)?;
    Ok(CheckedText {
        checked,
        text: Some(text),
    })
}

/// Checks a package whose clauses and imports have no faults, and prints its object if it has none at all.
fn unit_text(alloc: Global, at: PackageAt<'_>, unit: Package<'_>) -> Result<CheckedText, AllocError>
    requires number { at.number < length (package_paths at.graph.now) }
    requires at { OfPackage at.graph.now at.number (IsPackageToBuild at) }
    ensures checked { IfOk result (λ made. IsFindingBy (IsLaterFault (package_of unit.entry)) (package_of unit.entry) made.checked) }
    ensures text { IfOk result (λ made. OfPackage at.entry.graph.now at.entry.number (λ p. MayPrint at.entry.graph.now p (package_of unit.entry) made.text)) }
{
    let index = Index::of(alloc, unit)?;
    let found = check_package(alloc, unit, &index)?;
    with_text(alloc, at, unit, &index, found)
}

/// Checks a package without printing it: its clauses or imports have a fault.
fn no_text(
    alloc: Global,
    path: &SharedPath,
    files: &Folder,
    export_table: &ExportTable,
) -> Result<CheckedText, AllocError>
    ensures found { IfOk result (λ made. IsFindingIn path.now files.now.trees.items (state_in export_table.now.states) (name_in export_table.now) (export_data_in export_table.now) made.checked) }
    ensures text { IfOk result (λ made. made.text ≡ None) }
{
    let checked = check(alloc, path, &files.trees, export_table)?;
    Ok(CheckedText {
        checked,
        text: None,
    })
}

/// The path of a package, its files, and what it sees of other packages.
#[derive(Clone, Copy)]
struct Seeing<'a> {
    path: &'a SharedPath,
    files: &'a Folder,
    export_table: &'a ExportTable,
}

/// Checks a package by its scope table, and prints its object if it has no fault. Each of its files has a tree, and its clauses and imports
/// have no faults.
fn table_text<'a>(
    alloc: Global,
    at: PackageAt<'_>,
    of: Seeing<'a>,
    table: ScopeTable<'a>,
) -> Result<CheckedText, AllocError>
    requires at { IsPackageToBuild at of.path.now }
    requires files { IsPackage at.graph.now at.number of.files.now }
    requires read { of.files.now.faulty.items ≡ [] }
    ensures checked { IfOk result (λ made. (known : Verdicts) → (state : List ℕ → ImportState) → IsSoundTable of.entry.files.now.trees.items state (name_in of.entry.export_table.now) table.entry → AreSeen at.entry.graph.now known of.entry.path.now (name_in of.entry.export_table.now) (export_data_in of.entry.export_table.now) → AreStates at.entry.graph.now known of.entry.path.now state → IsCheckResult at.entry.graph.now known of.entry.path.now made.checked) }
    ensures text { IfOk result (λ made. (known : Verdicts) → (state : List ℕ → ImportState) → IsSoundTable of.entry.files.now.trees.items state (name_in of.entry.export_table.now) table.entry → AreSeen at.entry.graph.now known of.entry.path.now (name_in of.entry.export_table.now) (export_data_in of.entry.export_table.now) → AreVerdictsBelow at.entry.graph.now of.entry.path.now known → MayBeText at.entry.graph.now of.entry.path.now made.text) }
{
    let unit = Package {
        path: of.path,
        files: of.files.trees.as_slice(),
        table: &table,
        export_table: of.export_table,
    };
    unit_text(alloc, at, unit)
}

/// Checks a package, and prints its object if it has no fault. It has a scope table if its clauses and imports have no faults. Each of its
/// files has a tree.
fn laid_text<'a>(
    alloc: Global,
    at: PackageAt<'_>,
    of: Seeing<'a>,
    found: Option<ScopeTable<'a>>,
) -> Result<CheckedText, AllocError>
    requires at { IsPackageToBuild at of.path.now }
    requires files { IsPackage at.graph.now at.number of.files.now }
    requires read { of.files.now.faulty.items ≡ [] }
    requires found { IsTableFound of.files.now.trees.items (state_in of.export_table.now.states) (name_in of.export_table.now) found }
    ensures checked { IfOk result (λ made. (known : Verdicts) → AreSeen at.entry.graph.now known of.entry.path.now (name_in of.entry.export_table.now) (export_data_in of.entry.export_table.now) → AreStates at.entry.graph.now known of.entry.path.now (state_in of.entry.export_table.now.states) → IsCheckResult at.entry.graph.now known of.entry.path.now made.checked) }
    ensures text { IfOk result (λ made. (known : Verdicts) → AreSeen at.entry.graph.now known of.entry.path.now (name_in of.entry.export_table.now) (export_data_in of.entry.export_table.now) → AreVerdictsBelow at.entry.graph.now of.entry.path.now known → MayBeText at.entry.graph.now of.entry.path.now made.text) }
{
    match found {
        None => no_text(alloc, of.path, of.files, of.export_table),
        Some(table) => table_text(alloc, at, of, table),
    }
}

/// Checks a package by what it sees of other packages, and prints its object if it has no fault. Each of its files has a tree.
fn seen_text<'a>(
    alloc: Global,
    at: PackageAt<'_>,
    path: &'a SharedPath,
    files: &'a Folder,
    export_table: &'a ExportTable,
) -> Result<CheckedText, AllocError>
    requires at { IsPackageToBuild at path.now }
    requires files { IsPackage at.graph.now at.number files.now }
    requires read { files.now.faulty.items ≡ [] }
    ensures checked { IfOk result (λ made. (known : Verdicts) → AreSeen at.entry.graph.now known path.now (name_in export_table.now) (export_data_in export_table.now) → AreStates at.entry.graph.now known path.now (state_in export_table.now.states) → IsCheckResult at.entry.graph.now known path.now made.checked) }
    ensures text { IfOk result (λ made. (known : Verdicts) → AreSeen at.entry.graph.now known path.now (name_in export_table.now) (export_data_in export_table.now) → AreVerdictsBelow at.entry.graph.now path.now known → MayBeText at.entry.graph.now path.now made.text) }
{
    let found = table_of(alloc, export_table.states(), &files.trees, export_table)?;
    let of = Seeing {
        path,
        files,
        export_table,
    };
    laid_text(alloc, at, of, found)
}

/// Checks a package by the export data of all packages, and prints its object if it has no fault. Each of its files has a tree.
fn text_by_imports(
    alloc: Global,
    at: PackageAt<'_>,
    path: &SharedPath,
    files: &Folder,
    all: &ExportTable,
) -> Result<CheckedText, AllocError>
    requires at { IsPackageToBuild at path.now }
    requires files { IsPackage at.graph.now at.number files.now }
    requires read { files.now.faulty.items ≡ [] }
    requires whole { AreNamedEntries all.now }
    ensures checked { IfOk result (λ made. IsCheckResult at.entry.graph.now (verdicts_by all.now) path.now made.checked) }
    ensures text { IfOk result (λ made. AreVerdictsBelow at.entry.graph.now path.now (verdicts_by all.now) → MayBeText at.entry.graph.now path.now made.text) }
{
    let export_table = seen_imports(alloc, at.graph, at.number, all)?;
    seen_text(alloc, at, path, files, &export_table)
}

/// Checks a package, and prints its object if it has no fault. `of.export_table` has exactly what the package sees of others, and `noted` the
/// states of its imports. Each of its files has a tree.
fn text_by_states<'a>(
    alloc: Global,
    at: PackageAt<'_>,
    of: Seeing<'a>,
    noted: &ExportTable,
) -> Result<CheckedText, AllocError>
    requires at { IsPackageToBuild at of.path.now }
    requires files { IsPackage at.graph.now at.number of.files.now }
    requires read { of.files.now.faulty.items ≡ [] }
    requires whole { AreNamedEntries of.export_table.now }
    requires told { SeesExactly at.graph.now of.path.now of.export_table.now }
    requires states { AreStates at.graph.now (verdicts_by of.export_table.now) of.path.now (state_in noted.now.states) }
    ensures checked { IfOk result (λ made. IsCheckResult at.entry.graph.now (verdicts_by of.entry.export_table.now) of.entry.path.now made.checked) }
    ensures text { IfOk result (λ made. AreVerdictsBelow at.entry.graph.now of.entry.path.now (verdicts_by of.entry.export_table.now) → MayBeText at.entry.graph.now of.entry.path.now made.text) }
{
    let found = table_of(alloc, noted.states(), &of.files.trees, of.export_table)?;
    match found {
        None => text_by_imports(alloc, at, of.path, of.files, of.export_table),
        Some(table) => table_text(alloc, at, of, table),
    }
}

/// Checks a package by what was gathered for it, and prints its object if it has no fault. Each of its files has a tree. Where its clauses
/// or imports have a fault, it is checked by its own imports.
fn gathered_text(
    alloc: Global,
    at: PackageAt<'_>,
    path: &SharedPath,
    files: &Folder,
    progress: &Progress,
) -> Result<CheckedText, AllocError>
    requires at { IsPackageToBuild at path.now }
    requires files { IsPackage at.graph.now at.number files.now }
    requires read { files.now.faulty.items ≡ [] }
    requires right { IsProgress at.graph.now at.number progress.now }
    requires told { SeesExactly at.graph.now path.now progress.now.all.export_table }
    ensures checked { IfOk result (λ made. IsCheckResult at.entry.graph.now (verdicts_by progress.now.all.export_table) path.now made.checked) }
    ensures text { IfOk result (λ made. AreVerdictsBelow at.entry.graph.now path.now (verdicts_by progress.now.all.export_table) → MayBeText at.entry.graph.now path.now made.text) }
{
    let noted = progress.import_states(alloc, at.graph, at.number)?;
    let of = Seeing {
        path,
        files,
        export_table: progress.export_table(),
    };
    text_by_states(alloc, at, of, &noted)
}

/// Checks a package on which no verdict is known, and takes in what checking found. Returns the text of its object if it has no fault. Each
/// of its files has a tree.
fn learn_text(
    alloc: Global,
    at: PackageAt<'_>,
    path: &SharedPath,
    files: &Folder,
    progress: &mut Progress,
) -> Result<Option<FileText>, AllocError>
    requires at { IsPackageToBuild at path.now }
    requires files { IsPackage at.graph.now at.number files.now }
    requires read { files.now.faulty.items ≡ [] }
    requires right { IsProgress at.graph.now at.number progress.old }
    requires told { SeesExactly at.graph.now path.now progress.old.all.export_table }
    requires unknown { IsGathered progress.old.all.findings.items at.number → ⊥ }
    ensures right { OnOk result (IsProgress at.entry.graph.now at.entry.number progress.new) }
    ensures text { IfOk result (MayBeText at.entry.graph.now path.now) }
{
    let made = gathered_text(alloc, at, path, files, progress)?;
    let CheckedText { checked, text } = made;
    let own = path.clone()?;
    progress.learn(alloc, at.graph, at.number, own, checked)?;
    Ok(text)
}

/// The text of the object of a package, if it has no fault. Where no verdict on it is known and each of its files has a tree, it is
/// checked. `None` for a faultless package is no loss: its object is printed later.
pub(crate) fn text_if_faultless(
    alloc: Global,
    at: PackageAt<'_>,
    path: &SharedPath,
    progress: &mut Progress,
) -> Result<Option<FileText>, AllocError>
    requires at { IsPackageToBuild at path.now }
    requires right { IsProgress at.graph.now at.number progress.old }
    requires told { SeesExactly at.graph.now path.now progress.old.all.export_table }
    requires unknown { IsGathered progress.old.all.findings.items at.number → ⊥ }
    ensures right { OnOk result (IsProgress at.entry.graph.now at.entry.number progress.new) }
    ensures text { IfOk result (MayBeText at.entry.graph.now path.now) }
{
    let files = at.graph.package(at.number);
    if let Some(verdict) = at.known.get(at.number) {
        return known_text(alloc, at, path, verdict, progress);
    }
    if !files.faulty.is_empty() {
        return Ok(None);
    }
    learn_text(alloc, at, path, files, progress)
}
