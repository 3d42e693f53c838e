//! Checks a package: finds all its faults. Where it has none, it finds its export data, its uses of members and its qualified identifiers,
//! and the entries of values into interfaces.
ghost use Rattle.std.specs.Prelude.{ℕ, List, Option, None, ◌≡◌, map, IfOk};
ghost use Rattle.std.specs.List.Sorted.{IsStrictlySortedBy};
ghost use Rattle.types_declared.specs.contracts.fault.FaultOrd.TheImpl as order;
ghost use Rattle.go_ast.specs.SourceFile.{FileParts, source_of};
ghost use Rattle.go_scope.specs.Packages.{scoped};
ghost use Rattle.types_declared.specs.PackageNames.{IsLaidOver};
ghost use Rattle.types_declared.specs.Package.{Package as Plain, ExportData as Exported};
ghost use Rattle.types_declared.specs.ExportTablesView.{name_in, export_data_in};
ghost use Rattle.types_declared.specs.Listing.{HoldsExactly};
ghost use Rattle.types_declared.specs.Stage.{FirstOf};
ghost use Rattle.types_declared.specs.States.{state_in};
ghost use Rattle.types_declared.specs.Broken.{AreBroken};
ghost use Rattle.types_members.specs.MemberFaults.{IsMemberFault};
ghost use Rattle.types_info.specs.DefinitionsView.{HaveDefinitions};
ghost use Rattle.types_check.specs.TypeFaults.{IsTypeFault};
ghost use Rattle.types_info.specs.PackageOf.{package_in, IsPackageOf};
ghost use Rattle.types_check.specs.Check.{IsFindingBy, IsFindingOfPackage, IsLaterFault, IsFindingIn, IsTableFound, AreMeaningsFound};
ghost use Rattle.types_members.specs.TypeMembers.{AreMembers};
ghost use Rattle.types_info.specs.MeaningsView.{AreMeanings};
ghost use Rattle.types_info.specs.MemberUses.{AreEnterings, AreMemberUses, enterings_in, uses_in};
ghost use Rattle.types_declared.specs.PackageView.{package_of, IsIndexOf};

use crate::definitions::definitions;
use crate::exporting::export_data;
use crate::type_faults::{Typed, type_faults};
use go_ast::FileTree;
use go_scope::declare::declare;
use go_scope::table::ScopeTable;
use std::alloc::{AllocError, Global};
use types_declared::{
    ExportData, ExportTable, Fault, ImportStates, Index, Package, broken_definitions, lay_names,
};
use types_expr::found::{Entering, MemberUse};
use types_expr::symbol::SharedPath;
use types_expr::world::Definition;
use types_info::{MeaningTable, Qualified, meanings_of, qualified_identifiers};
use types_members::{Members, member_faults};
use types_resolve::{inner_faults, outer_faults};

/// The finding of a package: its faults, sorted by file and token. Where it has none, also its export data, the uses of members
/// and the entries of each file by rank, and the qualified identifiers.
#[derive(Drop)]
pub struct Checked {
    pub faults: Vec<Fault>,
    pub export_data: Option<ExportData>,
    pub members: Vec<Vec<MemberUse>>,
    pub enterings: Vec<Vec<Entering>>,
    pub qualified: Vec<Qualified>,
}

impl Checked {
    /// The finding of a package with these faults.
    fn faulty(alloc: Global, faults: Vec<Fault>) -> Checked
        ensures faults { result.faults ≡ faults }
        ensures export_data { result.export_data ≡ None }
    {
        Checked {
            faults,
            export_data: None,
            members: Vec::new(alloc),
            enterings: Vec::new(alloc),
            qualified: Vec::new(alloc),
        }
    }
}

/// The finding of a package, and where it has no fault, the meanings of its declarations, for later use.
#[derive(Drop)]
pub struct CheckedPackage {
    pub checked: Checked,
    pub bounds: Option<MeaningTable>,
}

impl CheckedPackage {
    /// The finding of a package with these faults.
    fn faulty(alloc: Global, faults: Vec<Fault>) -> CheckedPackage
        ensures faults { result.checked.faults ≡ faults }
        ensures export_data { result.checked.export_data ≡ None }
        ensures bounds { result.bounds ≡ None }
    {
        CheckedPackage {
            checked: Checked::faulty(alloc, faults),
            bounds: None,
        }
    }
}

/// Makes the finding of a package from the types' faults, the uses of members and the entries of its files.
fn judged(
    alloc: Global,
    pkg: Package<'_>,
    index: &Index<'_>,
    bounds: MeaningTable,
    definitions: Vec<Definition>,
    typed: Typed,
) -> Result<CheckedPackage, AllocError>
    requires index { IsIndexOf (package_of pkg) index.now }
    requires bounds { AreMeanings (package_of pkg) bounds.list.items bounds.of.items }
    requires definitions { HaveDefinitions (package_of pkg) definitions.items }
    requires listed { HoldsExactly (IsTypeFault (package_of pkg)) typed.faults.items }
    requires order { IsStrictlySortedBy order.ghosts.cmp typed.faults.items }
    requires members { AreMemberUses (package_of pkg) (map uses_in typed.members.items) }
    requires enterings { AreEnterings (package_of pkg) (map enterings_in typed.enterings.items) }
    ensures checked { IfOk result (λ c. IsFindingBy (IsTypeFault (package_of pkg.entry)) (package_of pkg.entry) c.checked) }
    ensures bounds { IfOk result (AreMeaningsFound (package_of pkg.entry)) }
{
    if !typed.faults.is_empty() {
        return Ok(CheckedPackage::faulty(alloc, typed.faults));
    }
    let export_data = export_data(alloc, pkg, &bounds, definitions)?;
    let qualified = qualified_identifiers(alloc, pkg, index)?;
    let checked = Checked {
        faults: typed.faults,
        export_data: Some(export_data),
        members: typed.members,
        enterings: typed.enterings,
        qualified,
    };
    Ok(CheckedPackage {
        checked,
        bounds: Some(bounds),
    })
}

/// Checks types, the last stage.
fn check_types(
    alloc: Global,
    pkg: Package<'_>,
    index: &Index<'_>,
    broken: &[bool],
    definitions: Vec<Definition>,
) -> Result<CheckedPackage, AllocError>
    requires index { IsIndexOf (package_of pkg) index.now }
    requires broken { AreBroken (package_of pkg) broken.now }
    requires definitions { HaveDefinitions (package_of pkg) definitions.items }
    ensures checked { IfOk result (λ c. IsFindingBy (IsTypeFault (package_of pkg.entry)) (package_of pkg.entry) c.checked) }
    ensures bounds { IfOk result (AreMeaningsFound (package_of pkg.entry)) }
{
    let mut bounds = meanings_of(alloc, pkg, index, broken)?;
    let typed = type_faults(alloc, pkg, index, &mut bounds, &definitions)?;
    judged(alloc, pkg, index, bounds, definitions, typed)
}

/// Checks types, the last stage, given the underlying types, fields and methods.
fn check_definitions(
    alloc: Global,
    pkg: Package<'_>,
    index: &Index<'_>,
    members: &Members<'_>,
) -> Result<CheckedPackage, AllocError>
    requires index { IsIndexOf (package_of pkg) index.now }
    requires members { AreMembers (package_of pkg) members.now }
    ensures checked { IfOk result (λ c. IsFindingBy (IsTypeFault (package_of pkg.entry)) (package_of pkg.entry) c.checked) }
    ensures bounds { IfOk result (AreMeaningsFound (package_of pkg.entry)) }
{
    let broken = broken_definitions(alloc, pkg, index)?;
    let definitions = definitions(alloc, pkg, index, &broken, members)?;
    check_types(alloc, pkg, index, &broken, definitions)
}

/// Checks members and then types, the last two stages, given the underlying types, fields and methods.
fn check_known(
    alloc: Global,
    pkg: Package<'_>,
    index: &Index<'_>,
    members: &Members<'_>,
) -> Result<CheckedPackage, AllocError>
    requires index { IsIndexOf (package_of pkg) index.now }
    requires members { AreMembers (package_of pkg) members.now }
    ensures checked { IfOk result (λ c. IsFindingBy (FirstOf (IsMemberFault (package_of pkg.entry)) (IsTypeFault (package_of pkg.entry))) (package_of pkg.entry) c.checked) }
    ensures bounds { IfOk result (AreMeaningsFound (package_of pkg.entry)) }
{
    let faults = member_faults(alloc, pkg, index, members)?;
    if !faults.is_empty() {
        return Ok(CheckedPackage::faulty(alloc, faults));
    }
    check_definitions(alloc, pkg, index, members)
}

/// Checks members and then types, the last two stages.
fn check_members(
    alloc: Global,
    pkg: Package<'_>,
    index: &Index<'_>,
) -> Result<CheckedPackage, AllocError>
    requires { IsIndexOf (package_of pkg) index.now }
    ensures checked { IfOk result (λ c. IsFindingBy (FirstOf (IsMemberFault (package_of pkg.entry)) (IsTypeFault (package_of pkg.entry))) (package_of pkg.entry) c.checked) }
    ensures bounds { IfOk result (AreMeaningsFound (package_of pkg.entry)) }
{
    let members = Members::of(alloc, pkg, index)?;
    check_known(alloc, pkg, index, &members)
}

/// Checks scopes, members and types of a package whose clauses and imports have no faults, given its index.
pub fn check_package(
    alloc: Global,
    pkg: Package<'_>,
    index: &Index<'_>,
) -> Result<CheckedPackage, AllocError>
    requires { IsIndexOf (package_of pkg) index.now }
    ensures checked { IfOk result (λ c. IsFindingBy (IsLaterFault (package_of pkg.entry)) (package_of pkg.entry) c.checked) }
    ensures bounds { IfOk result (AreMeaningsFound (package_of pkg.entry)) }
{
    let faults = inner_faults(alloc, pkg.table, pkg.files, pkg.export_table)?;
    if !faults.is_empty() {
        return Ok(CheckedPackage::faulty(alloc, faults));
    }
    check_members(alloc, pkg, index)
}

/// Returns the scope table of a package in which each import without a name declares the name of the imported package.
fn laid<'a>(
    alloc: Global,
    files: &'a [FileTree],
    export_table: &'a ExportTable,
) -> Result<ScopeTable<'a>, AllocError>
    ensures { IfOk result (λ table. IsLaidOver (map source_of files.now) (name_in export_table.now) (scoped files.now) table) }
{
    let plain = declare(alloc, files)?;
    lay_names(alloc, plain, files, export_table)
}

/// Returns the scope table of a package in which each import without a name declares the name of the imported package; none where its
/// clauses or imports have faults.
pub fn table_of<'a>(
    alloc: Global,
    states: &ImportStates,
    files: &'a [FileTree],
    export_table: &'a ExportTable,
) -> Result<Option<ScopeTable<'a>>, AllocError>
    ensures { IfOk result (IsTableFound files.now (state_in states.now) (name_in export_table.now)) }
{
    let faults = outer_faults(alloc, states, files)?;
    if !faults.is_empty() {
        return Ok(None);
    }
    let table = laid(alloc, files, export_table)?;
    Ok(Some(table))
}

/// Checks a package whose clauses and imports have no faults, given its scope table.
fn check_laid(
    alloc: Global,
    path: &SharedPath,
    files: &[FileTree],
    table: &ScopeTable<'_>,
    export_table: &ExportTable,
) -> Result<Checked, AllocError>
    ensures { IfOk result (λ c. let p = package_in path.now (map source_of files.now) table.now (export_data_in export_table.now) in IsFindingBy (IsLaterFault p) p c) }
{
    let pkg = Package {
        path,
        files,
        table,
        export_table,
    };
    let index = Index::of(alloc, pkg)?;
    let CheckedPackage { checked, bounds: _ } = check_package(alloc, pkg, &index)?;
    Ok(checked)
}

/// Checks the package at a path, stage by stage. Its files and the export data live equally long.
fn check_files<'a>(
    alloc: Global,
    path: &SharedPath,
    files: &'a [FileTree],
    export_table: &'a ExportTable,
) -> Result<Checked, AllocError>
    ensures order { IfOk result (λ c. IsStrictlySortedBy order.ghosts.cmp c.faults.items) }
    ensures found { IfOk result (IsFindingIn path.now files.now (state_in export_table.now.states) (name_in export_table.now) (export_data_in export_table.now)) }
    ensures checked { IfOk result (λ c. (p : Plain) → IsPackageOf path.now files.now (name_in export_table.now) (export_data_in export_table.now) p → IsFindingOfPackage (state_in export_table.now.states) p c) }
{
    let faults = outer_faults(alloc, export_table.states(), files)?;
    if !faults.is_empty() {
        return Ok(Checked::faulty(alloc, faults));
    }
    let table = laid(alloc, files, export_table)?;
    check_laid(alloc, path, files, &table, export_table)
}

/// Checks the package at a path. Its files are in the order of their paths.
pub fn check(
    alloc: Global,
    path: &SharedPath,
    files: &[FileTree],
    export_table: &ExportTable,
) -> Result<Checked, AllocError>
    ensures order { IfOk result (λ c. IsStrictlySortedBy order.ghosts.cmp c.faults.items) }
    ensures found { IfOk result (IsFindingIn path.now files.now (state_in export_table.now.states) (name_in export_table.now) (export_data_in export_table.now)) }
    ensures checked { IfOk result (λ c. (p : Plain) → IsPackageOf path.now files.now (name_in export_table.now) (export_data_in export_table.now) p → IsFindingOfPackage (state_in export_table.now.states) p c) }
{
    check_files(alloc, path, files, export_table)
}

/// A path, files and the export data of other packages determine the package to check.
pub fn packages_are_unique()
    ensures { (path : List ℕ) → (files : List FileParts) → (name_of : List ℕ → Option (List ℕ)) → (export_data_of : List ℕ → Exported) → (p q : Plain) →
        IsPackageOf path files name_of export_data_of p → IsPackageOf path files name_of export_data_of q → p ≡ q }
{}
