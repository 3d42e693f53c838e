//! The type definitions to which fields and methods belong. Each package that declares one of them is read once.
ghost use Rattle.std.specs.Prelude.{ℕ, ◌≡◌, ◌<◌, None, Some, Contains, IfOk, length, map, slice_get, slice_index_or};
ghost use Rattle.base_files.specs.Packages.{package_paths};
ghost use Rattle.types_declared.specs.Package.{Package as Checked};
ghost use Rattle.types_declared.specs.PackageView.{package_of, IsIndexOf};
ghost use Rattle.types_declared.specs.Definitions.{package_fields};
ghost use Rattle.refs_binding.specs.declared.declaration.Declaration.{Declaration as Named};
ghost use Rattle.refs_binding.specs.Indexed.{IsPackageNumber, IsPackageNumbered};
ghost use Rattle.refs_binding.specs.Packages.{HoldsOfEach, IsTableAs};
ghost use Rattle.refs_binding.specs.Uses.{IsCheckedPackage};
ghost use Rattle.refs_binding.specs.Workspaces.{known_in};
ghost use Rattle.refactor_conflict.specs.MembersFound.{IsRankFound};
ghost use Rattle.refactor_members.specs.Owning.{AreOwnersIfMarked, AreOwnersIn, KnowsHomeOf};
ghost use Rattle.refactor_members.specs.Renames.{IsDefinitionIn, IsDefinitionOf};

use go_scope::table::ScopeTable;
use refs_binding::indexed::{Numbered, unit_of};
use refs_binding::{Declaration, FaultlessWorkspace, read_table, seen_by};
use refs_places::declared_places::package_path;
use refs_places::home_marks;
use std::alloc::{AllocError, Global};
use types_declared::{ExportTable, Index, Package};
use types_members::{FieldDef, fields, owners};
use workspace_check::is_marked;

/// The type definitions to which the fields and the methods of a package belong, by the ranks of these.
#[derive(Drop)]
pub(crate) struct MemberOwners {
    fields: Vec<usize>,
    methods: Vec<Option<usize>>,
}

/// The type definition that a list has for the field of a rank.
fn listed_definition(definitions: &[usize], rank: usize) -> Option<usize>
    ensures { result ≡ slice_get definitions.now rank }
{
    match definitions.get(rank) {
        None => None,
        Some(definition) => Some(*definition),
    }
}

/// The type definition that a list has for the method of a rank.
fn listed_owner(owners: &[Option<usize>], rank: usize) -> Option<usize>
    ensures { result ≡ slice_index_or owners.now rank None }
{
    *owners.get(rank)?
}

impl MemberOwners {
    /// The type definition that has a field or method of the package.
    fn of(&self, member: &Declaration) -> Option<usize>
        ensures { (p : Checked) → AreOwnersIn p self.now → IsRankFound (IsDefinitionIn p member.now) result }
    {
        match member {
            Declaration::Predeclared(_) | Declaration::Declared(_, _) => None,
            Declaration::Field(symbol) => listed_definition(&self.fields, symbol.rank),
            Declaration::Method(symbol) => listed_owner(&self.methods, symbol.rank),
        }
    }
}

/// The type definitions that have the fields of a list.
fn definitions_of(alloc: Global, fields: Vec<FieldDef<'_>>) -> Result<Vec<usize>, AllocError>
    ensures { IfOk result (λ owners. owners.items ≡ map (λ f. f.definition) fields.entry.items) }
{
    let mut owners = Vec::new(alloc);
    for field in fields {
        owners.push(field.definition)?;
    }
    Ok(owners)
}

/// The type definitions that have the fields of a package, by the ranks of these.
fn field_owners(
    alloc: Global,
    unit: Package<'_>,
    index: &Index<'_>,
) -> Result<Vec<usize>, AllocError>
    requires { IsIndexOf (package_of unit) index.now }
    ensures { IfOk result (λ owners. owners.items ≡ map (λ f. f.definition) (package_fields (package_of unit.entry))) }
{
    let fields = fields(alloc, unit, index)?;
    definitions_of(alloc, fields)
}

/// The type definitions that have the members of a package.
fn owners_in(alloc: Global, unit: Package<'_>) -> Result<MemberOwners, AllocError>
    ensures { IfOk result (AreOwnersIn (package_of unit.entry)) }
{
    let index = Index::of(alloc, unit)?;
    let fields = field_owners(alloc, unit, &index)?;
    let methods = owners(alloc, unit, &index)?;
    Ok(MemberOwners { fields, methods })
}

/// The type definitions that have the members of the package of a number. The package's table and what it sees of others are given.
fn owners_by(
    alloc: Global,
    at: Numbered<'_>,
    seen: &ExportTable,
    table: &ScopeTable<'_>,
) -> Result<MemberOwners, AllocError>
    requires numbered { IsPackageNumber at }
    requires table { IsTableAs at.workspace.now.graph (known_in at.workspace.now.findings) at.number table.now seen.now }
    ensures { IfOk result (λ found. (p : Checked) → IsPackageNumbered at.entry p → AreOwnersIn p found) }
{
    owners_in(alloc, unit_of(at, seen, table))
}

/// The type definitions that have the members of the package of a number.
fn owners_at(alloc: Global, at: Numbered<'_>) -> Result<MemberOwners, AllocError>
    requires { IsPackageNumber at }
    ensures { IfOk result (λ found. (p : Checked) → IsPackageNumbered at.entry p → AreOwnersIn p found) }
{
    let seen = seen_by(alloc, at.workspace, at.number)?;
    let table = read_table(alloc, at.workspace, &seen, at.number)?;
    owners_by(alloc, at, &seen, &table)
}

/// The type definitions that have the members of the package of a number, if it is marked.
fn owners_if_marked(
    alloc: Global,
    at: Numbered<'_>,
    marks: &[bool],
) -> Result<Option<MemberOwners>, AllocError>
    requires { IsPackageNumber at }
    ensures { IfOk result (AreOwnersIfMarked at.entry.workspace.now.graph (known_in at.entry.workspace.now.findings) marks.now at.entry.number) }
{
    if !is_marked(marks, at.number) {
        return Ok(None);
    }
    Ok(Some(owners_at(alloc, at)?))
}

/// The type definitions that have the members of each marked package.
fn owners_of_marked(
    alloc: Global,
    workspace: &FaultlessWorkspace<'_>,
    marks: &[bool],
) -> Result<Vec<Option<MemberOwners>>, AllocError>
    ensures { IfOk result (λ all. HoldsOfEach (AreOwnersIfMarked workspace.now.graph (known_in workspace.now.findings) marks.now) (length (package_paths workspace.now.graph)) all.items) }
{
    let mut all = Vec::new(alloc);
    for number in 0..workspace.len() {
        let at = Numbered {
            workspace: &*workspace,
            number,
        };
        all.push(owners_if_marked(alloc, at, marks)?)?;
    }
    Ok(all)
}

/// The type definitions that have the members of each package which declares one of a list.
pub(crate) fn owners_of_homes(
    alloc: Global,
    workspace: &FaultlessWorkspace<'_>,
    set: &[Declaration],
) -> Result<Vec<Option<MemberOwners>>, AllocError>
    ensures { IfOk result (λ all. (d : Named) → Contains set.now d → KnowsHomeOf workspace.now.graph (known_in workspace.now.findings) all.items d) }
{
    let marks = home_marks(alloc, workspace.graph, set)?;
    owners_of_marked(alloc, workspace, &marks)
}

/// The type definition that has a field or method, if the owners of the members of its package are known.
fn definition_by(known: &Option<MemberOwners>, member: &Declaration) -> Option<usize>
    ensures { (owners : MemberOwners) → known.now ≡ Some owners → (p : Checked) → AreOwnersIn p owners → IsRankFound (IsDefinitionIn p member.now) result }
{
    match known {
        None => None,
        Some(owners) => owners.of(member),
    }
}

/// The type definition in the package of a number that has a field or method.
fn definition_at(all: &[Option<MemberOwners>], number: usize, member: &Declaration) -> Option<usize>
    ensures { (owners : MemberOwners) → slice_get all.now number ≡ Some (Some owners) → (p : Checked) → AreOwnersIn p owners →
        IsRankFound (IsDefinitionIn p member.now) result }
{
    match all.get(number) {
        None => None,
        Some(known) => definition_by(known, member),
    }
}

/// The rank of the type definition that has a field or method, if the workspace has it.
pub(crate) fn definition_of(
    workspace: &FaultlessWorkspace<'_>,
    all: &[Option<MemberOwners>],
    member: &Declaration,
) -> Option<usize>
    requires { KnowsHomeOf workspace.now.graph (known_in workspace.now.findings) all.now member.now }
    ensures { IsRankFound (IsDefinitionOf (IsCheckedPackage workspace.now.graph (known_in workspace.now.findings)) member.now) result }
{
    workspace.has_no_faults();
    match package_path(member) {
        None => None,
        Some(path) => match workspace.number_of(path.path()) {
            None => None,
            Some(number) => definition_at(all, number, member),
        },
    }
}
