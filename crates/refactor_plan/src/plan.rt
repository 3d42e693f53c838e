//! Plans a rename: the change that gives the declaration of the identifier at a byte another name.
ghost use Rattle.std.specs.Prelude.{◌≡◌, ◌<◌, Some, length, slice_get, IfOk};
ghost use Rattle.base_files.specs.Packages.{package_paths};
ghost use Rattle.base_files.specs.Path.{folder};
ghost use Rattle.types_declared.specs.PackageView.{package_of};
ghost use Rattle.workspace_check.specs.Found.{IsFound, KnowsVerdicts};
ghost use Rattle.refs_binding.specs.Indexed.{IsPackageNumber, IsPackageNumbered};
ghost use Rattle.refs_binding.specs.Uses.{HasDeclaration, IsCheckedPackage};
ghost use Rattle.refs_binding.specs.Workspaces.{home_path};
ghost use Rattle.refs_places.specs.Outside.{declaring_path};
ghost use Rattle.refactor_preserve.specs.Planned.{change_in};
ghost use Rattle.refactor_rename.specs.Naming.{RefusesName};
ghost use Rattle.refactor_rename.specs.NewName.{IsNewName};
ghost use Rattle.refactor_plan.specs.Bindings.{IsOfRead, IsReadFor, IsSetIn};
ghost use Rattle.refactor_plan.specs.Decided.{IsLegalFor};
ghost use Rattle.refactor_plan.specs.Plan.{PlansRename};
ghost use Rattle.refactor_plan.specs.Proposals.{IsProposed, proposed_snapshot, proposed_verdicts};
ghost use Rattle.refactor_plan.specs.Steps.{PlansDeclaration, PlansAtByte};

use crate::bindings::{PackageBindings, bindings_of, decision_of};
use crate::decided::plan_decided;
use crate::proposal::Proposal;
use base_files::{Path, Refusal};
use refactor_coupled::renamed_with;
use refactor_preserve::Planned;
use refactor_rename::{Renaming, is_new_name, refuse_name};
use refs_binding::indexed::Numbered;
use refs_binding::{Declaration, FaultlessWorkspace, PackageReader, refuse_faults};
use refs_lookup::declaration_in_package;
use refs_places::declared_places::package_path;
use std::alloc::Global;
use types_declared::{Index, Package};
use types_expr::symbol::SharedPath;
use workspace_check::{Found, Known};
use workspace_snapshot::Snapshot;

/// The arguments of a rename: the path of a file, a byte offset in it, and the new name.
#[derive(Clone, Copy)]
struct RenameRequest<'a> {
    path: &'a Path,
    offset: usize,
    name: &'a [u8],
}

/// Plans the change that gives a declaration of the package that was read, and what is renamed with it, a legal name.
fn plan_renaming(
    alloc: Global,
    proposal: &Proposal<'_>,
    read: &PackageBindings<'_>,
    renaming: &Renaming<'_>,
) -> Result<Planned, Refusal>
    requires proposed { IsProposed proposal.now }
    requires read { IsReadFor proposal.now read.now }
    requires set { IsSetIn read.now renaming.now }
    requires home { IsOfRead read.now renaming.now.declaration.now }
    requires legal { IsLegalFor proposal.now.workspace.now.graph (proposed_verdicts proposal.now) renaming.now.declaration.now renaming.now.name.now }
    ensures planned { PlansDeclaration (proposed_snapshot proposal.now) (proposed_verdicts proposal.now) renaming.now.declaration.now renaming.now.name.now (change_in result) }
    ensures known { IfOk result (λ p. KnowsVerdicts p.change.files p.known) }
{
    let decision = decision_of(alloc, read, renaming)?;
    plan_decided(alloc, proposal, read, renaming, decision)
}

/// Plans the change that gives a declaration of the package that was read the new name, which is legal for it.
fn plan_declaration(
    alloc: Global,
    proposal: &Proposal<'_>,
    read: &PackageBindings<'_>,
    declaration: &Declaration,
    name: &[u8],
) -> Result<Planned, Refusal>
    requires proposed { IsProposed proposal.now }
    requires read { IsReadFor proposal.now read.now }
    requires home { IsOfRead read.now declaration.now }
    requires legal { IsLegalFor proposal.now.workspace.now.graph (proposed_verdicts proposal.now) declaration.now name.now }
    ensures planned { PlansDeclaration (proposed_snapshot proposal.now) (proposed_verdicts proposal.now) declaration.now name.now (change_in result) }
    ensures known { IfOk result (λ p. KnowsVerdicts p.change.files p.known) }
{
    let set = renamed_with(alloc, proposal.workspace, declaration)?;
    let renaming = Renaming {
        declaration,
        set: &set,
        name,
    };
    plan_renaming(alloc, proposal, read, &renaming)
}

/// Refuses a name for a declaration of the package that was read.
fn refuse(
    alloc: Global,
    proposal: &Proposal<'_>,
    read: &PackageBindings<'_>,
    declaration: &Declaration,
    name: &[u8],
) -> Result<(), Refusal>
    requires read { IsReadFor proposal.now read.now }
    requires home { IsOfRead read.now declaration.now }
    ensures { RefusesName (IsCheckedPackage proposal.now.workspace.now.graph (proposed_verdicts proposal.now)) declaration.now name.now result }
{
    refuse_name(alloc, read.at, &read.of, declaration, name)
}

/// Plans the rename of a declaration of the package that was read. Refuses it where the declaration is fixed or the name is not legal for it.
fn plan_named(
    alloc: Global,
    proposal: &Proposal<'_>,
    read: &PackageBindings<'_>,
    declaration: &Declaration,
    name: &[u8],
) -> Result<Planned, Refusal>
    requires proposed { IsProposed proposal.now }
    requires read { IsReadFor proposal.now read.now }
    requires home { IsOfRead read.now declaration.now }
    requires form { IsNewName name.now }
    requires has { HasDeclaration proposal.now.workspace.now.graph (proposed_verdicts proposal.now) proposal.now.path.now proposal.now.offset declaration.now }
    ensures planned { PlansAtByte (proposed_snapshot proposal.now) proposal.now.path.now proposal.now.offset name.now (change_in result) }
    ensures known { IfOk result (λ p. KnowsVerdicts p.change.files p.known) }
{
    proposal.workspace.has_no_faults();
    match refuse(alloc, proposal, read, declaration, name) {
        Err(refusal) => Err(refusal),
        Ok(()) => plan_declaration(alloc, proposal, read, declaration, name),
    }
}

/// Plans the rename of a declaration of the package of a number, by the package's scopes.
fn plan_unit(
    alloc: Global,
    proposal: &Proposal<'_>,
    at: Numbered<'_>,
    unit: Package<'_>,
    declaration: &Declaration,
    name: &[u8],
) -> Result<Planned, Refusal>
    requires proposed { IsProposed proposal.now }
    requires same { at.workspace.now ≡ proposal.now.workspace.now }
    requires numbered { IsPackageNumber at }
    requires unit { IsPackageNumbered at (package_of unit) }
    requires home { slice_get (package_paths at.workspace.now.graph) at.number ≡ home_path declaration.now }
    requires form { IsNewName name.now }
    requires has { HasDeclaration proposal.now.workspace.now.graph (proposed_verdicts proposal.now) proposal.now.path.now proposal.now.offset declaration.now }
    ensures planned { PlansAtByte (proposed_snapshot proposal.now) proposal.now.path.now proposal.now.offset name.now (change_in result) }
    ensures known { IfOk result (λ p. KnowsVerdicts p.change.files p.known) }
{
    let index = Index::of(alloc, unit)?;
    let read = bindings_of(at, unit, &index);
    plan_named(alloc, proposal, &read, declaration, name)
}

/// Plans the rename of a declaration of the package of a number. Reads the package.
fn plan_elsewhere(
    alloc: Global,
    proposal: &Proposal<'_>,
    number: usize,
    declaration: &Declaration,
    name: &[u8],
) -> Result<Planned, Refusal>
    requires proposed { IsProposed proposal.now }
    requires in_range { number < length (package_paths proposal.now.workspace.now.graph) }
    requires home { slice_get (package_paths proposal.now.workspace.now.graph) number ≡ home_path declaration.now }
    requires form { IsNewName name.now }
    requires has { HasDeclaration proposal.now.workspace.now.graph (proposed_verdicts proposal.now) proposal.now.path.now proposal.now.offset declaration.now }
    ensures planned { PlansAtByte (proposed_snapshot proposal.now) proposal.now.path.now proposal.now.offset name.now (change_in result) }
    ensures known { IfOk result (λ p. KnowsVerdicts p.change.files p.known) }
{
    let workspace = proposal.workspace;
    let at = Numbered { workspace, number };
    let reader = PackageReader::of(alloc, at)?;
    let table = reader.table(alloc)?;
    plan_unit(alloc, proposal, at, reader.unit(&table), declaration, name)
}

/// Plans the rename of a declaration of the package at a path. The package that was read is not read again.
fn plan_at_path(
    alloc: Global,
    proposal: &Proposal<'_>,
    read: &PackageBindings<'_>,
    path: &SharedPath,
    declaration: &Declaration,
    name: &[u8],
) -> Result<Planned, Refusal>
    requires proposed { IsProposed proposal.now }
    requires read { IsReadFor proposal.now read.now }
    requires home { Some path.now ≡ declaring_path declaration.now }
    requires form { IsNewName name.now }
    requires has { HasDeclaration proposal.now.workspace.now.graph (proposed_verdicts proposal.now) proposal.now.path.now proposal.now.offset declaration.now }
    ensures planned { PlansAtByte (proposed_snapshot proposal.now) proposal.now.path.now proposal.now.offset name.now (change_in result) }
    ensures known { IfOk result (λ p. KnowsVerdicts p.change.files p.known) }
{
    proposal.workspace.has_no_faults();
    match proposal.workspace.number_of(path.path()) {
        None => Err(Refusal::NotRenamable),
        Some(number) => {
            if number == read.at.number {
                plan_named(alloc, proposal, read, declaration, name)
            } else {
                plan_elsewhere(alloc, proposal, number, declaration, name)
            }
        }
    }
}

/// Plans the rename of a declaration. One that is predeclared can't be renamed.
fn plan_home(
    alloc: Global,
    proposal: &Proposal<'_>,
    read: &PackageBindings<'_>,
    declaration: &Declaration,
    name: &[u8],
) -> Result<Planned, Refusal>
    requires proposed { IsProposed proposal.now }
    requires read { IsReadFor proposal.now read.now }
    requires form { IsNewName name.now }
    requires has { HasDeclaration proposal.now.workspace.now.graph (proposed_verdicts proposal.now) proposal.now.path.now proposal.now.offset declaration.now }
    ensures planned { PlansAtByte (proposed_snapshot proposal.now) proposal.now.path.now proposal.now.offset name.now (change_in result) }
    ensures known { IfOk result (λ p. KnowsVerdicts p.change.files p.known) }
{
    proposal.workspace.has_no_faults();
    match package_path(declaration) {
        None => Err(Refusal::NotRenamable),
        Some(path) => plan_at_path(alloc, proposal, read, path, declaration, name),
    }
}

/// Plans the rename of the identifier at the byte of a proposal, in a file of the package that was read.
pub fn plan_read(
    alloc: Global,
    proposal: &Proposal<'_>,
    read: &PackageBindings<'_>,
    name: &[u8],
) -> Result<Planned, Refusal>
    requires proposed { IsProposed proposal.now }
    requires read { IsReadFor proposal.now read.now }
    requires folder { slice_get (package_paths read.now.at.workspace.now.graph) read.now.at.number ≡ Some (folder proposal.now.path.now) }
    requires form { IsNewName name.now }
    ensures planned { PlansAtByte (proposed_snapshot proposal.now) proposal.now.path.now proposal.now.offset name.now (change_in result) }
    ensures known { IfOk result (λ p. KnowsVerdicts p.change.files p.known) }
{
    proposal.workspace.has_no_faults();
    match declaration_in_package(
        alloc,
        proposal.workspace,
        &read.of,
        proposal.path,
        proposal.offset,
    ) {
        Err(refusal) => Err(refusal),
        Ok(declaration) => plan_home(alloc, proposal, read, &declaration, name),
    }
}

/// Plans the rename of the identifier at the byte of a proposal, in a file of a package, by the package's scopes.
fn plan_asked(
    alloc: Global,
    proposal: &Proposal<'_>,
    at: Numbered<'_>,
    unit: Package<'_>,
    name: &[u8],
) -> Result<Planned, Refusal>
    requires proposed { IsProposed proposal.now }
    requires same { at.workspace.now ≡ proposal.now.workspace.now }
    requires numbered { IsPackageNumber at }
    requires unit { IsPackageNumbered at (package_of unit) }
    requires folder { slice_get (package_paths at.workspace.now.graph) at.number ≡ Some (folder proposal.now.path.now) }
    requires form { IsNewName name.now }
    ensures planned { PlansAtByte (proposed_snapshot proposal.now) proposal.now.path.now proposal.now.offset name.now (change_in result) }
    ensures known { IfOk result (λ p. KnowsVerdicts p.change.files p.known) }
{
    let index = Index::of(alloc, unit)?;
    let read = bindings_of(at, unit, &index);
    plan_read(alloc, proposal, &read, name)
}

/// Plans the rename of the identifier at the byte of a proposal, in a file of the package of a number. Reads the package once.
fn plan_package(
    alloc: Global,
    proposal: &Proposal<'_>,
    number: usize,
    name: &[u8],
) -> Result<Planned, Refusal>
    requires proposed { IsProposed proposal.now }
    requires folder { slice_get (package_paths proposal.now.workspace.now.graph) number ≡ Some (folder proposal.now.path.now) }
    requires form { IsNewName name.now }
    ensures planned { PlansAtByte (proposed_snapshot proposal.now) proposal.now.path.now proposal.now.offset name.now (change_in result) }
    ensures known { IfOk result (λ p. KnowsVerdicts p.change.files p.known) }
{
    let workspace = proposal.workspace;
    let at = Numbered { workspace, number };
    let reader = PackageReader::of(alloc, at)?;
    let table = reader.table(alloc)?;
    plan_asked(alloc, proposal, at, reader.unit(&table), name)
}

/// Plans the rename of the identifier at the byte of a proposal.
fn plan_found(alloc: Global, proposal: &Proposal<'_>, name: &[u8]) -> Result<Planned, Refusal>
    requires proposed { IsProposed proposal.now }
    requires form { IsNewName name.now }
    ensures planned { PlansAtByte (proposed_snapshot proposal.now) proposal.now.path.now proposal.now.offset name.now (change_in result) }
    ensures known { IfOk result (λ p. KnowsVerdicts p.change.files p.known) }
{
    proposal.workspace.has_no_faults();
    match proposal.workspace.number_of(proposal.path.folder()) {
        None => Err(Refusal::NoIdentifier),
        Some(number) => plan_package(alloc, proposal, number, name),
    }
}

/// Plans the rename of the identifier at a byte in a workspace without faults, which is that of the snapshot.
fn plan_sound(
    alloc: Global,
    snapshot: &Snapshot,
    known: &Known,
    workspace: &FaultlessWorkspace<'_>,
    asked: &RenameRequest<'_>,
) -> Result<Planned, Refusal>
    requires known { KnowsVerdicts snapshot.now.files known.now }
    requires same { workspace.now.graph ≡ snapshot.now.files }
    requires form { IsNewName asked.now.name.now }
    ensures planned { PlansAtByte snapshot.now asked.now.path.now asked.now.offset asked.now.name.now (change_in result) }
    ensures known { IfOk result (λ p. KnowsVerdicts p.change.files p.known) }
{
    let proposal = Proposal {
        snapshot,
        workspace,
        known,
        path: asked.path,
        offset: asked.offset,
    };
    plan_found(alloc, &proposal, asked.name)
}

/// Plans the rename of the identifier at a byte, or refuses it where the workspace has a fault.
fn plan_in(
    alloc: Global,
    snapshot: &Snapshot,
    found: &Found,
    asked: &RenameRequest<'_>,
) -> Result<Planned, Refusal>
    requires found { IsFound snapshot.now.files found.now }
    requires form { IsNewName asked.now.name.now }
    ensures planned { PlansAtByte snapshot.now asked.now.path.now asked.now.offset asked.now.name.now (change_in result) }
    ensures known { IfOk result (λ p. KnowsVerdicts p.change.files p.known) }
{
    match refuse_faults(alloc, &snapshot.files, &found.findings) {
        Err(refusal) => Err(refusal),
        Ok(workspace) => plan_sound(alloc, snapshot, &found.known, &workspace, asked),
    }
}

/// Plans the rename of the identifier at `path:offset` to `name`: the declaration and every identifier that is bound to it get the new
/// name. Where an interface asks for the declaration, so do all methods that are coupled with it.
///
/// The offset is that of any byte of an identifier, or of an import's string literal, which stands for its import declaration. `found` has
/// the findings of the snapshot's packages.
pub fn plan_rename(
    alloc: Global,
    snapshot: &Snapshot,
    found: &Found,
    path: &str,
    offset: usize,
    name: &str,
) -> Result<Planned, Refusal>
    requires { IsFound snapshot.now.files found.now }
    ensures planned { PlansRename snapshot.now path.now offset name.now (change_in result) }
    ensures known { IfOk result (λ p. KnowsVerdicts p.change.files p.known) }
{
    let path = Path::read(alloc, path, 2)?;
    if !is_new_name(name) {
        return Err(Refusal::BadName);
    }
    if snapshot.files.files().get(&path).is_none() {
        return Err(Refusal::NoFile);
    }
    let asked = RenameRequest {
        path: &path,
        offset,
        name: name.as_bytes(),
    };
    plan_in(alloc, snapshot, found, &asked)
}
