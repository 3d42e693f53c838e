//! Plans a rename in the part of the workspace whose packages are those without faults. The identifier's package is read once.
ghost use Rattle.std.specs.Prelude.{◌≡◌, Some, slice_get, IfOk};
ghost use Rattle.base_edits.specs.EditSet.{edited};
ghost use Rattle.base_edits.specs.Fits.{Fits};
ghost use Rattle.base_files.specs.Packages.{package_paths};
ghost use Rattle.base_files.specs.Path.{folder};
ghost use Rattle.types_declared.specs.PackageView.{package_of};
ghost use Rattle.workspace_check.specs.Found.{KnowsVerdicts};
ghost use Rattle.workspace_graph.specs.Borrows.{names};
ghost use Rattle.refs_binding.specs.Indexed.{IsPackageNumber, IsPackageNumbered};
ghost use Rattle.refactor_preserve.specs.Planned.{change_in};
ghost use Rattle.refactor_plan.specs.Bindings.{IsReadFor};
ghost use Rattle.refactor_affected.specs.Renames.{IsAffectedByRename, PlansAffectedRename};
ghost use Rattle.refactor_affected.specs.InPart.{IsInPart, IsProposedIn};
ghost use Rattle.refactor_affected.specs.Steps.{MarkPackages, refusal_after};
ghost use Rattle.refactor_affected.specs.Whole.{AdmitsWhole, DiffersByLeftOut};

use crate::affected::affected_packages;
use crate::whole::whole_change;
use base_files::{Path, Refusal};
use refactor_part::{LeftOut, SoundPart, refuse_marked};
use refactor_plan::{PackageBindings, Proposal, bindings_of, plan_read};
use refactor_preserve::Planned;
use refs_binding::indexed::Numbered;
use refs_binding::{FaultlessWorkspace, PackageReader, refuse_faults};
use std::alloc::Global;
use types_declared::{Index, Package};
use workspace_check::Found;
use workspace_snapshot::Snapshot;

/// The arguments of a rename, with the snapshot and what was found in its packages.
#[derive(Clone, Copy)]
pub(crate) struct AskedRename<'a> {
    pub snapshot: &'a Snapshot,
    pub found: &'a Found,
    pub file: &'a Path,
    pub offset: usize,
    pub name: &'a str,
}

/// A rename, with the part in which it is planned, and what this part leaves out.
#[derive(Clone, Copy)]
pub(crate) struct RenameInPart<'a> {
    pub asked: &'a AskedRename<'a>,
    pub part: &'a SoundPart,
    pub left: &'a LeftOut<'a>,
}

/// The refusal of a rename in the part. A conflict or a passed limit comes after the faults of affected packages.
fn after_faults(refusal: Refusal, faults: Result<(), Refusal>) -> Refusal
    ensures { result ≡ refusal_after refusal faults }
{
    match refusal {
        Refusal::Captured { .. }
        | Refusal::Lost { .. }
        | Refusal::Coupled { .. }
        | Refusal::TooLarge => match faults {
            Err(fault) => fault,
            Ok(()) => refusal,
        },
        other => other,
    }
}

/// The rename that was planned in the part, as a change of the whole workspace, or the first fault of the affected packages.
fn admitted(
    alloc: Global,
    renaming: &RenameInPart<'_>,
    faults: Result<(), Refusal>,
    planned: Planned,
) -> Result<Planned, Refusal>
    requires found { KnowsVerdicts renaming.now.asked.now.snapshot.now.files renaming.now.asked.now.found.now.known }
    requires fits { Fits planned.change.edits renaming.now.asked.now.snapshot.now.files }
    requires differs { DiffersByLeftOut planned.change.files (edited planned.change.edits renaming.now.asked.now.snapshot.now.files) (names renaming.now.left.now.folders.items) (names renaming.now.left.now.paths.items) }
    requires known { KnowsVerdicts planned.change.files planned.known }
    ensures planned { AdmitsWhole renaming.now.asked.now.snapshot.now faults planned.change.kind planned.change.edits (change_in result) }
    ensures known { IfOk result (λ p. KnowsVerdicts p.change.files p.known) }
{
    match faults {
        Err(fault) => Err(fault),
        Ok(()) => {
            let asked = renaming.asked;
            whole_change(
                alloc,
                asked.snapshot,
                &asked.found.known,
                planned,
                renaming.left,
            )
        }
    }
}

/// Plans the rename in a package that was read. The marked packages are those that it affects.
fn plan_marked(
    alloc: Global,
    renaming: &RenameInPart<'_>,
    proposal: &Proposal<'_>,
    read: &PackageBindings<'_>,
    marks: &[bool],
) -> Result<Planned, Refusal>
    requires part { IsInPart renaming.now }
    requires proposed { IsProposedIn renaming.now proposal.now }
    requires read { IsReadFor proposal.now read.now }
    requires folder { slice_get (package_paths read.now.at.workspace.now.graph) read.now.at.number ≡ Some (folder proposal.now.path.now) }
    requires marks { MarkPackages renaming.now.asked.now.snapshot.now.files (IsAffectedByRename renaming.now.asked.now.snapshot.now.files proposal.now.workspace.now.graph proposal.now.path.now proposal.now.offset) marks.now }
    ensures planned { PlansAffectedRename renaming.now.asked.now.snapshot.now renaming.now.asked.now.file.now renaming.now.asked.now.offset renaming.now.asked.now.name.now (change_in result) }
    ensures known { IfOk result (λ p. KnowsVerdicts p.change.files p.known) }
{
    let asked = renaming.asked;
    let faults = refuse_marked(&asked.snapshot.files, &asked.found.findings, marks);
    match plan_read(alloc, proposal, read, asked.name.as_bytes()) {
        Err(refusal) => Err(after_faults(refusal, faults)),
        Ok(planned) => admitted(alloc, renaming, faults, planned),
    }
}

/// Plans the rename in a package that was read.
fn plan_bound(
    alloc: Global,
    renaming: &RenameInPart<'_>,
    proposal: &Proposal<'_>,
    read: &PackageBindings<'_>,
) -> Result<Planned, Refusal>
    requires part { IsInPart renaming.now }
    requires proposed { IsProposedIn renaming.now proposal.now }
    requires read { IsReadFor proposal.now read.now }
    requires folder { slice_get (package_paths read.now.at.workspace.now.graph) read.now.at.number ≡ Some (folder proposal.now.path.now) }
    ensures planned { PlansAffectedRename renaming.now.asked.now.snapshot.now renaming.now.asked.now.file.now renaming.now.asked.now.offset renaming.now.asked.now.name.now (change_in result) }
    ensures known { IfOk result (λ p. KnowsVerdicts p.change.files p.known) }
{
    match affected_packages(alloc, &renaming.asked.snapshot.files, proposal, read) {
        Err(refusal) => Err(refusal),
        Ok(marks) => plan_marked(alloc, renaming, proposal, read, &marks),
    }
}

/// Plans the rename in a package, by the package's scopes.
fn plan_asked(
    alloc: Global,
    renaming: &RenameInPart<'_>,
    proposal: &Proposal<'_>,
    at: Numbered<'_>,
    unit: Package<'_>,
) -> Result<Planned, Refusal>
    requires part { IsInPart renaming.now }
    requires proposed { IsProposedIn renaming.now proposal.now }
    requires same { at.workspace.now ≡ proposal.now.workspace.now }
    requires numbered { IsPackageNumber at }
    requires unit { IsPackageNumbered at (package_of unit) }
    requires folder { slice_get (package_paths at.workspace.now.graph) at.number ≡ Some (folder proposal.now.path.now) }
    ensures planned { PlansAffectedRename renaming.now.asked.now.snapshot.now renaming.now.asked.now.file.now renaming.now.asked.now.offset renaming.now.asked.now.name.now (change_in result) }
    ensures known { IfOk result (λ p. KnowsVerdicts p.change.files p.known) }
{
    let index = Index::of(alloc, unit)?;
    let read = bindings_of(at, unit, &index);
    plan_bound(alloc, renaming, proposal, &read)
}

/// Plans the rename in the package of a number. Reads the package once.
fn plan_package(
    alloc: Global,
    renaming: &RenameInPart<'_>,
    proposal: &Proposal<'_>,
    number: usize,
) -> Result<Planned, Refusal>
    requires part { IsInPart renaming.now }
    requires proposed { IsProposedIn renaming.now proposal.now }
    requires folder { slice_get (package_paths proposal.now.workspace.now.graph) number ≡ Some (folder proposal.now.path.now) }
    ensures planned { PlansAffectedRename renaming.now.asked.now.snapshot.now renaming.now.asked.now.file.now renaming.now.asked.now.offset renaming.now.asked.now.name.now (change_in result) }
    ensures known { IfOk result (λ p. KnowsVerdicts p.change.files p.known) }
{
    let workspace = proposal.workspace;
    let at = Numbered { workspace, number };
    let reader = PackageReader::of(alloc, at)?;
    let table = reader.table(alloc)?;
    plan_asked(alloc, renaming, proposal, at, reader.unit(&table))
}

/// Plans the rename of the identifier at the byte of a proposal in the part.
fn plan_found(
    alloc: Global,
    renaming: &RenameInPart<'_>,
    proposal: &Proposal<'_>,
) -> Result<Planned, Refusal>
    requires part { IsInPart renaming.now }
    requires proposed { IsProposedIn renaming.now proposal.now }
    ensures planned { PlansAffectedRename renaming.now.asked.now.snapshot.now renaming.now.asked.now.file.now renaming.now.asked.now.offset renaming.now.asked.now.name.now (change_in result) }
    ensures known { IfOk result (λ p. KnowsVerdicts p.change.files p.known) }
{
    proposal.workspace.has_no_faults();
    match proposal.workspace.number_of(proposal.path.folder()) {
        None => Err(Refusal::NoIdentifier),
        Some(number) => plan_package(alloc, renaming, proposal, number),
    }
}

/// Plans the rename in the part, which has no fault.
fn plan_sound(
    alloc: Global,
    renaming: &RenameInPart<'_>,
    workspace: &FaultlessWorkspace<'_>,
) -> Result<Planned, Refusal>
    requires part { IsInPart renaming.now }
    requires same { workspace.now.graph ≡ renaming.now.part.now.snapshot.files }
    ensures planned { PlansAffectedRename renaming.now.asked.now.snapshot.now renaming.now.asked.now.file.now renaming.now.asked.now.offset renaming.now.asked.now.name.now (change_in result) }
    ensures known { IfOk result (λ p. KnowsVerdicts p.change.files p.known) }
{
    let proposal = Proposal {
        snapshot: &renaming.part.snapshot,
        workspace,
        known: &renaming.part.found.known,
        path: renaming.asked.file,
        offset: renaming.asked.offset,
    };
    plan_found(alloc, renaming, &proposal)
}

/// Plans the rename in the part without faulty packages.
pub(crate) fn plan_in_part(alloc: Global, renaming: &RenameInPart<'_>) -> Result<Planned, Refusal>
    requires { IsInPart renaming.now }
    ensures planned { PlansAffectedRename renaming.now.asked.now.snapshot.now renaming.now.asked.now.file.now renaming.now.asked.now.offset renaming.now.asked.now.name.now (change_in result) }
    ensures known { IfOk result (λ p. KnowsVerdicts p.change.files p.known) }
{
    let part = renaming.part;
    match refuse_faults(alloc, &part.snapshot.files, &part.found.findings) {
        Err(refusal) => Err(refusal),
        Ok(workspace) => plan_sound(alloc, renaming, &workspace),
    }
}
