//! Plans a rename, which the workspace before it decides: the change, or the refusal that names the first obstacle. The edited workspace is
//! not judged, and a refused rename is given no edits.
ghost use Rattle.std.specs.Prelude.{None, IfOk};
ghost use Rattle.base_edits.specs.Fits.{Fits};
ghost use Rattle.workspace_check.specs.Found.{KnowsVerdicts};
ghost use Rattle.refactor_preserve.specs.Planned.{change_in};
ghost use Rattle.refactor_rename.specs.RenameEdits.{AreRenameEdits};
ghost use Rattle.refactor_plan.specs.Bindings.{IsOfRead, IsReadFor, IsSetIn};
ghost use Rattle.refactor_plan.specs.Decided.{DecidesRename};
ghost use Rattle.refactor_plan.specs.Proposals.{IsProposed, proposed_snapshot, proposed_verdicts};
ghost use Rattle.refactor_plan.specs.Steps.{PlansDeclaration};

use crate::bindings::PackageBindings;
use crate::decision::Decision;
use crate::kept_known::kept_known;
use crate::proposal::{Proposal, made};
use base_edits::EditSet;
use base_files::Refusal;
use refactor_coupled::told;
use refactor_preserve::{Planned, within_limits};
use refactor_rename::{Renaming, rename_edits};
use std::alloc::{AllocError, Global};
use workspace_snapshot::ChangeKind;

/// The edits that give what is renamed its new name. The package that was read has the declaration.
fn edits_of(
    alloc: Global,
    proposal: &Proposal<'_>,
    read: &PackageBindings<'_>,
    renaming: &Renaming<'_>,
) -> Result<EditSet, AllocError>
    requires read { IsReadFor proposal.now read.now }
    requires home { IsOfRead read.now renaming.now.declaration.now }
    ensures edits { IfOk result (AreRenameEdits proposal.now.workspace.now.graph (proposed_verdicts proposal.now) renaming.now.declaration.now renaming.now.set.now renaming.now.name.now) }
    ensures fits { IfOk result (λ edits. Fits edits proposal.now.workspace.now.graph) }
{
    rename_edits(alloc, read.at, &read.of, renaming)
}

/// Plans the change of a rename against which nothing stands. `is_hidden` says that other packages see what is renamed under neither name, and
/// that no import gains a name.
fn plan_kept(
    alloc: Global,
    proposal: &Proposal<'_>,
    read: &PackageBindings<'_>,
    renaming: &Renaming<'_>,
    is_hidden: bool,
) -> Result<Planned, Refusal>
    requires proposed { IsProposed proposal.now }
    requires read { IsReadFor proposal.now read.now }
    requires set { IsSetIn read.now renaming.now }
    requires home { IsOfRead read.now renaming.now.declaration.now }
    requires decided { DecidesRename proposal.now.workspace.now.graph (proposed_verdicts proposal.now) renaming.now.declaration.now renaming.now.set.now renaming.now.name.now is_hidden None }
    ensures planned { PlansDeclaration (proposed_snapshot proposal.now) (proposed_verdicts proposal.now) renaming.now.declaration.now renaming.now.name.now (change_in result) }
    ensures known { IfOk result (λ p. KnowsVerdicts p.change.files p.known) }
{
    let known = kept_known(
        alloc,
        &proposal.snapshot.files,
        proposal.known,
        renaming.set,
        is_hidden,
    )?;
    let edits = edits_of(alloc, proposal, read, renaming)?;
    let change = made(alloc, proposal, ChangeKind::Rename, edits)?;
    within_limits(&proposal.snapshot.limits, change, known)
}

/// Plans a rename in the package that was read. Refuses it where something stands against it, before edits are made.
pub(crate) fn plan_decided(
    alloc: Global,
    proposal: &Proposal<'_>,
    read: &PackageBindings<'_>,
    renaming: &Renaming<'_>,
    decision: Decision,
) -> Result<Planned, Refusal>
    requires proposed { IsProposed proposal.now }
    requires read { IsReadFor proposal.now read.now }
    requires set { IsSetIn read.now renaming.now }
    requires home { IsOfRead read.now renaming.now.declaration.now }
    requires decided { DecidesRename proposal.now.workspace.now.graph (proposed_verdicts proposal.now) renaming.now.declaration.now renaming.now.set.now renaming.now.name.now decision.is_hidden decision.obstacle }
    ensures planned { PlansDeclaration (proposed_snapshot proposal.now) (proposed_verdicts proposal.now) renaming.now.declaration.now renaming.now.name.now (change_in result) }
    ensures known { IfOk result (λ p. KnowsVerdicts p.change.files p.known) }
{
    let Decision {
        obstacle,
        is_hidden,
    } = decision;
    match obstacle {
        None => plan_kept(alloc, proposal, read, renaming, is_hidden),
        Some(obstacle) => {
            proposal.workspace.has_no_faults();
            Err(told(obstacle))
        }
    }
}
