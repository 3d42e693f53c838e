//! Plans a move: the change that moves a package to another path.
ghost use Rattle.std.specs.Prelude.{◌≡◌, IfOk};
ghost use Rattle.base_files.specs.Path.{IsPath};
ghost use Rattle.base_edits.specs.Fits.{Fits};
ghost use Rattle.workspace_check.specs.Found.{IsFound, KnowsVerdicts};
ghost use Rattle.refactor_preserve.specs.Planned.{change_in};
ghost use Rattle.refactor_move.specs.MoveEdits.{AreMoveEdits, HasNoNewPath};
ghost use Rattle.refactor_follow.specs.MoveConflicts.{TellsMoveConflict};
ghost use Rattle.refactor_plan.specs.DecidedMoves.{IsMoveRead, RefusesLengthOfName};
ghost use Rattle.refactor_plan.specs.MovePlan.{IsMovable, NamesMovedPackage, PlansMove};
ghost use Rattle.refactor_plan.specs.Proposals.{IsProposed, proposed_snapshot, proposed_verdicts};
ghost use Rattle.refactor_plan.specs.MoveSteps.{ArePackagePaths, PlansMoveTo};

use crate::decided_moves::plan_decided;
use crate::proposal::Proposal;
use crate::targets::refuse_target;
use base_edits::EditSet;
use base_files::{Path, Refusal};
use refactor_conflict::{Conflict, told};
use refactor_follow::{MoveReading, read_move};
use refactor_move::move_edits;
use refactor_preserve::Planned;
use refs_binding::{FaultlessWorkspace, refuse_faults};
use std::alloc::Global;
use workspace_check::{Found, Known};
use workspace_snapshot::Snapshot;

/// Why a move that would give a file too long a path is refused, by the edits of the package's name alone: their first conflict, or
/// `TooLarge`. No change is made.
fn refuse_length(
    proposal: &Proposal<'_>,
    to: &Path,
    conflict: Option<Conflict>,
) -> Result<Planned, Refusal>
    requires asked { NamesMovedPackage proposal.now.workspace.now.graph proposal.now.path.now to.now }
    requires told { TellsMoveConflict proposal.now.workspace.now.graph (proposed_verdicts proposal.now) proposal.now.path.now to.now conflict }
    ensures planned { RefusesLengthOfName proposal.now.workspace.now.graph (proposed_verdicts proposal.now) proposal.now.path.now to.now (change_in result) }
    ensures known { IfOk result (λ p. KnowsVerdicts p.change.files p.known) }
{
    proposal.workspace.has_no_faults();
    match conflict {
        None => Err(Refusal::TooLarge),
        Some(conflict) => Err(told(conflict)),
    }
}

/// Why a move that would give a file too long a path is refused. A conflict of the package's new name comes before `TooLarge`.
fn refuse_long(
    alloc: Global,
    proposal: &Proposal<'_>,
    to: &Path,
    read: MoveReading,
) -> Result<Planned, Refusal>
    requires proposed { IsProposed proposal.now }
    requires asked { NamesMovedPackage proposal.now.workspace.now.graph proposal.now.path.now to.now }
    requires no_path { HasNoNewPath proposal.now.workspace.now.graph proposal.now.path.now to.now }
    requires read { IsMoveRead proposal.now.workspace.now.graph (proposed_verdicts proposal.now) proposal.now.path.now to.now read }
    ensures planned { PlansMoveTo (proposed_snapshot proposal.now) proposal.now.path.now to.now (change_in result) }
    ensures known { IfOk result (λ p. KnowsVerdicts p.change.files p.known) }
{
    proposal.workspace.has_no_faults();
    let from = proposal.path;
    match move_edits(alloc, proposal.workspace, from, from, to, &read.uses) {
        Err(refusal) => Err(refusal),
        Ok(_edits) => refuse_length(proposal, to, read.conflict),
    }
}

/// Plans the move by its edits, and by its first conflict, which the workspace before it tells.
fn plan_moved(
    alloc: Global,
    proposal: &Proposal<'_>,
    to: &Path,
    edits: EditSet,
    conflict: Option<Conflict>,
) -> Result<Planned, Refusal>
    requires proposed { IsProposed proposal.now }
    requires movable { IsMovable proposal.now.workspace.now.graph proposal.now.path.now to.now }
    requires edits { AreMoveEdits proposal.now.workspace.now.graph (proposed_verdicts proposal.now) proposal.now.path.now to.now to.now edits }
    requires fits { Fits edits proposal.now.workspace.now.graph }
    requires told { TellsMoveConflict proposal.now.workspace.now.graph (proposed_verdicts proposal.now) proposal.now.path.now to.now conflict }
    ensures planned { PlansMoveTo (proposed_snapshot proposal.now) proposal.now.path.now to.now (change_in result) }
    ensures known { IfOk result (λ p. KnowsVerdicts p.change.files p.known) }
{
    proposal.workspace.has_no_faults();
    plan_decided(alloc, proposal, to, edits, conflict)
}

/// Plans the move of the package of a proposal, of which this was read. The paths allow it.
fn plan_read(
    alloc: Global,
    proposal: &Proposal<'_>,
    to: &Path,
    read: MoveReading,
) -> Result<Planned, Refusal>
    requires proposed { IsProposed proposal.now }
    requires movable { IsMovable proposal.now.workspace.now.graph proposal.now.path.now to.now }
    requires read { IsMoveRead proposal.now.workspace.now.graph (proposed_verdicts proposal.now) proposal.now.path.now to.now read }
    ensures planned { PlansMoveTo (proposed_snapshot proposal.now) proposal.now.path.now to.now (change_in result) }
    ensures known { IfOk result (λ p. KnowsVerdicts p.change.files p.known) }
{
    match move_edits(alloc, proposal.workspace, proposal.path, to, to, &read.uses) {
        Err(Refusal::Memory) => Err(Refusal::Memory),
        Err(_) => refuse_long(alloc, proposal, to, read),
        Ok(edits) => plan_moved(alloc, proposal, to, edits, read.conflict),
    }
}

/// Plans the move of the package of a proposal. The paths allow it. The packages that import it are read once.
fn plan_found(alloc: Global, proposal: &Proposal<'_>, to: &Path) -> Result<Planned, Refusal>
    requires proposed { IsProposed proposal.now }
    requires movable { IsMovable proposal.now.workspace.now.graph proposal.now.path.now to.now }
    ensures planned { PlansMoveTo (proposed_snapshot proposal.now) proposal.now.path.now to.now (change_in result) }
    ensures known { IfOk result (λ p. KnowsVerdicts p.change.files p.known) }
{
    let read = read_move(alloc, proposal.workspace, proposal.path, to)?;
    plan_read(alloc, proposal, to, read)
}

/// Plans the move of a package in a workspace without faults, which is that of the snapshot. The paths allow it.
fn plan_sound(
    alloc: Global,
    snapshot: &Snapshot,
    known: &Known,
    workspace: &FaultlessWorkspace<'_>,
    from: &Path,
    to: &Path,
) -> Result<Planned, Refusal>
    requires known { KnowsVerdicts snapshot.now.files known.now }
    requires same { workspace.now.graph ≡ snapshot.now.files }
    requires movable { IsMovable snapshot.now.files from.now to.now }
    ensures planned { PlansMoveTo snapshot.now from.now to.now (change_in result) }
    ensures known { IfOk result (λ p. KnowsVerdicts p.change.files p.known) }
{
    let proposal = Proposal {
        snapshot,
        workspace,
        known,
        path: from,
        offset: 0,
    };
    plan_found(alloc, &proposal, to)
}

/// Plans the move of a package, or refuses it where the workspace has a fault. The paths allow it.
fn plan_in(
    alloc: Global,
    snapshot: &Snapshot,
    found: &Found,
    from: &Path,
    to: &Path,
) -> Result<Planned, Refusal>
    requires found { IsFound snapshot.now.files found.now }
    requires movable { IsMovable snapshot.now.files from.now to.now }
    ensures planned { PlansMoveTo snapshot.now from.now to.now (change_in result) }
    ensures known { IfOk result (λ p. KnowsVerdicts p.change.files p.known) }
{
    match refuse_faults(alloc, &snapshot.files, &found.findings) {
        Err(refusal) => Err(refusal),
        Ok(workspace) => plan_sound(alloc, snapshot, &found.known, &workspace, from, to),
    }
}

/// Plans the move of a package between two paths.
fn plan_paths(
    alloc: Global,
    snapshot: &Snapshot,
    found: &Found,
    from: &Path,
    to: &Path,
) -> Result<Planned, Refusal>
    requires found { IsFound snapshot.now.files found.now }
    requires paths { ArePackagePaths from.now to.now }
    ensures planned { PlansMove snapshot.now from.now to.now (change_in result) }
    ensures known { IfOk result (λ p. KnowsVerdicts p.change.files p.known) }
{
    match refuse_target(&snapshot.files, from, to) {
        Err(refusal) => Err(refusal),
        Ok(()) => plan_in(alloc, snapshot, found, from, to),
    }
}

/// Plans the move of the package at a path to the path that a text stands for.
fn plan_target(
    alloc: Global,
    snapshot: &Snapshot,
    found: &Found,
    from: &Path,
    to: &str,
) -> Result<Planned, Refusal>
    requires found { IsFound snapshot.now.files found.now }
    requires source { IsPath 1 from.now }
    ensures planned { PlansMove snapshot.now from.now to.now (change_in result) }
    ensures known { IfOk result (λ p. KnowsVerdicts p.change.files p.known) }
{
    match Path::read(alloc, to, 1) {
        Err(refusal) => Err(refusal),
        Ok(target) => plan_paths(alloc, snapshot, found, from, &target),
    }
}

/// Plans the move of the package `from`, with all files in its folder, to the folder `to`. The edits change its package clauses, the import
/// paths of its importers and, where the package's name changes, the names that refer to it.
///
/// `found` has the findings of the snapshot's packages.
pub fn plan_move(
    alloc: Global,
    snapshot: &Snapshot,
    found: &Found,
    from: &str,
    to: &str,
) -> Result<Planned, Refusal>
    requires { IsFound snapshot.now.files found.now }
    ensures planned { PlansMove snapshot.now from.now to.now (change_in result) }
    ensures known { IfOk result (λ p. KnowsVerdicts p.change.files p.known) }
{
    match Path::read(alloc, from, 1) {
        Err(refusal) => Err(refusal),
        Ok(source) => plan_target(alloc, snapshot, found, &source, to),
    }
}
