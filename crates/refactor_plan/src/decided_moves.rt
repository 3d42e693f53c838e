//! Plans a move that the workspace before it decides: the change, or the refusal that names the first conflict. The edited workspace is not
//! judged, and no change is made of a refused move.
ghost use Rattle.std.specs.Prelude.{◌≡◌, None, IfOk, option_copied};
ghost use Rattle.base_edits.specs.RevisionsOfEdits.{revision_of};
ghost use Rattle.workspace_check.specs.Found.{KnowsVerdicts};
ghost use Rattle.workspace_snapshot.specs.declared.change.ChangeKind.TheVariants.{Move};
ghost use Rattle.refactor_conflict.specs.Conflicts.{IsFirstConflict};
ghost use Rattle.refactor_preserve.specs.Planned.{change_in};
ghost use Rattle.refactor_follow.specs.MoveConflicts.{TellsMoveConflict};
ghost use Rattle.refactor_plan.specs.DecidedMoves.{KnowsMoved, IsPlannedMove};
ghost use Rattle.refactor_plan.specs.Proposals.{IsProposed, PlansChange, proposed_snapshot, proposed_verdicts};

use crate::proposal::{Proposal, made};
use base_edits::EditSet;
use base_files::{FileText, Path, Refusal};
use refactor_conflict::{Conflict, told};
use refactor_known::{BeforeMove, Swap, moved_known};
use refactor_move::name_after;
use refactor_preserve::{Planned, within_limits};
use refs_binding::FaultlessWorkspace;
use std::alloc::{AllocError, Global};
use types_expr::symbol::SharedPath;
use workspace_check::Known;
use workspace_graph::Graph;
use workspace_snapshot::ChangeKind;

/// A shared copy of a path.
fn shared(alloc: Global, path: &Path) -> Result<SharedPath, AllocError>
    ensures { IfOk result (λ shared. shared ≡ path.now) }
{
    SharedPath::new(alloc, path.as_str().as_bytes())
}

/// The folder that moves, and the folder to which it moves.
fn swap_of(alloc: Global, from: &Path, to: &Path) -> Result<Swap, AllocError>
    ensures { IfOk result (λ swap. swap ≡ record { from = from.now; to = to.now }) }
{
    let from = shared(alloc, from)?;
    let to = shared(alloc, to)?;
    Ok(Swap { from, to })
}

/// Borrows the bytes of a name.
fn bytes(name: &Option<FileText>) -> Option<&[u8]>
    ensures { option_copied result ≡ name.now }
{
    match name {
        None => None,
        Some(name) => Some(name.bytes()),
    }
}

/// The workspace before the move, what is known of it, and the new name of the package, if it gets one.
fn before_move<'a>(
    workspace: &'a FaultlessWorkspace<'_>,
    known: &'a Known,
    name: Option<&'a [u8]>,
) -> BeforeMove<'a>
    ensures name { option_copied result.name ≡ option_copied name.entry }
    ensures graph { result.graph.now ≡ workspace.now.graph }
    ensures known { result.known.now ≡ known.now }
{
    BeforeMove {
        name,
        graph: workspace.graph,
        known,
    }
}

/// What is known of packages after the move of the package of a proposal to the path `to`. The graph `after` is that after the move.
fn known_after(
    alloc: Global,
    proposal: &Proposal<'_>,
    to: &Path,
    after: &Graph,
) -> Result<Known, AllocError>
    ensures { IfOk result (KnowsMoved proposal.now.workspace.now.graph after.now (proposed_verdicts proposal.now) proposal.now.path.now to.now proposal.now.known.now) }
{
    let name = name_after(alloc, proposal.workspace, proposal.path, to)?;
    let swap = swap_of(alloc, proposal.path, to)?;
    let before = before_move(proposal.workspace, proposal.known, bytes(&name));
    moved_known(alloc, &swap, before, after)
}

/// Plans the change of a move that loses and captures nothing.
fn plan_kept(
    alloc: Global,
    proposal: &Proposal<'_>,
    to: &Path,
    edits: EditSet,
) -> Result<Planned, Refusal>
    requires proposed { IsProposed proposal.now }
    requires planned { IsPlannedMove proposal.now.workspace.now.graph (proposed_verdicts proposal.now) proposal.now.path.now to.now to.now edits }
    requires kept { IsFirstConflict proposal.now.workspace.now.graph (proposed_verdicts proposal.now) (revision_of proposal.now.workspace.now.graph edits) None }
    ensures planned { PlansChange (proposed_snapshot proposal.now) (proposed_verdicts proposal.now) Move edits (change_in result) }
    ensures known { IfOk result (λ p. KnowsVerdicts p.change.files p.known) }
{
    let change = made(alloc, proposal, ChangeKind::Move, edits)?;
    let known = known_after(alloc, proposal, to, &change.get().files)?;
    within_limits(&proposal.snapshot.limits, change, known)
}

/// Plans the move of the package of a proposal by its edits. Refuses it where it has a conflict, before its change is made.
pub(crate) fn plan_decided(
    alloc: Global,
    proposal: &Proposal<'_>,
    to: &Path,
    edits: EditSet,
    conflict: Option<Conflict>,
) -> Result<Planned, Refusal>
    requires proposed { IsProposed proposal.now }
    requires planned { IsPlannedMove proposal.now.workspace.now.graph (proposed_verdicts proposal.now) proposal.now.path.now to.now to.now edits }
    requires told { TellsMoveConflict proposal.now.workspace.now.graph (proposed_verdicts proposal.now) proposal.now.path.now to.now conflict }
    ensures planned { PlansChange (proposed_snapshot proposal.now) (proposed_verdicts proposal.now) Move edits (change_in result) }
    ensures known { IfOk result (λ p. KnowsVerdicts p.change.files p.known) }
{
    match conflict {
        None => plan_kept(alloc, proposal, to, edits),
        Some(conflict) => Err(told(conflict)),
    }
}
