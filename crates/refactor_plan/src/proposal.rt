//! What a rename or a move is proposed for, and the change that it makes. Both are decided before their changes are made.
ghost use Rattle.std.specs.Prelude.{◌≡◌, IfOk};
ghost use Rattle.base_edits.specs.Fits.{Fits};
ghost use Rattle.refactor_plan.specs.Proposals.{IsProposed, proposed_change, proposed_snapshot};

use base_edits::EditSet;
use base_files::Path;
use refs_binding::FaultlessWorkspace;
use std::alloc::{AllocError, Global};
use workspace_check::Known;
use workspace_snapshot::{ChangeKind, MadeChange, Snapshot};

/// What a rename or a move is proposed for: a snapshot, its workspace without faults, and what is known of the packages. The path and the
/// offset are those at which an identifier is to be renamed. Where a package moves, the path is that of the package, and the offset is 0.
#[derive(Clone, Copy)]
pub struct Proposal<'a> {
    pub snapshot: &'a Snapshot,
    pub workspace: &'a FaultlessWorkspace<'a>,
    pub known: &'a Known,
    pub path: &'a Path,
    pub offset: usize,
}

/// Makes the change of a kind by these edits.
pub(crate) fn made(
    alloc: Global,
    proposal: &Proposal<'_>,
    kind: ChangeKind,
    edits: EditSet,
) -> Result<MadeChange, AllocError>
    requires proposed { IsProposed proposal.now }
    requires fits { Fits edits proposal.now.workspace.now.graph }
    ensures { IfOk result (λ change. change ≡ proposed_change (proposed_snapshot proposal.now) kind edits) }
{
    MadeChange::of(alloc, proposal.snapshot, kind, edits)
}
