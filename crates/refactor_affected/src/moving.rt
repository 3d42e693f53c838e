//! Plans a move in a workspace in which packages may have faults.
ghost use Rattle.std.specs.Prelude.{IfOk};
ghost use Rattle.workspace_check.specs.Found.{IsFound, KnowsVerdicts};
ghost use Rattle.refactor_preserve.specs.Planned.{change_in};
ghost use Rattle.refactor_part.specs.FirstFaults.{RefusesFirstOf};
ghost use Rattle.refactor_plan.specs.MovePlan.{IsMovable};
ghost use Rattle.refactor_affected.specs.Moves.{IsSoundMove, PlansAffectedMove};
ghost use Rattle.refactor_affected.specs.Starts.{IsAffectedByMove};

use crate::refusals::names_fault;
use crate::starts::{MovedFolder, affected_by_move};
use crate::whole::whole_change;
use base_files::{Path, Refusal};
use refactor_part::{faultless_part, left_out, refuse_marked};
use refactor_preserve::Planned;
use std::alloc::Global;
use workspace_check::Found;
use workspace_snapshot::Snapshot;

/// Refuses a move where a package that it affects has a fault, with the first one.
fn refuse_affected(
    alloc: Global,
    snapshot: &Snapshot,
    found: &Found,
    moved: MovedFolder<'_>,
) -> Result<(), Refusal>
    requires { IsFound snapshot.now.files found.now }
    ensures { RefusesFirstOf snapshot.now.files (IsAffectedByMove snapshot.now.files moved.entry.from.now moved.entry.to.now) result }
{
    let marks = affected_by_move(alloc, &snapshot.files, moved)?;
    refuse_marked(&snapshot.files, &found.findings, &marks)
}

/// Plans a move in the part without faulty packages. No package that the move affects has a fault.
fn plan_in_part(
    alloc: Global,
    snapshot: &Snapshot,
    found: &Found,
    moved: MovedFolder<'_>,
) -> Result<Planned, Refusal>
    requires found { IsFound snapshot.now.files found.now }
    requires sound { IsSoundMove snapshot.now.files moved.from.now moved.to.now }
    ensures planned { PlansAffectedMove snapshot.now moved.entry.from.now moved.entry.to.now (change_in result) }
    ensures known { IfOk result (λ p. KnowsVerdicts p.change.files p.known) }
{
    let left = left_out(alloc, &snapshot.files, &found.findings.export_table)?;
    let part = faultless_part(alloc, snapshot, found, &left)?;
    let from = moved.from.as_str();
    let to = moved.to.as_str();
    match refactor_plan::plan_move(alloc, &part.snapshot, &part.found, from, to) {
        Err(refusal) => Err(refusal),
        Ok(planned) => whole_change(alloc, snapshot, &found.known, planned, &left),
    }
}

/// Plans a move that the paths allow.
fn plan_movable(
    alloc: Global,
    snapshot: &Snapshot,
    found: &Found,
    moved: MovedFolder<'_>,
) -> Result<Planned, Refusal>
    requires found { IsFound snapshot.now.files found.now }
    requires movable { IsMovable snapshot.now.files moved.from.now moved.to.now }
    ensures planned { PlansAffectedMove snapshot.now moved.entry.from.now moved.entry.to.now (change_in result) }
    ensures known { IfOk result (λ p. KnowsVerdicts p.change.files p.known) }
{
    match refuse_affected(alloc, snapshot, found, moved) {
        Err(refusal) => Err(refusal),
        Ok(()) => plan_in_part(alloc, snapshot, found, moved),
    }
}

/// Plans a move that the paths allow, in a workspace with faults.
fn plan_beside(
    alloc: Global,
    snapshot: &Snapshot,
    found: &Found,
    from: &str,
    to: &str,
) -> Result<Planned, Refusal>
    requires found { IsFound snapshot.now.files found.now }
    requires movable { IsMovable snapshot.now.files from.now to.now }
    ensures planned { PlansAffectedMove snapshot.now from.now to.now (change_in result) }
    ensures known { IfOk result (λ p. KnowsVerdicts p.change.files p.known) }
{
    let source = Path::read(alloc, from, 1)?;
    let target = Path::read(alloc, to, 1)?;
    let moved = MovedFolder {
        from: &source,
        to: &target,
    };
    plan_movable(alloc, snapshot, found, moved)
}

/// Plans the move of the package `from`, with all files in its folder, to the folder `to`. Faults are asked of the packages that the move
/// affects. In a workspace without faults it is planned there.
///
/// `found` has the findings of the snapshot's packages.
pub fn plan_move(
    alloc: Global,
    snapshot: &Snapshot,
    found: &Found,
    from: &str,
    to: &str,
) -> Result<Planned, Refusal>
    requires { IsFound snapshot.now.files found.now }
    ensures planned { PlansAffectedMove snapshot.now from.now to.now (change_in result) }
    ensures known { IfOk result (λ p. KnowsVerdicts p.change.files p.known) }
{
    match refactor_plan::plan_move(alloc, snapshot, found, from, to) {
        Ok(planned) => Ok(planned),
        Err(refusal) => {
            if names_fault(&refusal) {
                plan_beside(alloc, snapshot, found, from, to)
            } else {
                Err(refusal)
            }
        }
    }
}
