//! Carries a change that was planned in the part without faulty packages over to the whole workspace.
ghost use Rattle.std.specs.Prelude.{◌≡◌, IfOk};
ghost use Rattle.base_edits.specs.EditSet.{edited};
ghost use Rattle.base_edits.specs.Fits.{Fits};
ghost use Rattle.build_carry.specs.Changes.{AreChanged};
ghost use Rattle.workspace_check.specs.Found.{KnowsVerdicts};
ghost use Rattle.workspace_graph.specs.Borrows.{names};
ghost use Rattle.workspace_graph.specs.SameGoFiles.{DiffersOnlyAt};
ghost use Rattle.refactor_plan.specs.Proposals.{proposed_change};
ghost use Rattle.refactor_preserve.specs.Planned.{change_in};
ghost use Rattle.refactor_affected.specs.Whole.{DiffersByLeftOut, IsWholeChange};

use base_files::{Path, Refusal};
use build_carry::{known_after, marks_of};
use refactor_part::{FoundBeside, LeftOut, known_beside};
use refactor_preserve::{Planned, within_limits};
use std::alloc::{AllocError, Global};
use workspace_check::Known;
use workspace_graph::Graph;
use workspace_snapshot::{Change, MadeChange, Snapshot};

/// The verdicts that are known after a change of the whole workspace. Some stay, and others are known after the change of the part.
fn whole_known(
    alloc: Global,
    base: &Graph,
    known: &Known,
    change: &MadeChange,
    beside: FoundBeside<'_>,
) -> Result<Known, AllocError>
    requires base { change.now.base ≡ base.now }
    requires known { KnowsVerdicts base.now known.now }
    requires found { KnowsVerdicts beside.judged.now beside.found.now }
    requires changed { AreChanged beside.judged.now change.now.files (names beside.folders.now) }
    ensures { IfOk result (KnowsVerdicts change.now.files) }
{
    let files = &change.get().files;
    let marks = marks_of(alloc, base, change)?;
    let kept = known_after(alloc, base, known, files, &marks)?;
    known_beside(alloc, files, &kept, beside)
}

/// The change of the whole workspace by the edits of a change of the part, which leaves out the files at `paths`. It is made from the part's
/// change where so fewer files are read: those that are left out, and not those with edits.
fn made_whole(
    alloc: Global,
    snapshot: &Snapshot,
    part: MadeChange,
    paths: &[&Path],
) -> Result<MadeChange, AllocError>
    requires fits { Fits part.edits snapshot.now.files }
    requires rest { DiffersOnlyAt (names paths.now) part.files (edited part.edits snapshot.now.files) }
    ensures { IfOk result (λ change. change ≡ proposed_change snapshot.now part.kind part.edits) }
{
    if paths.len() < part.get().edits.changed().len() {
        return MadeChange::widened(alloc, snapshot, part, paths);
    }
    let (change, _) = part.into_parts();
    let Change { kind, edits, .. } = change;
    MadeChange::of(alloc, snapshot, kind, edits)
}

/// The change of the whole workspace by the edits that were planned in the part, or `TooLarge` where its files exceed a limit.
pub(crate) fn whole_change(
    alloc: Global,
    snapshot: &Snapshot,
    known: &Known,
    planned: Planned,
    left: &LeftOut<'_>,
) -> Result<Planned, Refusal>
    requires known { KnowsVerdicts snapshot.now.files known.now }
    requires fits { Fits planned.change.edits snapshot.now.files }
    requires differs { DiffersByLeftOut planned.change.files (edited planned.change.edits snapshot.now.files) (names left.now.folders.items) (names left.now.paths.items) }
    requires found { KnowsVerdicts planned.change.files planned.known }
    ensures planned { IsWholeChange snapshot.now planned.change.kind planned.change.edits (change_in result) }
    ensures known { IfOk result (λ p. KnowsVerdicts p.change.files p.known) }
{
    let Planned {
        change,
        known: found,
    } = planned;
    let part = change.get().files.clone()?;
    let whole = made_whole(alloc, snapshot, change, &left.paths)?;
    let beside = FoundBeside {
        judged: &part,
        found: &found,
        folders: &left.folders,
    };
    let known = whole_known(alloc, &snapshot.files, known, &whole, beside)?;
    within_limits(&snapshot.limits, whole, known)
}
