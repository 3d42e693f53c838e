//! Carries what a state knows of its packages to the next state: verdicts, with the earlier ones kept beside them.
ghost use Rattle.std.specs.Prelude.{IfOk};
ghost use Rattle.base_files.specs.Workspace.{Workspace};
ghost use Rattle.workspace_check.specs.Found.{KnowsVerdicts};
ghost use Rattle.build_carry.specs.Changes.{MarkChanges};
ghost use Rattle.build_carry.specs.Finished.{HasNoUnit};
ghost use Rattle.build_carry.specs.Carried.{IsCarried};

use crate::{Finished, Marks, none_carried, verdicts_after};
use std::alloc::{AllocError, Global};
use workspace_check::{Known, SharedKnown};
use workspace_graph::Graph;

/// Knows no verdict on any package. The earlier verdicts that `known` keeps are shared.
fn no_verdicts(alloc: Global, known: &Known) -> Result<Known, AllocError>
    ensures { IfOk result (λ nothing. (w : Workspace) → KnowsVerdicts w nothing) }
{
    let mut nothing = Known::new(alloc);
    nothing.share_earlier(known)?;
    Ok(nothing)
}

/// Keeps the known verdicts on packages whose closures keep their texts. The other verdicts of `known` are kept as earlier ones.
fn kept_verdicts(
    alloc: Global,
    before: &Graph,
    known: &Known,
    after: &Graph,
    marks: &Marks,
) -> Result<Known, AllocError>
    requires known { KnowsVerdicts before.now known.now }
    requires before_marks { MarkChanges before.now after.now marks.now.before.items }
    requires after_marks { MarkChanges after.now before.now marks.now.after.items }
    ensures { IfOk result (KnowsVerdicts after.now) }
{
    if known.is_empty() {
        return no_verdicts(alloc, known);
    }
    let mut carried = verdicts_after(alloc, before, known, after, marks)?;
    carried.keep_earlier(alloc, before, known)?;
    Ok(carried)
}

/// Keeps what is known of packages over a change, as a shared value for the next state.
pub fn kept(
    alloc: Global,
    before: &Graph,
    known: &SharedKnown,
    after: &Graph,
    marks: &Marks,
) -> Result<SharedKnown, AllocError>
    requires known { KnowsVerdicts before.now known.now }
    requires before_marks { MarkChanges before.now after.now marks.now.before.items }
    requires after_marks { MarkChanges after.now before.now marks.now.after.items }
    ensures { IfOk result (KnowsVerdicts after.now) }
{
    let carried = kept_verdicts(alloc, before, known.get(), after, marks)?;
    SharedKnown::new(alloc, carried)
}

/// Keeps what is known of packages over a change, by the marks of the change, as a value of its own.
pub fn known_after(
    alloc: Global,
    before: &Graph,
    known: &Known,
    after: &Graph,
    marks: &Marks,
) -> Result<Known, AllocError>
    requires known { KnowsVerdicts before.now known.now }
    requires before_marks { MarkChanges before.now after.now marks.now.before.items }
    requires after_marks { MarkChanges after.now before.now marks.now.after.items }
    ensures { IfOk result (KnowsVerdicts after.now) }
{
    kept_verdicts(alloc, before, known, after, marks)
}

/// Carries over nothing: no unit, as no package was finished before, and no verdict. Such a change need not be marked.
pub fn nothing_carried(
    alloc: Global,
    finished: &Finished,
    known: &Known,
    after: &Graph,
) -> Result<(Finished, SharedKnown), AllocError>
    requires { HasNoUnit finished.now }
    ensures units { IfOk result (λ carried. (before : Workspace) → IsCarried before finished.now after.now carried.0) }
    ensures known { IfOk result (λ carried. KnowsVerdicts after.now carried.1) }
{
    let units = none_carried(alloc, finished, after)?;
    let nothing = no_verdicts(alloc, known)?;
    let shared = SharedKnown::new(alloc, nothing)?;
    Ok((units, shared))
}
