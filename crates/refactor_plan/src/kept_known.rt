//! What is known of the packages after a rename that the workspace before it decides, and that loses and captures nothing.
ghost use Rattle.std.specs.Prelude.{◌≡◌, IfOk};
ghost use Rattle.workspace_graph.specs.Search.{IsMarked};
ghost use Rattle.law_renamed_workspaces.specs.KnownVerdicts.{HoldVerdictsBut};
ghost use Rattle.refactor_plan.specs.Decided.{KeepsKnown, IsVerdictBut};

use refs_binding::Declaration;
use refs_places::home_marks;
use std::alloc::{AllocError, Global};
use workspace_check::{Known, KnownVerdict, is_marked};
use workspace_graph::Graph;

/// The verdict on the package of a number, if it is known. Those of the numbers that are marked in `dropped` are left out.
fn verdict_but(
    known: &Known,
    dropped: &[bool],
    number: usize,
) -> Result<Option<KnownVerdict>, AllocError>
    ensures { IfOk result (IsVerdictBut (IsMarked dropped.now) known.now.verdicts.items number) }
{
    if is_marked(dropped, number) {
        return Ok(None);
    }
    match known.get(number) {
        None => Ok(None),
        Some(verdict) => Ok(Some(verdict.clone()?)),
    }
}

/// The known verdicts on the first `count` packages. Those on the packages that are marked in `dropped` are left out.
fn known_but(
    alloc: Global,
    known: &Known,
    dropped: &[bool],
    count: usize,
) -> Result<Known, AllocError>
    ensures { IfOk result (λ rest. HoldVerdictsBut (IsMarked dropped.now) known.now.verdicts.items rest.verdicts.items) }
{
    let mut rest = Known::new(alloc);
    for number in 0..count {
        rest.push(verdict_but(known, dropped, number)?)?;
    }
    Ok(rest)
}

/// The known verdicts that stay after a rename of the declarations of a list. All do where other packages see these under neither name, else
/// all but those on their packages.
pub(crate) fn kept_known(
    alloc: Global,
    graph: &Graph,
    known: &Known,
    set: &[Declaration],
    is_hidden: bool,
) -> Result<Known, AllocError>
    ensures { IfOk result (KeepsKnown graph.now set.now is_hidden known.now) }
{
    if is_hidden {
        return known.copy(alloc, 0);
    }
    let homes = home_marks(alloc, graph, set)?;
    known_but(alloc, known, &homes, graph.len())
}
