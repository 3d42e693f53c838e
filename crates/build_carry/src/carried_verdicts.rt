//! Carries verdicts on packages over a change, one by one, without the earlier ones that a state keeps beside them.
ghost use Rattle.std.specs.Prelude.{◌≡◌, ◌<◌, IfOk, None, length};
ghost use Rattle.base_files.specs.Packages.{package_paths};
ghost use Rattle.workspace_graph.specs.Graphs.{OfPackage};
ghost use Rattle.workspace_check.specs.Found.{KnowsVerdicts};
ghost use Rattle.workspace_check.specs.KnownFindings.{IsVerdictIfKnown};
ghost use Rattle.build_carry.specs.Changes.{MarkChanges};
ghost use Rattle.build_carry.specs.Learned.{HasKeptVerdict};

use crate::carried::keeps_closure;
use crate::changes::Marks;
use crate::number_hint::number_by_hint;
use std::alloc::{AllocError, Global};
use workspace_check::{Known, KnownVerdict};
use workspace_graph::Graph;

/// The verdict on the package `number` of `after`: `None` only where none was known before, or its closure has other texts after the change.
pub(crate) fn kept_verdict(
    before: &Graph,
    known: &Known,
    after: &Graph,
    number: usize,
    marks: &Marks,
) -> Result<Option<KnownVerdict>, AllocError>
    requires number { number < length (package_paths after.now) }
    requires known { KnowsVerdicts before.now known.now }
    requires before_marks { MarkChanges before.now after.now marks.now.before.items }
    requires after_marks { MarkChanges after.now before.now marks.now.after.items }
    ensures right { IfOk result (λ found. OfPackage after.now number (λ p. IsVerdictIfKnown after.now p found)) }
    ensures kept { IfOk result (λ found. OfPackage after.now number (λ p. found ≡ None → HasKeptVerdict before.now known.now after.now p → ⊥)) }
{
    let path = &after.package(number).path;
    let Some(old) = number_by_hint(before, path, number, after.len()) else {
        return Ok(None);
    };
    let Some(verdict) = known.get(old) else {
        return Ok(None);
    };
    if !keeps_closure(marks, old, number) {
        return Ok(None);
    }
    let verdict = verdict.clone()?;
    Ok(Some(verdict))
}

/// Gathers the known verdicts on the packages of `after` whose closures keep their texts.
pub fn verdicts_after(
    alloc: Global,
    before: &Graph,
    known: &Known,
    after: &Graph,
    marks: &Marks,
) -> Result<Known, AllocError>
    requires known { KnowsVerdicts before.now known.now }
    requires before_marks { MarkChanges before.now after.now marks.now.before.items }
    requires after_marks { MarkChanges after.now before.now marks.now.after.items }
    ensures { IfOk result (KnowsVerdicts after.now) }
{
    let mut carried = Known::with_capacity(alloc, after.len())?;
    for number in 0..after.len() {
        let verdict = kept_verdict(before, known, after, number, marks)?;
        carried.push(verdict)?;
    }
    Ok(carried)
}
