//! Carries finished units over a change: the units of the packages whose closures keep their texts.
ghost use Rattle.std.specs.Prelude.{◌<◌, IfOk, length};
ghost use Rattle.base_files.specs.Packages.{package_paths};
ghost use Rattle.base_files.specs.Workspace.{Workspace};
ghost use Rattle.workspace_graph.specs.Graphs.{OfPackage};
ghost use Rattle.build_carry.specs.Carried.{IsCarried, DecidesKept};
ghost use Rattle.build_carry.specs.Changes.{MarkChanges, KeepsUnit};
ghost use Rattle.build_carry.specs.Finished.{HasNoUnit};

use crate::changes::Marks;
use crate::finished::Finished;
use crate::number_hint::number_by_hint;
use base_chunks::SharedList;
use build_unit::Unit;
use std::alloc::{AllocError, Global};
use workspace_check::is_marked;
use workspace_graph::Graph;

/// Whether the closure of a package has the same texts before and after a change. `old` and `new` are the numbers of the package before and
/// after.
pub fn keeps_closure(marks: &Marks, old: usize, new: usize) -> bool
    ensures { DecidesKept marks.now old new result }
{
    if is_marked(&marks.before, old) {
        return false;
    }
    if is_marked(&marks.after, new) {
        return false;
    }
    true
}

/// The unit that the package `number` of `after` keeps: `None` where it was not finished before, or its closure has other texts after the
/// change.
fn kept_unit(
    before: &Graph,
    finished: &Finished,
    after: &Graph,
    number: usize,
    marks: &Marks,
) -> Result<Option<Unit>, AllocError>
    requires number { number < length (package_paths after.now) }
    requires before_marks { MarkChanges before.now after.now marks.now.before.items }
    requires after_marks { MarkChanges after.now before.now marks.now.after.items }
    ensures { IfOk result (λ found. OfPackage after.now number (λ p. KeepsUnit before.now finished.now after.now p found)) }
{
    let path = &after.package(number).path;
    let Some(old) = number_by_hint(before, path, number, after.len()) else {
        return Ok(None);
    };
    let Some(unit) = finished.get(old) else {
        return Ok(None);
    };
    if !keeps_closure(marks, old, number) {
        return Ok(None);
    }
    let unit = unit.clone()?;
    Ok(Some(unit))
}

/// Makes the table after a change where no package was finished before: it has no unit, whatever the workspace before was.
pub fn none_carried(
    alloc: Global,
    finished: &Finished,
    after: &Graph,
) -> Result<Finished, AllocError>
    requires { HasNoUnit finished.now }
    ensures { IfOk result (λ table. (before : Workspace) → IsCarried before finished.now after.now table) }
{
    let table = finished.unfinished(alloc, after.len())?;
    Ok(table)
}

/// Makes the table of finished units after a change. It copies units, and builds none.
pub fn carried_units(
    alloc: Global,
    before: &Graph,
    finished: &Finished,
    after: &Graph,
    marks: &Marks,
) -> Result<Finished, AllocError>
    requires before_marks { MarkChanges before.now after.now marks.now.before.items }
    requires after_marks { MarkChanges after.now before.now marks.now.after.items }
    ensures { IfOk result (λ table. IsCarried before.now finished.now after.now table) }
{
    if finished.is_empty() {
        return none_carried(alloc, finished, after);
    }
    let mut units = SharedList::new(alloc);
    for number in 0..after.len() {
        let unit = kept_unit(before, finished, after, number, marks)?;
        units.push(unit)?;
    }
    Finished::of(alloc, units)
}
