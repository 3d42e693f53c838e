//! A search along links from one package, which passes no marked package.
ghost use Rattle.std.specs.Prelude.{◌≡◌, ◌<◌, Bool, List, length, slice_index_or, IfOk, OnOk};
ghost use Rattle.workspace_graph.specs.Imports.{AreLinked, Imports};
ghost use Rattle.workspace_graph.specs.Search.{ListsNewMarks, MarksFound, Visits, AreClosedMarks, MarksReached};

use crate::link_rows::LinkRows;
use base_files::list_as_long;
use std::alloc::{AllocError, Global};

/// Marks a package and adds it to `found`, unless it is marked.
fn note(found: &mut Vec<usize>, marks: &mut Vec<bool>, number: usize) -> Result<(), AllocError>
    requires { number < length marks.old.items }
    ensures size { OnOk result (length marks.new.items ≡ length marks.old.items) }
    ensures finds { OnOk result ((first : List Bool) → ListsNewMarks first found.old.items marks.old.items → ListsNewMarks first found.new.items marks.new.items) }
    ensures noted { OnOk result (MarksFound found.old.items marks.old.items found.new.items marks.new.items (λ q. q ≡ number)) }
{
    if !marks[number] {
        found.push(number)?;
        marks[number] = true;
    }
    Ok(())
}

/// Marks and adds all packages that the found package at index `place` links to.
fn follow(
    links: &LinkRows,
    found: &mut Vec<usize>,
    marks: &mut Vec<bool>,
    place: usize,
) -> Result<(), AllocError>
    requires linked { AreLinked links.now }
    requires size { length marks.old.items ≡ length links.now }
    requires within { slice_index_or found.old.items place 0 < length links.now }
    requires place { place < length found.old.items }
    ensures size { OnOk result (length marks.new.items ≡ length links.now) }
    ensures finds { OnOk result ((first : List Bool) → ListsNewMarks first found.old.items marks.old.items → ListsNewMarks first found.new.items marks.new.items) }
    ensures noted { OnOk result (MarksFound found.old.items marks.old.items found.new.items marks.new.items (Imports links.now (slice_index_or found.old.items place 0))) }
{
    for number in links.row(found[place]) {
        note(found, marks, *number)?;
    }
    Ok(())
}

/// Marks `start` and all packages that it reaches along ways without a marked package. Returns those that it marks.
pub(crate) fn visit(
    alloc: Global,
    links: &LinkRows,
    marks: &mut Vec<bool>,
    start: usize,
) -> Result<Vec<usize>, AllocError>
    requires linked { AreLinked links.now }
    requires size { length marks.old.items ≡ length links.now }
    requires start { start < length links.now }
    ensures { IfOk result (λ found. Visits links.now start marks.old.items found.items marks.new.items) }
{
    let mut found = list_as_long(alloc, marks)?;
    note(&mut found, marks, start)?;
    let mut place = 0;
    while place < found.len() {
        follow(links, &mut found, marks, place)?;
        place += 1;
    }
    Ok(found)
}

/// Marks `start` and all packages that it reaches. All that marked packages reach must be marked already.
pub(crate) fn reach(
    alloc: Global,
    links: &LinkRows,
    marks: &mut Vec<bool>,
    start: usize,
) -> Result<(), AllocError>
    requires linked { AreLinked links.now }
    requires size { length marks.old.items ≡ length links.now }
    requires start { start < length links.now }
    requires closed { AreClosedMarks links.now marks.old.items }
    ensures reached { OnOk result (MarksReached links.now start marks.old.items marks.new.items) }
    ensures closed { OnOk result (AreClosedMarks links.now marks.new.items) }
{
    visit(alloc, links, marks, start)?;
    Ok(())
}
