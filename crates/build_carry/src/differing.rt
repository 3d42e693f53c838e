//! Marks the packages whose closures differ between two workspaces, of which neither needs to come from the other.
ghost use Rattle.std.specs.Prelude.{Contains, ◌↔◌, ◌<◌, ◌+◌, IfOk, IsTrue, OnOk, length};
ghost use Rattle.base_files.specs.Packages.{package_paths};
ghost use Rattle.workspace_graph.specs.Borrows.{names};
ghost use Rattle.workspace_graph.specs.Graphs.{OfPackage};
ghost use Rattle.build_carry.specs.Changes.{AreChanged, HasSameFiles, ListsComing, ListsDiffering, MarkChanges};

use crate::change_marks::marks_by;
use crate::changes::Marks;
use crate::number_hint::number_by_hint;
use crate::same_inputs::have_same_files;
use std::alloc::{AllocError, Global};
use workspace_graph::Graph;

/// Whether the package `number` of a graph has the same files in another graph.
fn keeps_files(graph: &Graph, number: usize, other: &Graph) -> bool
    requires { number < length (package_paths graph.now) }
    ensures { OfPackage graph.now number (λ p. IsTrue result ↔ HasSameFiles graph.now other.now p) }
{
    let own = graph.package(number);
    match number_by_hint(other, &own.path, number, graph.len()) {
        None => false,
        Some(there) => have_same_files(own, other.package(there)),
    }
}

/// Adds the folder of the package `number` of `before`, unless it has the same files in `after`.
fn add_differing<'a>(
    before: &'a Graph,
    number: usize,
    after: &Graph,
    folders: &mut Vec<&'a [u8]>,
) -> Result<(), AllocError>
    requires number { number < length (package_paths before.now) }
    requires listed { ListsDiffering before.now after.now number (names folders.old.items) }
    ensures { OnOk result (ListsDiffering before.now after.now (number + 1) (names folders.new.items)) }
{
    if keeps_files(before, number, after) {
        return Ok(());
    }
    let path = &before.package(number).path;
    folders.push(path.as_slice())?;
    Ok(())
}

/// The folders of the packages of `before` whose files differ in `after`.
fn differing<'a>(
    alloc: Global,
    before: &'a Graph,
    after: &Graph,
) -> Result<Vec<&'a [u8]>, AllocError>
    ensures { IfOk result (λ folders. ListsDiffering before.now after.now (length (package_paths before.now)) (names folders.items)) }
{
    let mut folders = Vec::new(alloc);
    for number in 0..before.len() {
        add_differing(before, number, after, &mut folders)?;
    }
    Ok(folders)
}

/// Whether a graph has a package at this path. It is first looked for at `number` among `count` packages.
fn has_package(graph: &Graph, path: &[u8], number: usize, count: usize) -> bool
    ensures { IsTrue result ↔ Contains (package_paths graph.now) path.now }
{
    match number_by_hint(graph, path, number, count) {
        None => false,
        Some(_) => true,
    }
}

/// Adds the folder of the package `number` of `after`, unless `before` has such a package.
fn add_coming<'a>(
    before: &Graph,
    after: &'a Graph,
    number: usize,
    folders: &mut Vec<&'a [u8]>,
) -> Result<(), AllocError>
    requires number { number < length (package_paths after.now) }
    requires listed { ListsComing before.now after.now number (names folders.old.items) }
    ensures { OnOk result (ListsComing before.now after.now (number + 1) (names folders.new.items)) }
{
    let path = &after.package(number).path;
    if has_package(before, path, number, after.len()) {
        return Ok(());
    }
    folders.push(path.as_slice())?;
    Ok(())
}

/// The folders whose files differ between two workspaces.
fn differing_folders<'a>(
    alloc: Global,
    before: &'a Graph,
    after: &'a Graph,
) -> Result<Vec<&'a [u8]>, AllocError>
    ensures { IfOk result (λ folders. AreChanged before.now after.now (names folders.items)) }
{
    let mut folders = differing(alloc, before, after)?;
    for number in 0..after.len() {
        add_coming(before, after, number, &mut folders)?;
    }
    Ok(folders)
}

/// Marks the packages in whose closures files differ between two workspaces. It compares the packages of both.
pub(crate) fn marks_between(
    alloc: Global,
    before: &Graph,
    after: &Graph,
) -> Result<Marks, AllocError>
    ensures before { IfOk result (λ marks. MarkChanges before.now after.now marks.before.items) }
    ensures after { IfOk result (λ marks. MarkChanges after.now before.now marks.after.items) }
{
    let folders = differing_folders(alloc, before, after)?;
    marks_by(alloc, before, after, &folders)
}
