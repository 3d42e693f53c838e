//! Judges packages before the Jobs that need their verdicts.
ghost use Rattle.std.specs.Prelude.{◌<◌, ◌≤◌, IfOk, OnOk, length};
ghost use Rattle.base_files.specs.Packages.{package_paths};
ghost use Rattle.workspace_check.specs.Found.{AreVerdictsOf, KnowsVerdicts};

use crate::learning::{copy_with_places, take_in_each};
use std::alloc::{AllocError, Global};
use workspace_check::{FoundPackage, Known, KnownVerdict, Progress};
use workspace_graph::Graph;

/// The verdicts that are found where the package of a number is checked: those on it, and on the packages that it builds on.
fn verdicts_with(
    alloc: Global,
    graph: &Graph,
    number: usize,
    known: &Known,
) -> Result<Vec<KnownVerdict>, AllocError>
    requires in_range { number < length (package_paths graph.now) }
    requires known { KnowsVerdicts graph.now known.now }
    ensures { IfOk result (λ found. AreVerdictsOf graph.now found.items) }
{
    let closure = graph.closure(alloc, number)?;
    let progress = Progress::before(alloc, graph, number, closure.as_slice(), known)?;
    let FoundPackage {
        finding,
        export_table,
        found,
    } = progress.finish(alloc, graph, number, known)?;
    drop(finding);
    drop(export_table);
    Ok(found)
}

/// The verdicts that are found with the package of a number; none, where there is no such package.
pub fn verdicts_at(
    alloc: Global,
    graph: &Graph,
    number: usize,
    known: &Known,
) -> Result<Vec<KnownVerdict>, AllocError>
    requires { KnowsVerdicts graph.now known.now }
    ensures { IfOk result (λ found. AreVerdictsOf graph.now found.items) }
{
    if number < graph.len() {
        verdicts_with(alloc, graph, number, known)
    } else {
        Ok(Vec::new(alloc))
    }
}

/// Takes in the verdicts that are found with the package of a number.
fn learn_at(
    alloc: Global,
    files: &Graph,
    number: usize,
    known: &mut Known,
) -> Result<(), AllocError>
    requires room { length (package_paths files.now) ≤ length known.old.verdicts.items }
    requires known { KnowsVerdicts files.now known.old }
    ensures room { OnOk result (length (package_paths files.now) ≤ length known.new.verdicts.items) }
    ensures known { OnOk result (KnowsVerdicts files.now known.new) }
{
    let found = verdicts_at(alloc, files, number, known)?;
    take_in_each(files, found.as_slice(), known)
}

/// Judges packages of a workspace, and adds what is found to what is known of it.
pub fn judged_ahead(
    alloc: Global,
    files: &Graph,
    numbers: &[usize],
    known: &Known,
) -> Result<Known, AllocError>
    requires { KnowsVerdicts files.now known.now }
    ensures { IfOk result (KnowsVerdicts files.now) }
{
    let mut all = copy_with_places(alloc, files, known)?;
    for number in numbers {
        learn_at(alloc, files, *number, &mut all)?;
    }
    Ok(all)
}
