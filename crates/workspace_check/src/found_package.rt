//! The finding of one package, with the verdicts that were found with it.
ghost use Rattle.std.specs.Prelude.{ℕ, ◌<◌, Contains, IfOk, OnOk, length};
ghost use Rattle.base_files.specs.Packages.{package_paths};
ghost use Rattle.workspace_graph.specs.Graphs.{OfPackage};
ghost use Rattle.workspace_check.specs.Found.{AreVerdictsOf, KnowsVerdicts};
ghost use Rattle.workspace_check.specs.Steps.{AreGathered, AreKnownBelow, IsGathered, IsKnownWithBelow, IsFoundPackage, PushesOptional};
ghost use Rattle.workspace_check.specs.KnownFindings.{IsVerdictIfKnown};

use crate::finding::SharedFinding;
use crate::findings::judge_next;
use crate::gathered::{Gathered, take_known, verdict_found};
use crate::known::{Known, KnownVerdict};
use std::alloc::{AllocError, Global};
use types_declared::ExportTable;
use workspace_graph::Graph;

/// The finding of a package; the export data of this package and of the packages without faults that it builds on; and the verdicts on all
/// of these that were not known before.
#[derive(Drop)]
pub struct FoundPackage {
    pub finding: SharedFinding,
    pub export_table: ExportTable,
    pub found: Vec<KnownVerdict>,
}

/// Adds the finding of a package, unless it is there: the known one, or else a new one.
pub(crate) fn take_or_judge(
    alloc: Global,
    graph: &Graph,
    number: usize,
    known: &Known,
    all: &mut Gathered,
) -> Result<(), AllocError>
    requires number { number < length (package_paths graph.now) }
    requires known { KnowsVerdicts graph.now known.now }
    requires all { AreGathered graph.now (length (package_paths graph.now)) all.old }
    requires below { OfPackage graph.now number (λ p. AreKnownBelow graph.now p all.old) }
    ensures { OnOk result (OfPackage graph.now number (λ p. IsKnownWithBelow graph.now p number all.new)) }
{
    if all.knows(number) {
        return Ok(());
    }
    take_known(graph, number, known, all)?;
    judge_next(alloc, graph, number, &[], all)?;
    Ok(())
}

/// Returns the verdict on a package if it was not known before.
fn new_verdict(
    graph: &Graph,
    number: usize,
    known: &Known,
    now: &Gathered,
) -> Result<Option<KnownVerdict>, AllocError>
    requires number { number < length (package_paths graph.now) }
    requires now { AreGathered graph.now (length (package_paths graph.now)) now.now }
    ensures { IfOk result (λ found. OfPackage graph.now number (λ p. IsVerdictIfKnown graph.now p found)) }
{
    match known.get(number) {
        Some(_) => Ok(None),
        None => verdict_found(graph, number, now),
    }
}

/// Adds a verdict at the end, if there is one.
fn push_some(
    verdicts: &mut Vec<KnownVerdict>,
    verdict: Option<KnownVerdict>,
) -> Result<(), AllocError>
    ensures { OnOk result (PushesOptional verdicts.old.items verdicts.new.items verdict) }
{
    match verdict {
        None => Ok(()),
        Some(verdict) => {
            verdicts.push(verdict)?;
            Ok(())
        }
    }
}

/// Returns the verdicts on the packages of `numbers` that were not known before.
pub(crate) fn new_verdicts(
    alloc: Global,
    graph: &Graph,
    numbers: &[usize],
    known: &Known,
    now: &Gathered,
) -> Result<Vec<KnownVerdict>, AllocError>
    requires numbers { (n : ℕ) → Contains numbers.now n → n < length (package_paths graph.now) }
    requires now { AreGathered graph.now (length (package_paths graph.now)) now.now }
    ensures { IfOk result (λ found. AreVerdictsOf graph.now found.items) }
{
    let mut found = Vec::new(alloc);
    for number in numbers {
        let verdict = new_verdict(graph, *number, known, now)?;
        push_some(&mut found, verdict)?;
    }
    Ok(found)
}

/// Returns the finding of the package of a number, with all export data and the verdicts that were found.
pub(crate) fn found_package(
    number: usize,
    all: Gathered,
    found: Vec<KnownVerdict>,
) -> Result<FoundPackage, AllocError>
    requires { IsGathered all.findings.items number }
    ensures { IfOk result (IsFoundPackage number all found.items) }
{
    let finding = all.finding_there(number).clone()?;
    let export_table = all.export_table;
    Ok(FoundPackage {
        finding,
        export_table,
        found,
    })
}
