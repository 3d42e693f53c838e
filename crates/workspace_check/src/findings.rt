//! Finds the findings of all packages of a workspace, and checks only packages without a known verdict.
ghost use Rattle.std.specs.Prelude.{ℕ, ◌≡◌, ◌<◌, List, length, None, IfOk, OnOk};
ghost use Rattle.base_files.specs.Packages.{package_paths};
ghost use Rattle.base_files.specs.Workspace.{Workspace};
ghost use Rattle.workspace_graph.specs.Graphs.{OfPackage};
ghost use Rattle.types_declared.specs.ExportTablesView.{name_in};
ghost use Rattle.workspace_check.specs.Cycles.{DecideCycles};
ghost use Rattle.workspace_check.specs.Earlier.{KeepExportData, HaveSameImports};
ghost use Rattle.workspace_check.specs.Found.{IsFound, KnowsVerdicts};
ghost use Rattle.workspace_check.specs.PassedMarks.{ArePassedBelow};
ghost use Rattle.workspace_check.specs.KnownFindings.{verdicts_by, AreNamedEntries};
ghost use Rattle.workspace_check.specs.Steps.{AreAllGathered, AreGathered, IsBuildOrder, IsGathered, IsJudged, KnowsAllFindings, AddsOptional, LearnsFinding, AddsFinding, LearnsIfMissing, somes};

use crate::cycles::cycles;
use crate::earlier::Earlier;
use crate::finding::{Finding, SharedFinding};
use crate::gathered::{Gathered, all_known_verdicts, gather};
use crate::judging::{JudgedPackage, judge};
use crate::known::Known;
use crate::order::order;
use crate::reuse::{PassedPackages, keeps_export_data, reusable_verdict};
use std::alloc::{AllocError, Global};
use types_declared::{ExportData, ExportTable};
use types_expr::symbol::SharedPath;
use workspace_graph::Graph;

/// The findings of all packages, by package number, and the export data of packages without faults.
#[derive(Drop)]
pub struct Findings {
    pub packages: Vec<SharedFinding>,
    pub export_table: ExportTable,
}

/// The findings of all packages of a workspace, and the verdicts that are known after checking.
#[derive(Drop)]
pub struct Found {
    pub findings: Findings,
    pub known: Known,
}

/// Adds the export data of a package, if there is any.
fn add(
    alloc: Global,
    all: &mut ExportTable,
    path: &SharedPath,
    export_data: Option<ExportData>,
) -> Result<(), AllocError>
    ensures { OnOk result (AddsOptional all.old all.new path.now export_data) }
{
    match export_data {
        None => Ok(()),
        Some(export_data) => all.add(alloc, path.path(), export_data),
    }
}

/// Adds the export data of a judged package to `all`, and returns its finding.
pub(crate) fn enter_judged(
    alloc: Global,
    path: SharedPath,
    judged: JudgedPackage,
    all: &mut ExportTable,
) -> Result<Finding, AllocError>
    ensures { IfOk result (λ finding. (w : Workspace) → (p : List ℕ) → path ≡ p → AreNamedEntries all.old → name_in all.old p ≡ None → IsJudged w (verdicts_by all.old) p judged → LearnsFinding w p finding all.old all.new) }
{
    let JudgedPackage {
        faults,
        export_data,
        members,
        enterings,
        qualified,
    } = judged;
    add(alloc, all, &path, export_data)?;
    Ok(Finding {
        path,
        faults,
        members,
        enterings,
        qualified,
    })
}

/// Judges a package by the verdicts on the packages that it builds on, adds its export data and returns its finding.
fn judge_one(
    alloc: Global,
    graph: &Graph,
    number: usize,
    path: SharedPath,
    cycles: &[usize],
    all: &mut ExportTable,
) -> Result<Finding, AllocError>
    requires in_range { number < length (package_paths graph.now) }
    requires path { OfPackage graph.now number (λ p. path ≡ p) }
    requires cycles { DecideCycles graph.now cycles.now }
    requires whole { AreNamedEntries all.old }
    requires fresh { OfPackage graph.now number (λ p. name_in all.old p ≡ None) }
    ensures { IfOk result (λ finding. OfPackage graph.now number (λ p. LearnsFinding graph.now p finding all.old all.new)) }
{
    let judged = judge(alloc, graph, number, &path, cycles, all)?;
    enter_judged(alloc, path, judged, all)
}

/// Judges a package without a known verdict. The verdicts on all packages that it builds on must be known.
fn judge_unknown(
    alloc: Global,
    graph: &Graph,
    number: usize,
    cycles: &[usize],
    all: &mut Gathered,
) -> Result<(), AllocError>
    requires in_range { number < length (package_paths graph.now) }
    requires cycles { DecideCycles graph.now cycles.now }
    requires all { AreGathered graph.now (length (package_paths graph.now)) all.old }
    requires unknown { IsGathered all.old.findings.items number → ⊥ }
    ensures { OnOk result (OfPackage graph.now number (λ p. AddsFinding graph.now p number all.old all.new)) }
{
    let path = SharedPath::new(alloc, &graph.package(number).path)?;
    let finding = judge_one(alloc, graph, number, path, cycles, &mut all.export_table)?;
    let finding = SharedFinding::new(alloc, finding)?;
    all.findings[number] = Some(finding);
    Ok(())
}

/// Judges a package, unless its finding is known.
pub(crate) fn judge_next(
    alloc: Global,
    graph: &Graph,
    number: usize,
    cycles: &[usize],
    all: &mut Gathered,
) -> Result<(), AllocError>
    requires in_range { number < length (package_paths graph.now) }
    requires cycles { DecideCycles graph.now cycles.now }
    requires all { AreGathered graph.now (length (package_paths graph.now)) all.old }
    ensures { OnOk result (OfPackage graph.now number (λ p. LearnsIfMissing graph.now p number all.old all.new)) }
{
    if all.knows(number) {
        return Ok(());
    }
    judge_unknown(alloc, graph, number, cycles, all)?;
    Ok(())
}

/// Judges each package without a known finding, in an order in which each package comes after all that it builds on.
fn judge_all(
    alloc: Global,
    graph: &Graph,
    order: &[usize],
    cycles: &[usize],
    all: &mut Gathered,
) -> Result<(), AllocError>
    requires order { IsBuildOrder graph.now order.now }
    requires cycles { DecideCycles graph.now cycles.now }
    requires all { AreGathered graph.now (length (package_paths graph.now)) all.old }
    ensures { OnOk result (AreAllGathered graph.now order.now all.new) }
{
    for number in order {
        judge_next(alloc, graph, *number, cycles, all)?;
    }
    Ok(())
}

/// Adds the finding of a package, unless it is known: the one from before the change if that is still right, else a new one.
fn keep_or_judge(
    alloc: Global,
    graph: &Graph,
    number: usize,
    cycles: &[usize],
    earlier: &Earlier,
    steady: &PassedPackages,
    all: &mut Gathered,
) -> Result<(), AllocError>
    requires in_range { number < length (package_paths graph.now) }
    requires cycles { DecideCycles graph.now cycles.now }
    requires all { AreGathered graph.now (length (package_paths graph.now)) all.old }
    requires same { HaveSameImports earlier.now.graph graph.now }
    requires steady { KeepExportData graph.now earlier.now.verdicts.items all.old steady.now.marks.items }
    requires below { OfPackage graph.now number (λ p. ArePassedBelow graph.now p number steady.now) }
    ensures { OnOk result (OfPackage graph.now number (λ p. LearnsIfMissing graph.now p number all.old all.new)) }
{
    if all.knows(number) {
        return Ok(());
    }
    if let Some(verdict) = reusable_verdict(earlier, graph, number, steady) {
        all.keep(number, verdict)?;
        return Ok(());
    }
    judge_unknown(alloc, graph, number, cycles, all)?;
    Ok(())
}

/// Adds the finding of each package in order: the one from before the change where that is still right, else a new one.
fn judge_changed(
    alloc: Global,
    graph: &Graph,
    order: &[usize],
    cycles: &[usize],
    earlier: &Earlier,
    all: &mut Gathered,
) -> Result<(), AllocError>
    requires order { IsBuildOrder graph.now order.now }
    requires cycles { DecideCycles graph.now cycles.now }
    requires all { AreGathered graph.now (length (package_paths graph.now)) all.old }
    requires same { HaveSameImports earlier.now.graph graph.now }
    ensures { OnOk result (AreAllGathered graph.now order.now all.new) }
{
    let mut steady = PassedPackages::new(alloc, graph)?;
    for number in order {
        keep_or_judge(alloc, graph, *number, cycles, earlier, &steady, all)?;
        let same = keeps_export_data(earlier, graph, *number, &all.export_table);
        steady.pass(alloc, graph, *number, same)?;
    }
    Ok(())
}

/// Adds the missing findings, in an order in which each package comes after all that it builds on.
fn judge_in(
    alloc: Global,
    graph: &Graph,
    order: &[usize],
    cycles: &[usize],
    known: &Known,
    all: &mut Gathered,
) -> Result<(), AllocError>
    requires order { IsBuildOrder graph.now order.now }
    requires cycles { DecideCycles graph.now cycles.now }
    requires all { AreGathered graph.now (length (package_paths graph.now)) all.old }
    ensures { OnOk result (AreAllGathered graph.now order.now all.new) }
{
    match known.earlier(graph) {
        Some(earlier) => judge_changed(alloc, graph, order, cycles, earlier, all),
        None => judge_all(alloc, graph, order, cycles, all),
    }
}

/// Adds the missing findings. No order is computed if none is missing.
fn judge_rest(
    alloc: Global,
    graph: &Graph,
    known: &Known,
    all: &mut Gathered,
) -> Result<(), AllocError>
    requires { AreGathered graph.now (length (package_paths graph.now)) all.old }
    ensures { OnOk result (KnowsAllFindings graph.now all.new) }
{
    if all.knows_all() {
        return Ok(());
    }
    let order = order(alloc, graph)?;
    let cycles = cycles(alloc, graph, &order)?;
    judge_in(alloc, graph, &order, &cycles, known, all)
}

/// Returns the findings of a list in which none is missing.
fn all_there(
    alloc: Global,
    findings: &[Option<SharedFinding>],
) -> Result<Vec<SharedFinding>, AllocError>
    requires { (n : ℕ) → n < length findings.now → IsGathered findings.now n }
    ensures { IfOk result (λ packages. somes packages.items ≡ findings.now) }
{
    let mut packages = Vec::with_capacity(alloc, findings.len())?;
    for there in findings {
        if let Some(finding) = there {
            packages.push(finding.clone()?)?;
        }
    }
    Ok(packages)
}

/// Returns the findings of all packages: those in `gathered`, and the missing ones.
pub(crate) fn verdicts_from(
    alloc: Global,
    graph: &Graph,
    known: &Known,
    gathered: Gathered,
) -> Result<Found, AllocError>
    requires known { KnowsVerdicts graph.now known.now }
    requires gathered { AreGathered graph.now (length (package_paths graph.now)) gathered }
    ensures { IfOk result (IsFound graph.now) }
{
    let mut all = gathered;
    judge_rest(alloc, graph, known, &mut all)?;
    let known = all_known_verdicts(alloc, graph, known, &all)?;
    let packages = all_there(alloc, &all.findings)?;
    let export_table = all.export_table;
    let findings = Findings {
        packages,
        export_table,
    };
    Ok(Found { findings, known })
}

/// Returns the findings of all packages. A known finding is shared. A finding from before the change is kept if the package has the same
/// files and sees the same export data of its imports. Every other package is checked once, after all that it builds on.
pub fn verdicts(alloc: Global, graph: &Graph, known: &Known) -> Result<Found, AllocError>
    requires { KnowsVerdicts graph.now known.now }
    ensures { IfOk result (IsFound graph.now) }
{
    let all = gather(alloc, graph, known)?;
    verdicts_from(alloc, graph, known, all)
}
