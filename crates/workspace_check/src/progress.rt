//! Judges the packages that one package builds on, where a caller checks that package itself.
ghost use Rattle.std.specs.Prelude.{ℕ, ◌≡◌, ◌<◌, ◌↔◌, ◌++◌, [], ◌∷◌, length, Contains, IfOk, IsTrue, OnOk};
ghost use Rattle.std.specs.List.Sorted.{IsStrictlyIncreasing};
ghost use Rattle.base_files.specs.Packages.{package_paths};
ghost use Rattle.base_files.specs.Workspace.{Workspace};
ghost use Rattle.workspace_graph.specs.Graphs.{ListsPackages, OfPackage};
ghost use Rattle.workspace_graph.specs.Packages.{IsInClosure};
ghost use Rattle.types_declared.specs.States.{state_in};
ghost use Rattle.workspace_check.specs.Cycles.{DecideCycles};
ghost use Rattle.workspace_check.specs.Found.{AreVerdictsOf, IsFindingWith, KnowsVerdicts};
ghost use Rattle.workspace_check.specs.Steps.{
  AreGathered,
  AreGatheredOf,
  HoldAllBelow,
  IsBuildOrder,
  IsCheckResult,
  IsGathered,
  SeesExactly,
  IsProgress,
  KnowsExactly,
  AddsFinding,
  LearnsIfAmong,
};
ghost use Rattle.workspace_check.specs.KnownFindings.{verdicts_by};
ghost use Rattle.workspace_check.specs.Verdicts.{AreStates};

use crate::cycles::cycles;
use crate::finding::SharedFinding;
use crate::findings::{enter_judged, judge_next};
use crate::found_package::{FoundPackage, found_package, new_verdicts, take_or_judge};
use crate::gathered::{Gathered, Taken, gather_some};
use crate::judging::place_checked;
use crate::known::Known;
use crate::order::order;
use crate::seeing::import_states;
use std::alloc::{AllocError, Global};
use types_check::Checked;
use types_declared::ExportTable;
use types_expr::symbol::SharedPath;
use workspace_graph::{Graph, PackagesBelow, is_among};

/// The findings of the packages that one package builds on, and of this package once it was learnt. `knew_each` says that none of the
/// former was missing at the start.
#[derive(Drop)]
pub struct Progress {
    pub(crate) all: Gathered,
    pub(crate) below: PackagesBelow,
    pub(crate) knew_each: bool,
}

/// Judges a package if it is among `below` and its finding is missing.
fn judge_among(
    alloc: Global,
    graph: &Graph,
    below: &[usize],
    number: usize,
    cycles: &[usize],
    all: &mut Gathered,
) -> Result<(), AllocError>
    requires in_range { number < length (package_paths graph.now) }
    requires below { HoldAllBelow graph.now below.now }
    requires cycles { DecideCycles graph.now cycles.now }
    requires all { AreGathered graph.now (length (package_paths graph.now)) all.old }
    ensures { OnOk result (OfPackage graph.now number (λ p. LearnsIfAmong graph.now below.now p number all.old all.new)) }
{
    if is_among(below, number) {
        judge_next(alloc, graph, number, cycles, all)
    } else {
        Ok(())
    }
}

/// Judges the packages of `below` whose findings are missing, in `order`.
fn judge_ordered(
    alloc: Global,
    graph: &Graph,
    order: &[usize],
    cycles: &[usize],
    below: &[usize],
    all: &mut Gathered,
) -> Result<(), AllocError>
    requires order { IsBuildOrder graph.now order.now }
    requires cycles { DecideCycles graph.now cycles.now }
    requires below { HoldAllBelow graph.now below.now }
    requires all { AreGatheredOf graph.now below.now all.old }
    ensures { OnOk result (KnowsExactly graph.now below.now all.new) }
{
    for next in order {
        judge_among(alloc, graph, below, *next, cycles, all)?;
    }
    Ok(())
}

/// Judges the packages of `below` whose findings are missing.
fn judge_below(
    alloc: Global,
    graph: &Graph,
    below: &[usize],
    all: &mut Gathered,
) -> Result<(), AllocError>
    requires below { HoldAllBelow graph.now below.now }
    requires all { AreGatheredOf graph.now below.now all.old }
    ensures { OnOk result (KnowsExactly graph.now below.now all.new) }
{
    let order = order(alloc, graph)?;
    let cycles = cycles(alloc, graph, &order)?;
    judge_ordered(alloc, graph, &order, &cycles, below, all)
}

/// Returns the findings of the packages of `below`: the known ones, and new ones. No order is computed if none is missing.
fn judged(alloc: Global, graph: &Graph, below: &[usize], known: &Known) -> Result<Taken, AllocError>
    requires below { HoldAllBelow graph.now below.now }
    requires known { KnowsVerdicts graph.now known.now }
    ensures { IfOk result (λ taken. KnowsExactly graph.now below.now taken.all) }
{
    let mut taken = gather_some(alloc, graph, below, known)?;
    if taken.knew_each {
        return Ok(taken);
    }
    judge_below(alloc, graph, below, &mut taken.all)?;
    Ok(taken)
}

/// Returns `numbers` with `one` added at the end.
fn with_one(alloc: Global, numbers: &[usize], one: usize) -> Result<Vec<usize>, AllocError>
    ensures { IfOk result (λ all. all.items ≡ numbers.now ++ one ∷ []) }
{
    let mut all = Vec::from_slice(alloc, numbers)?;
    all.push(one)?;
    Ok(all)
}

/// Returns the packages of which a new finding is possible: `number`, and those of `below` unless all of their findings were known.
fn maybe_found(
    alloc: Global,
    below: &[usize],
    knew_each: bool,
    number: usize,
) -> Result<Vec<usize>, AllocError>
    ensures { IfOk result (λ numbers. (n : ℕ) → Contains numbers.items n → Contains (below.now ++ number ∷ []) n) }
{
    if knew_each {
        with_one(alloc, &[], number)
    } else {
        with_one(alloc, below, number)
    }
}

/// Adds the finding of a package from what the caller's check found.
fn learn_checked(
    alloc: Global,
    graph: &Graph,
    number: usize,
    path: SharedPath,
    checked: Checked,
    all: &mut Gathered,
) -> Result<(), AllocError>
    requires in_range { number < length (package_paths graph.now) }
    requires all { AreGathered graph.now (length (package_paths graph.now)) all.old }
    requires unknown { IsGathered all.old.findings.items number → ⊥ }
    requires path { OfPackage graph.now number (λ p. path ≡ p) }
    requires checked { OfPackage graph.now number (λ p. IsCheckResult graph.now (verdicts_by all.old.export_table) p checked) }
    ensures { OnOk result (OfPackage graph.now number (λ p. AddsFinding graph.now p number all.old all.new)) }
{
    let judged = place_checked(alloc, graph.package(number), checked)?;
    let finding = enter_judged(alloc, path, judged, &mut all.export_table)?;
    let finding = SharedFinding::new(alloc, finding)?;
    all.findings[number] = Some(finding);
    Ok(())
}

impl Progress {
    /// Judges just the packages that the package builds on, which it finds in `closure`. Known verdicts are taken over, and those on other
    /// packages are ignored.
    pub fn before(
        alloc: Global,
        graph: &Graph,
        number: usize,
        closure: &[usize],
        known: &Known,
    ) -> Result<Progress, AllocError>
        requires in_range { number < length (package_paths graph.now) }
        requires closure { OfPackage graph.now number (λ p. ListsPackages graph.now (IsInClosure graph.now p) closure.now) }
        requires rising { IsStrictlyIncreasing closure.now }
        requires known { KnowsVerdicts graph.now known.now }
        ensures right { IfOk result (IsProgress graph.now number) }
        ensures seen { IfOk result (λ progress. OfPackage graph.now number (λ p. SeesExactly graph.now p progress.all.export_table)) }
        ensures unknown { IfOk result (λ progress. IsGathered progress.all.findings.items number → ⊥) }
    {
        let below = graph.below_in(alloc, number, closure)?;
        let taken = judged(alloc, graph, below.built_on.as_slice(), known)?;
        let Taken { all, knew_each } = taken;
        Ok(Progress {
            all,
            below,
            knew_each,
        })
    }

    /// Whether the finding of the package of a number is known.
    pub fn knows(&self, number: usize) -> bool
        ensures { IsTrue result ↔ IsGathered self.now.all.findings.items number }
    {
        self.all.knows(number)
    }

    /// The export data of the packages without faults among those with a known finding.
    pub fn export_table(&self) -> &ExportTable
        ensures { result.now ≡ self.now.all.export_table }
    {
        &self.all.export_table
    }

    /// Returns the state of each path that the package imports, as a table that has nothing but these states.
    pub fn import_states(
        &self,
        alloc: Global,
        graph: &Graph,
        number: usize,
    ) -> Result<ExportTable, AllocError>
        requires in_range { number < length (package_paths graph.now) }
        requires right { IsProgress graph.now number self.now }
        ensures { IfOk result (λ noted. OfPackage graph.now number (λ p. AreStates graph.now (verdicts_by self.now.all.export_table) p (state_in noted.states))) }
    {
        import_states(
            alloc,
            graph,
            number,
            &self.below.back,
            &self.all.export_table,
        )
    }

    /// Adds the finding of the package from what the caller's check found. The finding must be missing.
    pub fn learn(
        &mut self,
        alloc: Global,
        graph: &Graph,
        number: usize,
        path: SharedPath,
        checked: Checked,
    ) -> Result<(), AllocError>
        requires in_range { number < length (package_paths graph.now) }
        requires right { IsProgress graph.now number self.old }
        requires unknown { IsGathered self.old.all.findings.items number → ⊥ }
        requires path { OfPackage graph.now number (λ p. path ≡ p) }
        requires checked { OfPackage graph.now number (λ p. IsCheckResult graph.now (verdicts_by self.old.all.export_table) p checked) }
        ensures { OnOk result (IsProgress graph.now number self.new) }
    {
        learn_checked(alloc, graph, number, path, checked, &mut self.all)?;
        Ok(())
    }

    /// Returns the finding of the package, which is judged if its finding is missing. With it come the new verdicts, on it and on the
    /// packages that it builds on.
    pub fn finish(
        self,
        alloc: Global,
        graph: &Graph,
        number: usize,
        known: &Known,
    ) -> Result<FoundPackage, AllocError>
        requires in_range { number < length (package_paths graph.now) }
        requires right { IsProgress graph.now number self }
        requires known { KnowsVerdicts graph.now known.now }
        ensures finding { IfOk result (λ made. OfPackage graph.now number (λ p. IsFindingWith graph.now p made.export_table made.finding)) }
        ensures verdicts { IfOk result (λ made. AreVerdictsOf graph.now made.found.items) }
    {
        let Progress {
            all,
            below,
            knew_each,
        } = self;
        let mut all = all;
        take_or_judge(alloc, graph, number, known, &mut all)?;
        let numbers = maybe_found(alloc, below.built_on.as_slice(), knew_each, number)?;
        let found = new_verdicts(alloc, graph, &numbers, known, &all)?;
        found_package(number, all, found)
    }
}
