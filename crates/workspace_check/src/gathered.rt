//! Findings of some packages, gathered in one table by which other packages are judged.
ghost use Rattle.std.specs.Prelude.{◌≡◌, ◌<◌, ◌↔◌, ℕ, List, length, IfOk, IsTrue, MatchOption, None, OnOk, Some, slice_get};
ghost use Rattle.std.proofs.Math.ListN.{set};
ghost use Rattle.base_files.specs.Packages.{package_paths};
ghost use Rattle.workspace_graph.specs.Graphs.{OfPackage};
ghost use Rattle.types_declared.specs.ExportTablesView.{EndsAt, ComesAfterAll, SetsKnown, export_data_in, name_in, no_export_data};
ghost use Rattle.workspace_check.specs.declared.finding.Finding.{Finding as Found};
ghost use Rattle.workspace_check.specs.Found.{KnowsVerdicts};
ghost use Rattle.workspace_check.specs.KnownFindings.{IsVerdictIfKnown};
ghost use Rattle.workspace_check.specs.Steps.{AreGathered, AreTakenOf, HoldAllBelow, IsGathered, KnewOneMore};

use crate::finding::SharedFinding;
use crate::known::{Known, KnownVerdict};
use std::alloc::{AllocError, Global};
use types_declared::ExportTable;
use workspace_graph::Graph;

/// Findings of some packages, by package number, and the export data of those without faults.
#[derive(Drop)]
pub(crate) struct Gathered {
    pub(crate) findings: Vec<Option<SharedFinding>>,
    pub(crate) export_table: ExportTable,
}

/// Known findings that are taken from `Known` one after the other, and whether none was missing so far.
#[derive(Drop)]
pub(crate) struct Taken {
    pub(crate) all: Gathered,
    pub(crate) knew_each: bool,
}

/// Returns a list of `count` missing findings.
fn no_findings(alloc: Global, count: usize) -> Result<Vec<Option<SharedFinding>>, AllocError>
    ensures size { IfOk result (λ findings. length findings.items ≡ count) }
    ensures none { IfOk result (λ findings. (n : ℕ) → IsGathered findings.items n → ⊥) }
{
    let findings = vec![in alloc; None; count]?;
    Ok(findings)
}

impl Gathered {
    /// Returns `count` missing findings, with room for the export data of `room` packages.
    fn new(alloc: Global, count: usize, room: usize) -> Result<Gathered, AllocError>
        ensures size { IfOk result (λ all. length all.findings.items ≡ count) }
        ensures none { IfOk result (λ all. (n : ℕ) → IsGathered all.findings.items n → ⊥) }
        ensures names { IfOk result (λ all. (path : List ℕ) → name_in all.export_table path ≡ None) }
        ensures export_table { IfOk result (λ all. (path : List ℕ) → export_data_in all.export_table path ≡ no_export_data path) }
        ensures behind { IfOk result (λ all. (path : List ℕ) → ComesAfterAll all.export_table path) }
    {
        let findings = no_findings(alloc, count)?;
        let export_table = ExportTable::with_capacity(alloc, room)?;
        Ok(Gathered {
            findings,
            export_table,
        })
    }

    /// Returns the finding of the package of a number, if it is known.
    pub(crate) fn finding(&self, number: usize) -> Option<&SharedFinding>
        ensures { MatchOption result ((f : Found) → slice_get self.now.findings.items number ≡ Some (Some f) → ⊥) (λ f. slice_get self.now.findings.items number ≡ Some (Some f.now)) }
    {
        match self.findings.get(number) {
            Some(finding) => finding.as_ref(),
            None => None,
        }
    }

    /// Whether the finding of the package of a number is known.
    pub(crate) fn knows(&self, number: usize) -> bool
        ensures { IsTrue result ↔ IsGathered self.now.findings.items number }
    {
        match self.finding(number) {
            Some(_) => true,
            None => false,
        }
    }

    /// Returns the finding of the package of a number, which must be known.
    pub(crate) fn finding_there(&self, number: usize) -> &SharedFinding
        requires { IsGathered self.now.findings.items number }
        ensures { slice_get self.now.findings.items number ≡ Some (Some result.now) }
    {
        match self.finding(number) {
            Some(finding) => finding,
            None => unreachable!(),
        }
    }

    /// Whether the findings of all packages are known.
    pub(crate) fn knows_all(&self) -> bool
        ensures { IsTrue result → (n : ℕ) → n < length self.now.findings.items → IsGathered self.now.findings.items n }
    {
        for number in 0..self.findings.len() {
            if !self.knows(number) {
                return false;
            }
        }
        true
    }

    /// Sets the finding and the export data of a package from a known verdict.
    pub(crate) fn keep(&mut self, number: usize, verdict: &KnownVerdict) -> Result<(), AllocError>
        requires { number < length self.old.findings.items }
        ensures findings { OnOk result (self.new.findings.items ≡ set self.old.findings.items number (Some verdict.now.finding)) }
        ensures export_table { OnOk result (SetsKnown self.old.export_table self.new.export_table verdict.now.finding.path verdict.now.known) }
    {
        let finding = verdict.finding.clone()?;
        verdict.share_with(&mut self.export_table)?;
        self.findings[number] = Some(finding);
        Ok(())
    }

    /// Sets the finding and the export data of a package from a known verdict. The package's path must come after all paths that have
    /// export data here.
    fn keep_next(&mut self, number: usize, verdict: &KnownVerdict) -> Result<(), AllocError>
        requires number { number < length self.old.findings.items }
        requires behind { ComesAfterAll self.old.export_table verdict.now.finding.path }
        ensures findings { OnOk result (self.new.findings.items ≡ set self.old.findings.items number (Some verdict.now.finding)) }
        ensures export_table { OnOk result (SetsKnown self.old.export_table self.new.export_table verdict.now.finding.path verdict.now.known) }
        ensures end { OnOk result (EndsAt self.new.export_table verdict.now.finding.path) }
    {
        let finding = verdict.finding.clone()?;
        verdict.push_to(&mut self.export_table)?;
        self.findings[number] = Some(finding);
        Ok(())
    }
}

/// Takes the known finding of a package, if there is one. The package must have none here.
pub(crate) fn take_known(
    graph: &Graph,
    number: usize,
    known: &Known,
    all: &mut Gathered,
) -> Result<(), AllocError>
    requires number { number < length (package_paths graph.now) }
    requires known { KnowsVerdicts graph.now known.now }
    requires all { AreGathered graph.now (length (package_paths graph.now)) all.old }
    requires unknown { IsGathered all.old.findings.items number → ⊥ }
    ensures right { OnOk result (AreGathered graph.now (length (package_paths graph.now)) all.new) }
    ensures others { OnOk result ((n : ℕ) → (n ≡ number → ⊥) → IsGathered all.new.findings.items n → IsGathered all.old.findings.items n) }
    ensures kept { OnOk result ((n : ℕ) → IsGathered all.old.findings.items n → IsGathered all.new.findings.items n) }
{
    let Some(verdict) = known.get(number) else {
        return Ok(());
    };
    all.keep(number, verdict)?;
    Ok(())
}

/// Takes the known finding of a package, or clears `knew_each` if there is none. The package's path must come after all paths that have
/// export data here.
fn take_next(
    graph: &Graph,
    number: usize,
    known: &Known,
    taken: &mut Taken,
) -> Result<(), AllocError>
    requires number { number < length (package_paths graph.now) }
    requires known { KnowsVerdicts graph.now known.now }
    requires all { AreGathered graph.now (length (package_paths graph.now)) taken.old.all }
    requires unknown { IsGathered taken.old.all.findings.items number → ⊥ }
    requires behind { OfPackage graph.now number (ComesAfterAll taken.old.all.export_table) }
    ensures right { OnOk result (AreGathered graph.now (length (package_paths graph.now)) taken.new.all) }
    ensures others { OnOk result ((n : ℕ) → (n ≡ number → ⊥) → IsGathered taken.new.all.findings.items n → IsGathered taken.old.all.findings.items n) }
    ensures each { OnOk result (KnewOneMore number taken.old taken.new) }
    ensures end { OnOk result (OfPackage graph.now number (EndsAt taken.new.all.export_table)) }
{
    let Some(verdict) = known.get(number) else {
        taken.knew_each = false;
        return Ok(());
    };
    taken.all.keep_next(number, verdict)?;
    Ok(())
}

/// Gathers all known findings, in the order of the packages' paths: so a table by path grows at its end.
pub(crate) fn gather(alloc: Global, graph: &Graph, known: &Known) -> Result<Gathered, AllocError>
    requires { KnowsVerdicts graph.now known.now }
    ensures { IfOk result (λ all. AreGathered graph.now (length (package_paths graph.now)) all) }
{
    let all = Gathered::new(alloc, graph.len(), graph.len())?;
    let mut taken = Taken {
        all,
        knew_each: true,
    };
    for number in 0..graph.len() {
        take_next(graph, number, known, &mut taken)?;
    }
    Ok(taken.all)
}

/// Gathers the known findings of the packages of `numbers` alone, in the order of their paths.
pub(crate) fn gather_some(
    alloc: Global,
    graph: &Graph,
    numbers: &[usize],
    known: &Known,
) -> Result<Taken, AllocError>
    requires numbers { HoldAllBelow graph.now numbers.now }
    requires known { KnowsVerdicts graph.now known.now }
    ensures { IfOk result (AreTakenOf graph.now numbers.now) }
{
    let all = Gathered::new(alloc, graph.len(), numbers.len())?;
    let mut taken = Taken {
        all,
        knew_each: true,
    };
    for number in numbers {
        take_next(graph, *number, known, &mut taken)?;
    }
    Ok(taken)
}

/// Returns the verdict on a package, if its finding was gathered.
pub(crate) fn verdict_found(
    graph: &Graph,
    number: usize,
    now: &Gathered,
) -> Result<Option<KnownVerdict>, AllocError>
    requires number { number < length (package_paths graph.now) }
    requires now { AreGathered graph.now (length (package_paths graph.now)) now.now }
    ensures { IfOk result (λ found. OfPackage graph.now number (λ p. IsVerdictIfKnown graph.now p found)) }
{
    let Some(finding) = now.finding(number) else {
        return Ok(None);
    };
    let finding = finding.clone()?;
    let verdict = KnownVerdict::of(finding, &now.export_table)?;
    Ok(Some(verdict))
}

/// Returns the verdict on a package: the one known before, or else the gathered one, if there is any.
fn verdict_after(
    graph: &Graph,
    number: usize,
    before: &Known,
    now: &Gathered,
) -> Result<Option<KnownVerdict>, AllocError>
    requires number { number < length (package_paths graph.now) }
    requires before { KnowsVerdicts graph.now before.now }
    requires now { AreGathered graph.now (length (package_paths graph.now)) now.now }
    ensures { IfOk result (λ found. OfPackage graph.now number (λ p. IsVerdictIfKnown graph.now p found)) }
{
    if let Some(verdict) = before.get(number) {
        let verdict = verdict.clone()?;
        return Ok(Some(verdict));
    }
    verdict_found(graph, number, now)
}

/// Returns the verdicts that were known before, together with the gathered ones.
pub(crate) fn all_known_verdicts(
    alloc: Global,
    graph: &Graph,
    before: &Known,
    now: &Gathered,
) -> Result<Known, AllocError>
    requires before { KnowsVerdicts graph.now before.now }
    requires now { AreGathered graph.now (length (package_paths graph.now)) now.now }
    ensures { IfOk result (KnowsVerdicts graph.now) }
{
    let mut all = Known::with_capacity(alloc, graph.len())?;
    for number in 0..graph.len() {
        let verdict = verdict_after(graph, number, before, now)?;
        all.push(verdict)?;
    }
    Ok(all)
}
