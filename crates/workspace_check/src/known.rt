//! Known verdicts on packages of a workspace, and those on all packages before a change.
ghost use Rattle.std.specs.Prelude.{◌≡◌, ◌<◌, ◌≤◌, ◌↔◌, ◌++◌, [], ◌∷◌, length, max, vec_capacity, IfOk, IfSome, IsTrue, MatchOption, None, OnOk, Some, slice_get};
ghost use Rattle.std.proofs.Math.ListN.{set};
ghost use Rattle.base_files.specs.Workspace.{Workspace};
ghost use Rattle.types_expr.specs.WorldView.{known_at};
ghost use Rattle.types_declared.specs.ExportTablesView.{EndsAt, ComesAfterAll, SetsKnown};
ghost use Rattle.workspace_check.specs.Earlier.{HaveSameImports};
ghost use Rattle.workspace_check.specs.Found.{HoldSameVerdicts, KnowsVerdicts};
ghost use Rattle.workspace_check.specs.declared.known.KnownVerdict.{KnownVerdict as Verdict};

use crate::earlier::Earlier;
use crate::finding::{Finding, SharedFinding};
use crate::reuse::have_same_imports;
use std::alloc::{AllocError, Global};
use types_declared::{ExportTable, KnownExportData};
use types_expr::symbol::SharedPath;
use workspace_graph::Graph;

/// The finding of a package, with its export data if it has no fault. A clone shares both.
#[derive(Drop)]
pub struct KnownVerdict {
    pub(crate) finding: SharedFinding,
    pub(crate) known: KnownExportData,
}

impl KnownVerdict {
    /// Returns the verdict on the package of a finding, with the export data that `all` has of it.
    pub(crate) fn of(finding: SharedFinding, all: &ExportTable) -> Result<KnownVerdict, AllocError>
        ensures finding { IfOk result (λ one. one.finding ≡ finding) }
        ensures known { IfOk result (λ one. one.known ≡ known_at all.now.definitions finding.path) }
    {
        let known = all.known(finding.get().path.path())?;
        Ok(KnownVerdict { finding, known })
    }

    /// Returns the verdict with this finding, and with the export data that `all` has of the package at its path.
    pub fn new(
        alloc: Global,
        finding: Finding,
        all: &ExportTable,
    ) -> Result<KnownVerdict, AllocError>
        ensures finding { IfOk result (λ one. one.finding ≡ finding) }
        ensures known { IfOk result (λ one. one.known ≡ known_at all.now.definitions finding.path) }
    {
        let finding = SharedFinding::new(alloc, finding)?;
        KnownVerdict::of(finding, all)
    }

    /// The path of the package.
    pub fn path(&self) -> &SharedPath
        ensures { result.now ≡ self.now.finding.path }
    {
        &self.finding.get().path
    }

    /// The finding of the package.
    pub fn finding(&self) -> &Finding
        ensures { result.now ≡ self.now.finding }
    {
        self.finding.get()
    }

    /// The package's export data, known only if the package has no fault.
    pub fn known(&self) -> &KnownExportData
        ensures { result.now ≡ self.now.known }
    {
        &self.known
    }

    /// Sets the package's entry in `all` to this export data.
    pub(crate) fn share_with(&self, all: &mut ExportTable) -> Result<(), AllocError>
        ensures { OnOk result (SetsKnown all.old all.new self.now.finding.path self.now.known) }
    {
        let path = self.path().clone()?;
        all.share_known(path, &self.known)?;
        Ok(())
    }

    /// Adds the package's export data at the end of `all`. The package's path must come after all paths there.
    pub(crate) fn push_to(&self, all: &mut ExportTable) -> Result<(), AllocError>
        requires { ComesAfterAll all.old self.now.finding.path }
        ensures set { OnOk result (SetsKnown all.old all.new self.now.finding.path self.now.known) }
        ensures end { OnOk result (EndsAt all.new self.now.finding.path) }
    {
        let path = self.path().clone()?;
        all.push_known(path, &self.known)?;
        Ok(())
    }
}

impl Clone for KnownVerdict {
    ghost is_clone = { λ verdict copy. copy ≡ verdict };

    fn clone(&self) -> Result<KnownVerdict, AllocError> {
        let finding = self.finding.clone()?;
        let known = self.known.clone()?;
        Ok(KnownVerdict { finding, known })
    }
}

/// Known verdicts on some packages of a workspace, by package number; and those on all packages before a change, if they are kept.
pub struct Known {
    verdicts: Vec<Option<KnownVerdict>>,
    earlier: Option<Earlier>,
}

/// Written out, so that crates above call it and don't prove again how each part is dropped.
impl Drop for Known {
    fn drop(self) {
        let Known { verdicts, earlier } = self;
        drop(verdicts);
        drop(earlier);
    }
}

/// Returns the verdict on the package of a number, if it is known.
pub(crate) fn verdict_at(verdicts: &[Option<KnownVerdict>], number: usize) -> Option<&KnownVerdict>
    ensures { MatchOption result ((one : Verdict) → slice_get verdicts.now number ≡ Some (Some one) → ⊥) (λ one. slice_get verdicts.now number ≡ Some (Some one.now)) }
{
    match verdicts.get(number) {
        Some(verdict) => verdict.as_ref(),
        None => None,
    }
}

/// Clones a verdict, if there is one.
fn copy_of(verdict: &Option<KnownVerdict>) -> Result<Option<KnownVerdict>, AllocError>
    ensures { IfOk result (λ copy. copy ≡ verdict.now) }
{
    match verdict {
        Some(verdict) => Ok(Some(verdict.clone()?)),
        None => Ok(None),
    }
}

/// Clones a list of verdicts, with room for `room` of them if that is more.
fn copies(
    alloc: Global,
    verdicts: &[Option<KnownVerdict>],
    room: usize,
) -> Result<Vec<Option<KnownVerdict>>, AllocError>
    ensures items { IfOk result (λ copies. copies.items ≡ verdicts.now) }
    ensures room { IfOk result (λ copies. vec_capacity copies ≡ max room (length verdicts.now)) }
{
    let mut copies = Vec::with_capacity(alloc, room.max(verdicts.len()))?;
    for verdict in verdicts {
        copies.push_reserved(copy_of(verdict)?);
    }
    Ok(copies)
}

/// Adds missing verdicts at the end, until the list, which has room for them, has at least `count` places.
fn pad(verdicts: &mut Vec<Option<KnownVerdict>>, count: usize)
    requires { count ≤ vec_capacity verdicts.old }
    ensures size { count ≤ length verdicts.new.items }
    ensures same { HoldSameVerdicts verdicts.old.items verdicts.new.items }
    ensures room { vec_capacity verdicts.new ≡ vec_capacity verdicts.old }
{
    for _place in verdicts.len()..count {
        verdicts.push_reserved(None);
    }
}

impl Known {
    /// Returns no verdicts.
    pub fn new(alloc: Global) -> Known
        ensures nothing { result.verdicts.items ≡ [] }
        ensures right { (w : Workspace) → KnowsVerdicts w result }
    {
        Known {
            verdicts: Vec::new(alloc),
            earlier: None,
        }
    }

    /// Returns no verdicts, with room for those on `count` packages.
    pub fn with_capacity(alloc: Global, count: usize) -> Result<Known, AllocError>
        ensures nothing { IfOk result (λ known. known.verdicts.items ≡ []) }
        ensures right { IfOk result (λ known. (w : Workspace) → KnowsVerdicts w known) }
        ensures room { IfOk result (λ known. vec_capacity known.verdicts ≡ count) }
    {
        let verdicts = Vec::with_capacity(alloc, count)?;
        Ok(Known {
            verdicts,
            earlier: None,
        })
    }

    /// Whether the list has no place for any package.
    pub fn is_empty(&self) -> bool
        ensures { IsTrue result ↔ (self.now.verdicts.items ≡ []) }
    {
        self.verdicts.is_empty()
    }

    /// Returns the verdict on the package of a number, if it is known.
    pub fn get(&self, number: usize) -> Option<&KnownVerdict>
        ensures { MatchOption result ((one : Verdict) → slice_get self.now.verdicts.items number ≡ Some (Some one) → ⊥) (λ one. slice_get self.now.verdicts.items number ≡ Some (Some one.now)) }
    {
        verdict_at(&self.verdicts, number)
    }

    /// Adds a place for the next package, with its verdict if one is given.
    pub fn push(&mut self, verdict: Option<KnownVerdict>) -> Result<(), AllocError>
        ensures { OnOk result (self.new.verdicts.items ≡ self.old.verdicts.items ++ verdict ∷ []) }
    {
        self.verdicts.push(verdict)?;
        Ok(())
    }

    /// Clones the verdicts, and adds places until there are at least `count`.
    pub fn copy(&self, alloc: Global, count: usize) -> Result<Known, AllocError>
        ensures size { IfOk result (λ copy. count ≤ length copy.verdicts.items) }
        ensures same { IfOk result (λ copy. HoldSameVerdicts self.now.verdicts.items copy.verdicts.items) }
        ensures room { IfOk result (λ copy. vec_capacity copy.verdicts ≡ max count (length self.now.verdicts.items)) }
    {
        let mut verdicts = copies(alloc, &self.verdicts, count)?;
        pad(&mut verdicts, count);
        let mut copy = Known {
            verdicts,
            earlier: None,
        };
        copy.share_earlier(self)?;
        Ok(copy)
    }

    /// Sets the verdict on the package of a number.
    pub fn set(&mut self, number: usize, verdict: KnownVerdict)
        requires { number < length self.old.verdicts.items }
        ensures { self.new.verdicts.items ≡ set self.old.verdicts.items number (Some verdict) }
    {
        self.verdicts[number] = Some(verdict);
    }

    /// Whether each place has a verdict. Only speed rests on it.
    fn knows_all(&self) -> bool {
        for verdict in &self.verdicts {
            if verdict.is_none() {
                return false;
            }
        }
        true
    }

    /// Returns what the next workspace keeps as the verdicts before its change: these verdicts if none is missing, else those kept here.
    fn then(&self, alloc: Global, graph: &Graph) -> Result<Option<Earlier>, AllocError>
        requires { KnowsVerdicts graph.now self.now }
    {
        if self.knows_all() {
            let graph = graph.clone()?;
            let verdicts = copies(alloc, &self.verdicts, self.verdicts.len())?;
            let earlier = Earlier::new(alloc, graph, verdicts)?;
            return Ok(Some(earlier));
        }
        match &self.earlier {
            Some(earlier) => Ok(Some(earlier.clone()?)),
            None => Ok(None),
        }
    }

    /// Keeps the verdicts on the packages of `before`, the workspace before the change. A package with the same files and the same view of
    /// its imports needs no new check.
    pub fn keep_earlier(
        &mut self,
        alloc: Global,
        before: &Graph,
        known: &Known,
    ) -> Result<(), AllocError>
        requires { KnowsVerdicts before.now known.now }
        ensures { self.new.verdicts ≡ self.old.verdicts }
    {
        self.earlier = known.then(alloc, before)?;
        Ok(())
    }

    /// Keeps the verdicts from before the change that `other` keeps, if it keeps any.
    pub fn share_earlier(&mut self, other: &Known) -> Result<(), AllocError>
        ensures { self.new.verdicts ≡ self.old.verdicts }
    {
        if let Some(earlier) = &other.earlier {
            self.earlier = Some(earlier.clone()?);
        }
        Ok(())
    }

    /// Returns the verdicts from before the change, if the workspace has the same packages with the same imports.
    pub(crate) fn earlier(&self, graph: &Graph) -> Option<&Earlier>
        ensures { IfSome result (λ earlier. HaveSameImports earlier.now.graph graph.now) }
    {
        let earlier = self.earlier.as_ref()?;
        if have_same_imports(earlier.graph(), graph) {
            Some(earlier)
        } else {
            None
        }
    }
}
