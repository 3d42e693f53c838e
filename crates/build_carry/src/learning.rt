//! Takes in what a build found of packages into what a state knows, and what was found of packages of another state.
ghost use Rattle.std.specs.Prelude.{ℕ, ◌<◌, ◌≤◌, ◌↔◌, IfOk, IsTrue, OnOk, length};
ghost use Rattle.base_files.specs.Packages.{package_paths};
ghost use Rattle.workspace_graph.specs.Graphs.{OfPackage};
ghost use Rattle.workspace_check.specs.Found.{AreVerdictsOf, KnowsVerdicts};
ghost use Rattle.workspace_check.specs.KnownFindings.{IsKnownVerdict};
ghost use Rattle.build_unit.specs.Inputs.{HasClosuresOf};
ghost use Rattle.build_carry.specs.Learned.{HasKeptVerdict, HasVerdictAt, IsFoundElsewhere, KeepsVerdicts, LearnsFrom};

use crate::carried_verdicts::kept_verdict;
use crate::changes::Marks;
use crate::differing::marks_between;
use build_unit::Built;
use std::alloc::{AllocError, Global};
use workspace_check::{Known, KnownVerdict, SharedKnown};
use workspace_graph::Graph;

/// Takes in the verdict on a package, if this package is in the workspace and no verdict on it is known.
fn take_in(files: &Graph, verdict: &KnownVerdict, known: &mut Known) -> Result<(), AllocError>
    requires verdict { IsKnownVerdict files.now verdict.now.finding.path verdict.now }
    requires room { length (package_paths files.now) ≤ length known.old.verdicts.items }
    requires known { KnowsVerdicts files.now known.old }
    ensures room { OnOk result (length (package_paths files.now) ≤ length known.new.verdicts.items) }
    ensures known { OnOk result (KnowsVerdicts files.now known.new) }
{
    let Some(number) = files.number_of(verdict.path().path()) else {
        return Ok(());
    };
    if known.get(number).is_some() {
        return Ok(());
    }
    let copy = verdict.clone()?;
    known.set(number, copy);
    Ok(())
}

/// Takes in verdicts on packages of a workspace, each if no verdict on its package is known.
pub fn take_in_each(
    files: &Graph,
    found: &[KnownVerdict],
    known: &mut Known,
) -> Result<(), AllocError>
    requires found { AreVerdictsOf files.now found.now }
    requires room { length (package_paths files.now) ≤ length known.old.verdicts.items }
    requires known { KnowsVerdicts files.now known.old }
    ensures room { OnOk result (length (package_paths files.now) ≤ length known.new.verdicts.items) }
    ensures known { OnOk result (KnowsVerdicts files.now known.new) }
{
    for verdict in found {
        take_in(files, verdict, known)?;
    }
    Ok(())
}

/// A copy of what is known of a workspace, with a place for each package.
pub(crate) fn copy_with_places(
    alloc: Global,
    files: &Graph,
    own: &Known,
) -> Result<Known, AllocError>
    requires { KnowsVerdicts files.now own.now }
    ensures room { IfOk result (λ known. length (package_paths files.now) ≤ length known.verdicts.items) }
    ensures known { IfOk result (KnowsVerdicts files.now) }
{
    let known = own.copy(alloc, files.len())?;
    Ok(known)
}

/// Adds verdicts on some packages of a workspace to what is known of it.
fn with_verdicts(
    alloc: Global,
    files: &Graph,
    own: &SharedKnown,
    found: &[KnownVerdict],
) -> Result<SharedKnown, AllocError>
    requires own { KnowsVerdicts files.now own.now }
    requires found { AreVerdictsOf files.now found.now }
    ensures { IfOk result (KnowsVerdicts files.now) }
{
    let mut known = copy_with_places(alloc, files, own.get())?;
    take_in_each(files, found, &mut known)?;
    SharedKnown::new(alloc, known)
}

/// Adds the verdicts that a build found to what is known of a workspace. Where it found none, what is known is shared.
pub fn learned(
    alloc: Global,
    files: &Graph,
    own: &SharedKnown,
    built: &Built,
) -> Result<SharedKnown, AllocError>
    requires own { KnowsVerdicts files.now own.now }
    requires closures { HasClosuresOf files.now built.now.inputs }
    ensures { IfOk result (KnowsVerdicts files.now) }
{
    let found = built.found();
    if found.is_empty() {
        let same = own.clone()?;
        return Ok(same);
    }
    with_verdicts(alloc, files, own, found)
}

/// Whether a verdict is known on the package of a number.
fn knows(known: &Known, number: usize) -> bool
    ensures { IsTrue result ↔ HasVerdictAt known.now number }
{
    match known.get(number) {
        None => false,
        Some(_) => true,
    }
}

/// Whether a verdict is known on each of the first `count` packages.
fn knows_each(known: &Known, count: usize) -> bool
    ensures { IsTrue result → (n : ℕ) → n < count → HasVerdictAt known.now n }
{
    for number in 0..count {
        if !knows(known, number) {
            return false;
        }
    }
    true
}

/// Verdicts that were found in another workspace, and the marks of the change from there.
#[derive(Clone, Copy)]
pub struct FoundElsewhere<'a> {
    pub judged: &'a Graph,
    pub found: &'a Known,
    pub marks: &'a Marks,
}

/// Takes in the verdict on the package `number`, if none is known and the package keeps the one that was found elsewhere.
fn take_kept(
    from: &FoundElsewhere<'_>,
    files: &Graph,
    number: usize,
    known: &mut Known,
) -> Result<(), AllocError>
    requires number { number < length (package_paths files.now) }
    requires room { length (package_paths files.now) ≤ length known.old.verdicts.items }
    requires from { IsFoundElsewhere files.now from.now }
    requires known { KnowsVerdicts files.now known.old }
    ensures room { OnOk result (length (package_paths files.now) ≤ length known.new.verdicts.items) }
    ensures right { OnOk result (KnowsVerdicts files.now known.new) }
    ensures kept { OnOk result (KeepsVerdicts known.old known.new) }
    ensures learned { OnOk result (OfPackage files.now number (λ p. HasKeptVerdict from.now.judged.now from.now.found.now files.now p → HasVerdictAt known.new number)) }
{
    if knows(known, number) {
        return Ok(());
    }
    let kept = kept_verdict(from.judged, from.found, files, number, from.marks)?;
    match kept {
        None => Ok(()),
        Some(verdict) => {
            known.set(number, verdict);
            Ok(())
        }
    }
}

/// Adds the verdicts that were found elsewhere, on packages that keep them, to what is known of a workspace.
pub fn with_kept(
    alloc: Global,
    files: &Graph,
    own: &Known,
    from: &FoundElsewhere<'_>,
) -> Result<Known, AllocError>
    requires own { KnowsVerdicts files.now own.now }
    requires from { IsFoundElsewhere files.now from.now }
    ensures { IfOk result (LearnsFrom files.now own.now from.now.judged.now from.now.found.now) }
{
    let mut known = own.copy(alloc, files.len())?;
    for number in 0..files.len() {
        take_kept(from, files, number, &mut known)?;
    }
    known.keep_earlier(alloc, from.judged, from.found)?;
    Ok(known)
}

/// Adds to what is known of a workspace the verdicts that were found in `judged`, on packages whose closures have the same texts here. Where
/// a verdict is known on each package, all is shared, and no file is compared.
pub fn learned_from(
    alloc: Global,
    files: &Graph,
    own: &SharedKnown,
    judged: &Graph,
    found: &Known,
) -> Result<SharedKnown, AllocError>
    requires own { KnowsVerdicts files.now own.now }
    requires found { KnowsVerdicts judged.now found.now }
    ensures { IfOk result (LearnsFrom files.now own.now judged.now found.now) }
{
    if knows_each(own.get(), files.len()) {
        let same = own.clone()?;
        return Ok(same);
    }
    let marks = marks_between(alloc, judged, files)?;
    let from = FoundElsewhere {
        judged,
        found,
        marks: &marks,
    };
    let known = with_kept(alloc, files, own.get(), &from)?;
    SharedKnown::new(alloc, known)
}
