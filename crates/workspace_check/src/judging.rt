//! Judges one package: finds its faults, or its export data, uses of members, entries into interfaces and qualified identifiers.
ghost use Rattle.std.specs.Prelude.{ℕ, ◌≡◌, ◌<◌, List, [], length, Contains, IfOk, IsTrue};
ghost use Rattle.base_files.specs.Packages.{package_files, package_paths};
ghost use Rattle.base_files.specs.Workspace.{Workspace};
ghost use Rattle.workspace_graph.specs.Graphs.{IsPackage, OfPackage};
ghost use Rattle.workspace_graph.specs.Parsed.{AreParsed};
ghost use Rattle.workspace_check.specs.Cycles.{DecideCycles};
ghost use Rattle.workspace_check.specs.Verdicts.{Verdicts};
ghost use Rattle.workspace_check.specs.KnownFindings.{verdicts_by, AreNamedEntries};
ghost use Rattle.workspace_check.specs.Steps.{ImportsFaulty, IsCheckResult, IsJudged, IsStoppedResult};

use crate::fault::{FileFault, sort};
use crate::placing::{placed_faults, unread_faults};
use crate::seeing::{imports_faulty, seen_imports, states_by};
use std::alloc::{AllocError, Global};
use types_check::{Checked, check};
use types_declared::{ExportData, ExportTable};
use types_expr::found::{Entering, MemberUse};
use types_expr::symbol::SharedPath;
use types_info::Qualified;
use workspace_graph::{Graph, ParsedPackage};

/// The sorted faults of a package, or else its export data, its uses of members, its entries and its qualified identifiers. `members` and
/// `enterings` have a list for each file.
#[derive(Drop)]
pub(crate) struct JudgedPackage {
    pub(crate) faults: Vec<FileFault>,
    pub(crate) export_data: Option<ExportData>,
    pub(crate) members: Vec<Vec<MemberUse>>,
    pub(crate) enterings: Vec<Vec<Entering>>,
    pub(crate) qualified: Vec<Qualified>,
}

/// Judges a package of which some file has no tree: finds just the faults of such files.
fn judge_unread(alloc: Global, files: &ParsedPackage) -> Result<JudgedPackage, AllocError>
    requires { files.now.faulty.items ≡ [] → ⊥ }
    ensures { IfOk result (λ j. (w : Workspace) → (number : ℕ) → (known : Verdicts) → IsPackage w number files.now → OfPackage w number (λ p. IsJudged w known p j)) }
{
    let mut faults = unread_faults(alloc, &files.faulty)?;
    sort(&mut faults);
    Ok(JudgedPackage {
        faults,
        export_data: None,
        members: Vec::new(alloc),
        enterings: Vec::new(alloc),
        qualified: Vec::new(alloc),
    })
}

/// Gives the faults of a checked package their places, and sorts them. Each file of the package has a tree.
pub(crate) fn place_checked(
    alloc: Global,
    files: &ParsedPackage,
    checked: Checked,
) -> Result<JudgedPackage, AllocError>
    ensures checked { IfOk result (λ j. (w : Workspace) → (known : Verdicts) → (p : List ℕ) → Contains (package_paths w) p → AreParsed (package_files w p) files.now.trees.items [] → IsCheckResult w known p checked → IsJudged w known p j) }
    ensures stopped { IfOk result (λ j. (w : Workspace) → (known : Verdicts) → (p : List ℕ) → Contains (package_paths w) p → AreParsed (package_files w p) files.now.trees.items [] → IsStoppedResult w known p checked → IsJudged w known p j) }
{
    let Checked {
        faults,
        export_data,
        members,
        enterings,
        qualified,
    } = checked;
    let mut faults = placed_faults(alloc, &files.trees, &faults)?;
    sort(&mut faults);
    Ok(JudgedPackage {
        faults,
        export_data,
        members,
        enterings,
        qualified,
    })
}

/// Whether a package imports a package with faults. False if no cycle numbers are known.
fn is_stopped(graph: &Graph, number: usize, cycles: &[usize], all: &ExportTable) -> bool
    requires { number < length (package_paths graph.now) }
    ensures known { IsTrue result → number < length cycles.now }
    ensures faulty { IsTrue result → OfPackage graph.now number (ImportsFaulty graph.now (verdicts_by all.now)) }
{
    if number >= cycles.len() {
        return false;
    }
    imports_faulty(graph, number, all)
}

/// Judges a package that imports a package with faults, and each of whose files has a tree. The export data of its imports is not gathered.
fn judge_stopped(
    alloc: Global,
    graph: &Graph,
    number: usize,
    files: &ParsedPackage,
    path: &SharedPath,
    cycles: &[usize],
    all: &ExportTable,
) -> Result<JudgedPackage, AllocError>
    requires in_range { number < length (package_paths graph.now) }
    requires files { IsPackage graph.now number files.now }
    requires read { files.now.faulty.items ≡ [] }
    requires path { OfPackage graph.now number (λ p. path.now ≡ p) }
    requires cycles { DecideCycles graph.now cycles.now }
    requires known { number < length cycles.now }
    requires faulty { OfPackage graph.now number (ImportsFaulty graph.now (verdicts_by all.now)) }
    ensures { IfOk result (λ j. OfPackage graph.now number (λ p. IsJudged graph.now (verdicts_by all.now) p j)) }
{
    let noted = states_by(alloc, graph, number, cycles, all)?;
    let checked = check(alloc, path, &files.trees, &noted)?;
    place_checked(alloc, files, checked)
}

/// Judges a package each of whose files has a tree.
fn judge_read(
    alloc: Global,
    graph: &Graph,
    number: usize,
    files: &ParsedPackage,
    path: &SharedPath,
    cycles: &[usize],
    all: &ExportTable,
) -> Result<JudgedPackage, AllocError>
    requires in_range { number < length (package_paths graph.now) }
    requires files { IsPackage graph.now number files.now }
    requires read { files.now.faulty.items ≡ [] }
    requires path { OfPackage graph.now number (λ p. path.now ≡ p) }
    requires cycles { DecideCycles graph.now cycles.now }
    requires whole { AreNamedEntries all.now }
    ensures { IfOk result (λ j. OfPackage graph.now number (λ p. IsJudged graph.now (verdicts_by all.now) p j)) }
{
    if is_stopped(graph, number, cycles, all) {
        return judge_stopped(alloc, graph, number, files, path, cycles, all);
    }
    let export_table = seen_imports(alloc, graph, number, all)?;
    let checked = check(alloc, path, &files.trees, &export_table)?;
    place_checked(alloc, files, checked)
}

/// Judges a package by the export data of the packages that it builds on.
pub(crate) fn judge(
    alloc: Global,
    graph: &Graph,
    number: usize,
    path: &SharedPath,
    cycles: &[usize],
    all: &ExportTable,
) -> Result<JudgedPackage, AllocError>
    requires in_range { number < length (package_paths graph.now) }
    requires path { OfPackage graph.now number (λ p. path.now ≡ p) }
    requires cycles { DecideCycles graph.now cycles.now }
    requires whole { AreNamedEntries all.now }
    ensures { IfOk result (λ j. OfPackage graph.now number (λ p. IsJudged graph.now (verdicts_by all.now) p j)) }
{
    let files = graph.package(number);
    if files.faulty.is_empty() {
        judge_read(alloc, graph, number, files, path, cycles, all)
    } else {
        judge_unread(alloc, files)
    }
}
