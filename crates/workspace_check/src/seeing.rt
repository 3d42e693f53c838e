//! What a package sees of others: the export data of the packages that it builds on, and the state of each path that it imports.
ghost use Rattle.std.specs.Prelude.{ℕ, ◌≡◌, ◌<◌, List, length, IfOk, IsTrue, OnOk, true};
ghost use Rattle.std.specs.List.Sorted.{IsStrictlyIncreasing};
ghost use Rattle.base_files.specs.Packages.{package_paths};
ghost use Rattle.workspace_graph.specs.Graphs.{ListsPackages, OfPackage};
ghost use Rattle.workspace_graph.specs.Packages.{PackageImports};
ghost use Rattle.workspace_graph.specs.Reaching.{AreBackMarks, BuildsOn};
ghost use Rattle.types_declared.specs.States.{state_in};
ghost use Rattle.types_declared.specs.declared.states.ImportState.TheVariants.{Missing};
ghost use Rattle.types_declared.specs.ExportTablesView.{name_in, export_data_in};
ghost use Rattle.workspace_check.specs.Verdicts.{IsStateOf, AreStates, AreSeen};
ghost use Rattle.workspace_check.specs.KnownFindings.{verdicts_by, AreNamedEntries};
ghost use Rattle.workspace_check.specs.Cycles.{DecideCycles};
ghost use Rattle.workspace_check.specs.Steps.{ImportsFaulty, HasSameEntries};

use crate::cycles::share_cycle;
use crate::marks::is_marked;
use std::alloc::{AllocError, Global};
use types_declared::{ExportTable, ImportState, PackageNames};
use workspace_graph::Graph;

/// Returns the export data of the packages of `below` that have no faults.
///
/// Both `below` and `all` are sorted by path. The search for a package starts after the last hit. If the last search failed, it starts at
/// the package's number less the count of earlier packages without export data. Only speed rests on that start. Each hit is added at the
/// end.
fn seen_of(
    alloc: Global,
    graph: &Graph,
    number: usize,
    below: &[usize],
    all: &ExportTable,
) -> Result<ExportTable, AllocError>
    requires in_range { number < length (package_paths graph.now) }
    requires below { OfPackage graph.now number (λ p. ListsPackages graph.now (BuildsOn graph.now p) below.now) }
    requires rising { IsStrictlyIncreasing below.now }
    requires whole { AreNamedEntries all.now }
    ensures seen { IfOk result (λ i. OfPackage graph.now number (λ p. AreSeen graph.now (verdicts_by all.now) p (name_in i) (export_data_in i))) }
    ensures states { IfOk result (λ i. (path : List ℕ) → state_in i.states path ≡ Missing) }
{
    let mut seen = ExportTable::with_capacity(alloc, below.len())?;
    let mut missing: usize = 0;
    let mut next: usize = 0;
    let mut follows = true;
    for other in below {
        let first = if follows {
            next
        } else {
            other.wrapping_sub(missing)
        };
        let behind = seen.share_next(all, &graph.package(*other).path, first)?;
        follows = behind == next.wrapping_add(1);
        missing = other.wrapping_add(1).wrapping_sub(behind);
        next = behind;
    }
    Ok(seen)
}

/// Returns the names and the export data of the packages without faults that a package builds on, without the states of imported paths.
pub fn seen(
    alloc: Global,
    graph: &Graph,
    number: usize,
    all: &ExportTable,
) -> Result<ExportTable, AllocError>
    requires in_range { number < length (package_paths graph.now) }
    requires whole { AreNamedEntries all.now }
    ensures seen { IfOk result (λ i. OfPackage graph.now number (λ p. AreSeen graph.now (verdicts_by all.now) p (name_in i) (export_data_in i))) }
    ensures states { IfOk result (λ i. (path : List ℕ) → state_in i.states path ≡ Missing) }
{
    let below = graph.built_on(alloc, number)?;
    seen_of(alloc, graph, number, below.as_slice(), all)
}

/// Returns the state of an imported package for its importer. A package is marked if it imports that importer, directly or indirectly.
fn state_of(
    graph: &Graph,
    number: usize,
    back: &[bool],
    import: usize,
    all: &ExportTable,
) -> ImportState
    requires in_range { import < length (package_paths graph.now) }
    requires back { OfPackage graph.now number (λ p. AreBackMarks graph.now p back.now) }
    requires imports { OfPackage graph.now number (λ p. OfPackage graph.now import (λ q. PackageImports graph.now p q)) }
    ensures { OfPackage graph.now number (λ p. OfPackage graph.now import (λ q. IsStateOf graph.now (verdicts_by all.now) p q result)) }
{
    if is_marked(back, import) {
        return ImportState::OnCycle;
    }
    match all.name(&graph.package(import).path) {
        None => ImportState::Faulty,
        Some(_) => ImportState::Good,
    }
}

/// Adds the state of each path that a package imports. A package is marked if it imports that importer, directly or indirectly.
fn note_imports(
    alloc: Global,
    seen: &mut ExportTable,
    graph: &Graph,
    number: usize,
    back: &[bool],
    all: &ExportTable,
) -> Result<(), AllocError>
    requires in_range { number < length (package_paths graph.now) }
    requires back { OfPackage graph.now number (λ p. AreBackMarks graph.now p back.now) }
    requires nothing { (path : List ℕ) → state_in seen.old.states path ≡ Missing }
    ensures states { OnOk result (OfPackage graph.now number (λ p. AreStates graph.now (verdicts_by all.now) p (state_in seen.new.states))) }
    ensures kept { OnOk result (HasSameEntries seen.old seen.new) }
{
    for import in graph.imports(number) {
        let path = Vec::from_slice(alloc, &graph.package(*import).path)?;
        seen.note(path, state_of(graph, number, back, *import, all))?;
    }
    Ok(())
}

/// Returns the state of each path that a package imports, in a table that has nothing but these states. A package is marked if it imports
/// that importer, directly or indirectly.
pub(crate) fn import_states(
    alloc: Global,
    graph: &Graph,
    number: usize,
    back: &[bool],
    all: &ExportTable,
) -> Result<ExportTable, AllocError>
    requires in_range { number < length (package_paths graph.now) }
    requires back { OfPackage graph.now number (λ p. AreBackMarks graph.now p back.now) }
    ensures { IfOk result (λ noted. OfPackage graph.now number (λ p. AreStates graph.now (verdicts_by all.now) p (state_in noted.states))) }
{
    let mut noted = ExportTable::new(alloc);
    note_imports(alloc, &mut noted, graph, number, back, all)?;
    Ok(noted)
}

/// Whether `all` has no name of a package, as is so if the package has faults.
fn is_unknown(graph: &Graph, number: usize, all: &ExportTable) -> bool
    requires { number < length (package_paths graph.now) }
    ensures { IsTrue result → OfPackage graph.now number (λ q. (verdicts_by all.now q).faulty ≡ true) }
{
    match all.name(&graph.package(number).path) {
        None => true,
        Some(_) => false,
    }
}

/// Whether a package imports a package of which `all` has no name.
pub(crate) fn imports_faulty(graph: &Graph, number: usize, all: &ExportTable) -> bool
    requires { number < length (package_paths graph.now) }
    ensures { IsTrue result → OfPackage graph.now number (ImportsFaulty graph.now (verdicts_by all.now)) }
{
    for import in graph.imports(number) {
        if is_unknown(graph, *import, all) {
            return true;
        }
    }
    false
}

/// Returns the state of an imported package for its importer, by cycle numbers.
fn state_by(
    graph: &Graph,
    number: usize,
    cycles: &[usize],
    import: usize,
    all: &ExportTable,
) -> ImportState
    requires in_range { import < length (package_paths graph.now) }
    requires cycles { DecideCycles graph.now cycles.now }
    requires known { number < length cycles.now }
    requires imports { OfPackage graph.now number (λ p. OfPackage graph.now import (λ q. PackageImports graph.now p q)) }
    ensures { OfPackage graph.now number (λ p. OfPackage graph.now import (λ q. IsStateOf graph.now (verdicts_by all.now) p q result)) }
{
    if share_cycle(cycles, number, import) {
        ImportState::OnCycle
    } else {
        match all.name(&graph.package(import).path) {
            None => ImportState::Faulty,
            Some(_) => ImportState::Good,
        }
    }
}

/// Returns the state of each path that a package imports, by cycle numbers, in a table that has nothing but these states.
pub(crate) fn states_by(
    alloc: Global,
    graph: &Graph,
    number: usize,
    cycles: &[usize],
    all: &ExportTable,
) -> Result<ExportTable, AllocError>
    requires in_range { number < length (package_paths graph.now) }
    requires cycles { DecideCycles graph.now cycles.now }
    requires known { number < length cycles.now }
    ensures { IfOk result (λ noted. OfPackage graph.now number (λ p. AreStates graph.now (verdicts_by all.now) p (state_in noted.states))) }
{
    let mut noted = ExportTable::new(alloc);
    for import in graph.imports(number) {
        let path = Vec::from_slice(alloc, &graph.package(*import).path)?;
        noted.note(path, state_by(graph, number, cycles, *import, all))?;
    }
    Ok(noted)
}

/// Returns what a package sees: the names and the export data of the packages without faults that it builds on, and the state of each
/// imported path.
pub fn seen_imports(
    alloc: Global,
    graph: &Graph,
    number: usize,
    all: &ExportTable,
) -> Result<ExportTable, AllocError>
    requires in_range { number < length (package_paths graph.now) }
    requires whole { AreNamedEntries all.now }
    ensures seen { IfOk result (λ i. OfPackage graph.now number (λ p. AreSeen graph.now (verdicts_by all.now) p (name_in i) (export_data_in i))) }
    ensures states { IfOk result (λ i. OfPackage graph.now number (λ p. AreStates graph.now (verdicts_by all.now) p (state_in i.states))) }
{
    let below = graph.below(alloc, number)?;
    let mut export_table = seen_of(alloc, graph, number, below.built_on.as_slice(), all)?;
    note_imports(alloc, &mut export_table, graph, number, &below.back, all)?;
    Ok(export_table)
}
