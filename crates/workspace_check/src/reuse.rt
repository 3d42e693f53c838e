//! Finds which verdicts from before a change are still right: it compares the packages' imports, files and export data. Each answer may be
//! false where true would be right: only speed rests on that.
ghost use Rattle.std.specs.Prelude.{ℕ, ◌≡◌, ◌<◌, IsTrue, IfOk, IfSome, OnOk, length, map, slice_get, slice_set};
ghost use Rattle.base_files.specs.Packages.{package_files, package_paths};
ghost use Rattle.base_files.specs.Workspace.{Workspace};
ghost use Rattle.workspace_graph.specs.Graphs.{IsPackage, OfPackage};
ghost use Rattle.workspace_graph.specs.Search.{IsMarked};
ghost use Rattle.workspace_check.specs.Earlier.{AreVerdictsByNumber, HaveSameImports, IsReusableVerdict, KeepsExportData, tree_file};
ghost use Rattle.workspace_check.specs.PassedMarks.{ArePassedBelow, PassesPackage, AffectsImporters};

use crate::earlier::Earlier;
use crate::known::KnownVerdict;
use crate::marks::is_marked;
use go_ast::FileTree;
use std::alloc::{AllocError, Global};
use types_check::are_alike;
use types_declared::ExportTable;
use workspace_graph::{Graph, ImportLinks, ParsedPackage};

/// Whether a number has one package path in both workspaces.
fn is_same_path(before: &Graph, after: &Graph, number: usize) -> bool
    requires before { number < length (package_paths before.now) }
    requires after { number < length (package_paths after.now) }
    ensures { IsTrue result → slice_get (package_paths before.now) number ≡ slice_get (package_paths after.now) number }
{
    before.package(number).path.as_slice() == after.package(number).path.as_slice()
}

/// Whether both workspaces have equal lists of package paths.
fn have_same_paths(before: &Graph, after: &Graph) -> bool
    ensures { IsTrue result → package_paths before.now ≡ package_paths after.now }
{
    if before.len() != after.len() {
        return false;
    }
    for number in 0..before.len() {
        if !is_same_path(before, after, number) {
            return false;
        }
    }
    true
}

/// Whether each package imports packages of equal numbers in both workspaces.
fn have_same_links(before: &ImportLinks, after: &ImportLinks) -> bool
    ensures { IsTrue result → before.now ≡ after.now }
{
    if before.len() != after.len() {
        return false;
    }
    for number in 0..before.len() {
        if before.imports(number) != after.imports(number) {
            return false;
        }
    }
    true
}

/// Whether two workspaces have equal packages with equal imports.
pub(crate) fn have_same_imports(before: &Graph, after: &Graph) -> bool
    ensures { IsTrue result → HaveSameImports before.now after.now }
{
    have_same_paths(before, after) && have_same_links(before.links(), after.links())
}

/// Whether a file has equal path and text in both workspaces.
fn is_same_tree(before: &FileTree, after: &FileTree) -> bool
    ensures { IsTrue result → tree_file before.now ≡ tree_file after.now }
{
    before.path() == after.path() && before.pieces().file() == after.pieces().file()
}

/// Whether two lists of files have equal paths and texts.
fn are_same_trees(before: &[FileTree], after: &[FileTree]) -> bool
    ensures { IsTrue result → map tree_file before.now ≡ map tree_file after.now }
{
    if before.len() != after.len() {
        return false;
    }
    for place in 0..before.len() {
        if !is_same_tree(&before[place], &after[place]) {
            return false;
        }
    }
    true
}

/// Whether a package has equal files before and after the change. False if some file has no tree: such a package is checked quickly.
fn has_same_files(before: &ParsedPackage, after: &ParsedPackage) -> bool
    ensures { IsTrue result → (v w : Workspace) → (n : ℕ) → IsPackage v n before.now → IsPackage w n after.now →
        package_files v before.now.path.items ≡ package_files w after.now.path.items }
{
    if !before.faulty.is_empty() {
        return false;
    }
    if !after.faulty.is_empty() {
        return false;
    }
    are_same_trees(&before.trees, &after.trees)
}

/// Marks on the packages that were passed. `marks`: the package has the export data that it had before the change. `affected`: the package
/// imports, directly or indirectly, a package whose export data changed.
#[derive(Drop)]
pub(crate) struct PassedPackages {
    pub(crate) marks: Vec<bool>,
    pub(crate) affected: Vec<bool>,
}

impl PassedPackages {
    /// Returns no marks: no package was passed yet.
    pub(crate) fn new(alloc: Global, graph: &Graph) -> Result<PassedPackages, AllocError>
        ensures none { IfOk result (λ steady. (n : ℕ) → IsMarked steady.marks.items n → ⊥) }
        ensures stirs { IfOk result (AffectsImporters graph.now) }
    {
        let marks = vec![in alloc; false; graph.len()]?;
        let affected = vec![in alloc; false; graph.len()]?;
        Ok(PassedPackages { marks, affected })
    }

    /// Passes a package: marks it if `same`, else marks the packages that import it, directly or indirectly, as `affected`.
    pub(crate) fn pass(
        &mut self,
        alloc: Global,
        graph: &Graph,
        number: usize,
        same: bool,
    ) -> Result<(), AllocError>
        requires number { number < length (package_paths graph.now) }
        requires stirs { AffectsImporters graph.now self.old }
        ensures marks { OnOk result (self.new.marks.items ≡ slice_set self.old.marks.items number same) }
        ensures stirs { OnOk result (AffectsImporters graph.now self.new) }
        ensures passes { OnOk result (PassesPackage graph.now number self.old self.new) }
    {
        self.marks[number] = same;
        if !same {
            graph.mark_importing(alloc, &mut self.affected, number)?;
        }
        Ok(())
    }

    /// Whether all that a package builds on is marked. All of these packages must have been passed.
    fn is_marked_below(&self, number: usize) -> bool
        ensures { IsTrue result → IsMarked self.now.affected.items number → ⊥ }
    {
        !is_marked(&self.affected, number)
    }
}

/// Returns the verdict from before the change, if the package's files are equal and all that it builds on is marked.
pub(crate) fn reusable_verdict<'a>(
    earlier: &'a Earlier,
    graph: &Graph,
    number: usize,
    steady: &PassedPackages,
) -> Option<&'a KnownVerdict>
    requires number { number < length (package_paths graph.now) }
    requires same { HaveSameImports earlier.now.graph graph.now }
    requires below { OfPackage graph.now number (λ p. ArePassedBelow graph.now p number steady.now) }
    ensures stands { IfSome result (λ one. OfPackage graph.now number (λ p. IsReusableVerdict earlier.now.graph graph.now steady.now.marks.items p one.now)) }
    ensures told { AreVerdictsByNumber earlier.now.graph earlier.now.verdicts.items }
{
    let verdict = earlier.verdict(number)?;
    let before = earlier.graph().package(number);
    if has_same_files(before, graph.package(number)) && steady.is_marked_below(number) {
        Some(verdict)
    } else {
        None
    }
}

/// Whether a package had before the change the export data that it has in `all`.
pub(crate) fn keeps_export_data(
    earlier: &Earlier,
    graph: &Graph,
    number: usize,
    all: &ExportTable,
) -> bool
    requires { number < length (package_paths graph.now) }
    ensures { IsTrue result → OfPackage graph.now number (KeepsExportData earlier.now.verdicts.items all.now number) }
{
    match earlier.verdict(number) {
        Some(one) => are_alike(one.known(), all, &graph.package(number).path),
        None => false,
    }
}
