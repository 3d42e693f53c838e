//! Compares inputs with the closure of a package, one package after another. It gathers nothing.
ghost use Rattle.std.specs.Prelude.{◌≡◌, ◌<◌, ◌↔◌, ℕ, Contains, IsTrue, List, Some, length, map as mapped, slice_get};
ghost use Rattle.std.specs.List.{All};
ghost use Rattle.std.specs.List.Sorted.{IsStrictlyIncreasing};
ghost use Rattle.base_files.specs.Packages.{package_paths};
ghost use Rattle.base_files.specs.Workspace.{Workspace};
ghost use Rattle.workspace_graph.specs.Graphs.{IsPackage, ListsPackages, OfPackage};
ghost use Rattle.workspace_graph.specs.Packages.{IsInClosure};
ghost use Rattle.workspace_check.specs.Earlier.{tree_file};
ghost use Rattle.build_unit.specs.Inputs.{AreInputs};
ghost use Rattle.build_carry.specs.Changes.{HasSameFiles};
ghost use Rattle.build_carry.specs.Inputs.{AreNumberedPackages, faulty_file};

use base_files::{FileText, Path};
use build_unit::PackageInputs;
use go_ast::FileTree;
use workspace_graph::{FaultyFile, Graph, ParsedPackage};

/// Whether two files have the same path and the same text.
fn is_same_file(path: &Path, text: &FileText, other_path: &Path, other_text: &FileText) -> bool
    ensures { IsTrue result ↔ ((path.now ≡ other_path.now) × (text.now ≡ other_text.now)) }
{
    *path == *other_path && *text == *other_text
}

/// Whether two lists of files with trees have the same paths and texts, one after another.
fn are_same_trees(trees: &[FileTree], others: &[FileTree]) -> bool
    ensures { IsTrue result ↔ (mapped tree_file trees.now ≡ mapped tree_file others.now) }
{
    if trees.len() != others.len() {
        return false;
    }
    for place in 0..trees.len() {
        let tree = &trees[place];
        let other = &others[place];
        if !is_same_file(
            tree.path(),
            tree.pieces().file(),
            other.path(),
            other.pieces().file(),
        ) {
            return false;
        }
    }
    true
}

/// Whether two lists of files without trees have the same paths and texts, one after another.
fn are_same_faulty(faulty: &[FaultyFile], others: &[FaultyFile]) -> bool
    ensures { IsTrue result ↔ (mapped faulty_file faulty.now ≡ mapped faulty_file others.now) }
{
    if faulty.len() != others.len() {
        return false;
    }
    for place in 0..faulty.len() {
        let file = &faulty[place];
        let other = &others[place];
        if !is_same_file(file.path(), file.text(), other.path(), other.text()) {
            return false;
        }
    }
    true
}

/// Whether two packages at one path have the same files.
pub(crate) fn have_same_files(own: &ParsedPackage, there: &ParsedPackage) -> bool
    ensures { (v w : Workspace) → (m n : ℕ) → IsPackage v m own.now → IsPackage w n there.now → there.now.path.items ≡ own.now.path.items →
        IsTrue result ↔ HasSameFiles v w own.now.path.items }
{
    if !are_same_trees(&own.trees, &there.trees) {
        return false;
    }
    are_same_faulty(&own.faulty, &there.faulty)
}

/// Whether the package `number` of a graph and the package `place` of inputs have the same path and the same files.
fn is_same_package(graph: &Graph, number: usize, other: &PackageInputs, place: usize) -> bool
    requires number { number < length (package_paths graph.now) }
    requires place { place < length (package_paths other.now) }
    ensures { OfPackage graph.now number (λ p. OfPackage other.now place (λ q. IsTrue result ↔ ((q ≡ p) × HasSameFiles graph.now other.now p))) }
{
    let own = graph.package(number);
    let there = other.package(place);
    if own.path.as_slice() != there.path.as_slice() {
        return false;
    }
    have_same_files(own, there)
}

/// Whether the package `number` of a graph has the path and the files of the package `place` in both inputs. Where both share texts, a text
/// is still in the cache for the second comparison.
fn is_package_of_both(
    graph: &Graph,
    number: usize,
    first: &PackageInputs,
    second: &PackageInputs,
    place: usize,
) -> bool
    requires number { number < length (package_paths graph.now) }
    requires first { place < length (package_paths first.now) }
    requires second { place < length (package_paths second.now) }
    ensures { (p a b : List ℕ) → slice_get (package_paths graph.now) number ≡ Some p → slice_get (package_paths first.now) place ≡ Some a → slice_get (package_paths second.now) place ≡ Some b →
        IsTrue result ↔ (((a ≡ p) × HasSameFiles graph.now first.now p) × ((b ≡ p) × HasSameFiles graph.now second.now p)) }
{
    if !is_same_package(graph, number, first, place) {
        return false;
    }
    is_same_package(graph, number, second, place)
}

/// Whether the packages of both inputs are the packages of a graph with these numbers, in their order, each with the same files.
fn are_packages_of_both(
    graph: &Graph,
    numbers: &[usize],
    first: &PackageInputs,
    second: &PackageInputs,
) -> bool
    requires { All (λ number. number < length (package_paths graph.now)) numbers.now }
    ensures { IsTrue result ↔ (AreNumberedPackages graph.now numbers.now first.now × AreNumberedPackages graph.now numbers.now second.now) }
{
    if first.len() != numbers.len() {
        return false;
    }
    if second.len() != numbers.len() {
        return false;
    }
    for place in 0..numbers.len() {
        if !is_package_of_both(graph, numbers[place], first, second, place) {
            return false;
        }
    }
    true
}

/// Whether both are the inputs of a package, whose closure has these numbers.
pub fn are_inputs_of_both(
    graph: &Graph,
    closure: &[usize],
    first: &PackageInputs,
    second: &PackageInputs,
) -> bool
    requires numbers { All (λ number. number < length (package_paths graph.now)) closure.now }
    requires rising { IsStrictlyIncreasing closure.now }
    ensures { (p : List ℕ) → Contains (package_paths graph.now) p → ListsPackages graph.now (IsInClosure graph.now p) closure.now → IsTrue result ↔ (AreInputs graph.now p first.now × AreInputs graph.now p second.now) }
{
    first.hold_go_files();
    second.hold_go_files();
    are_packages_of_both(graph, closure, first, second)
}
