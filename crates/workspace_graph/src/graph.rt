//! `Graph`: the packages of a workspace with their parsed files, and which imports which.
ghost use Rattle.std.specs.FinMap as map;
ghost use Rattle.std.specs.Prelude.{◌≡◌, ◌<◌, ℕ, [], ◌∷◌, true, length, IfOk, OnOk, MatchOption, Some, slice_get};
ghost use Rattle.std.specs.List.{All, Contains};
ghost use Rattle.std.specs.List.Sorted.{IsStrictlyIncreasing};
ghost use Rattle.workspace_graph.specs.Imports.{row_of};
ghost use Rattle.base_files.specs.Packages.{package_paths};
ghost use Rattle.workspace_graph.specs.Packages.{PackageImports, IsInClosure, AreLinksOf};
ghost use Rattle.workspace_graph.specs.Changed.{KeepsPath, has_file};
ghost use Rattle.workspace_graph.specs.Borrows.{names};
ghost use Rattle.workspace_graph.specs.Reaching.{AreBackMarks, AreImportersMarked, BuildsOn, MarksClosuresWith, ReachingMarks, AddsClosuresWith};
ghost use Rattle.workspace_graph.specs.KnownEdits.{EditsMake};
ghost use Rattle.workspace_graph.specs.SameGoFiles.{AreSameIn, DiffersOnlyAt, DiffersOnlyIn, HasFiles};
ghost use Rattle.workspace_graph.specs.declared.package.ParsedPackage.{ParsedPackage};
ghost use Rattle.workspace_graph.specs.ChangedFiles.{CoverChanges};
ghost use Rattle.workspace_graph.specs.Updated.{IsPlace};
ghost use Rattle.workspace_graph.specs.Graphs.{
  paths_of,
  IsGraph,
  IsPackage,
  OfPackage,
  ListsPackages,
};

use crate::changed::{keep_paths, keep_rows, replaced};
use crate::drafts::packages_with;
use crate::grown::{Grown, grown_links};
use crate::import_links::ImportLinks;
use crate::known_edits::KnownEdits;
use crate::package::ParsedPackage;
use crate::package_list::PackageList;
use crate::packages_below::PackagesBelow;
use crate::rows::{EarlierGraph, rows};
use crate::shared_links::SharedLinks;
use crate::shared_package::{SharedPackage, number_of};
use crate::updated::{Coming, one_that_comes, updated, with_coming};
use base_edits::FileChange;
use base_files::{Files, Path};
use std::alloc::{AllocError, Global};
use std::marker::Model;
use std::sync::Arc;

/// The files, packages and links that clones of a graph share.
#[derive(Drop)]
struct Parts {
    files: Files,
    packages: Vec<SharedPackage>,
    links: SharedLinks,
}

/// The graph of a workspace: its packages by number, in the order of their paths, each with its parsed files, and their imports and
/// importers. A clone shares it, and its value in contracts is the workspace.
pub struct Graph {
    parts: Arc<Parts, Global>,
}

/// Written out so that crates above need not prove again how each part is dropped.
impl Drop for Graph {
    fn drop(self) {
        let Graph { parts } = self;
        drop(parts);
    }
}

impl Model for Graph {
    ghost use Rattle.std.specs.Prelude.{List, ℕ};
    ghost use Rattle.std.specs.Coded.{coded_ℕ, coded_list};
    ghost use Rattle.std.specs.FinMap as map;
    ghost use Rattle.std.specs.Arc.{arc_value};
    ghost use Rattle.base_files.specs.Workspace.{path_cmp};
    ghost use Rattle.workspace_graph.specs.Graphs.{IsGraph};

    ghost Value = { map.FinMap path_cmp (List ℕ) };

    ghost coded = { map.code (coded_list coded_ℕ) (coded_list coded_ℕ) };

    ghost view = { λ a. (arc_value a.parts).files };

    ghost invariant = { λ a. IsGraph (arc_value a.parts).files (arc_value a.parts).packages.items (arc_value a.parts).links };
}

/// The packages and links of an earlier graph, if there is one.
fn earlier_of(before: Option<&Parts>) -> Option<EarlierGraph<'_>> {
    match before {
        Some(parts) => Some(EarlierGraph {
            packages: &parts.packages,
            links: parts.links.links(),
        }),
        None => None,
    }
}

/// The links of an earlier graph, if there is one.
fn links_of(before: Option<&Parts>) -> Option<&SharedLinks> {
    match before {
        Some(parts) => Some(&parts.links),
        None => None,
    }
}

impl Graph {
    /// The graph of a workspace without files.
    pub fn empty(alloc: Global) -> Result<Graph, AllocError>
        ensures { IfOk result (λ graph. graph ≡ map.empty) }
    {
        let files = Files::new(alloc);
        Graph::made(alloc, None, files, Vec::new(alloc))
    }

    /// The graph of `files`, whose Go files differ from those of `before` only at `paths`. Only files at these paths are looked at, and
    /// parsed where their text is new. Packages in other folders are shared.
    pub fn changed(
        alloc: Global,
        before: &Graph,
        files: Files,
        paths: &[&Path],
    ) -> Result<Graph, AllocError>
        requires { DiffersOnlyAt (names paths.now) before.now files }
        ensures { IfOk result (λ graph. graph ≡ files) }
    {
        Graph::changed_by_edits(alloc, before, files, &[], paths)
    }

    /// The same, where the edits of files that stay at their paths are known. The tree of such a file is made of the one before, where they
    /// replace names and interpreted strings alone. The changes stand in the order of the paths, or they are of no use.
    pub fn changed_by_edits(
        alloc: Global,
        before: &Graph,
        files: Files,
        changed: &[FileChange],
        paths: &[&Path],
    ) -> Result<Graph, AllocError>
        requires differs { DiffersOnlyAt (names paths.now) before.now files }
        requires edits { All (EditsMake before.now files) changed.now }
        ensures { IfOk result (λ graph. graph ≡ files) }
    {
        let old: &Parts = &before.parts;
        let known = KnownEdits {
            before: &old.packages,
            changed,
            files: &files,
        };
        let fresh = packages_with(alloc, known, paths)?;
        if keep_paths(&old.packages, &fresh) {
            return Graph::replaced(alloc, before, &fresh, files);
        }
        if let Some(coming) = one_that_comes(&old.packages, &fresh) {
            return Graph::grown(alloc, before, coming, files);
        }
        let packages = updated(&old.packages, &fresh)?;
        Graph::made(alloc, Some(old), files, packages)
    }

    /// The graph of `files`, whose Go files are those of `other` in the folders of its packages, and those of `before` in all other folders.
    /// It shares the packages of both, so no file is parsed.
    pub fn with_packages(
        alloc: Global,
        before: &Graph,
        other: &Graph,
        files: Files,
    ) -> Result<Graph, AllocError>
        requires differs { DiffersOnlyIn (package_paths other.now) before.now files }
        requires same { AreSameIn (package_paths other.now) other.now files }
        ensures { IfOk result (λ graph. graph ≡ files) }
    {
        let old: &Parts = &before.parts;
        let fresh: &Parts = &other.parts;
        let packages = updated(&old.packages, &fresh.packages)?;
        Graph::made(alloc, Some(old), files, packages)
    }

    /// The graph of `files`, where Go files differ only in the folder of one package, which is new.
    fn grown(
        alloc: Global,
        before: &Graph,
        coming: Coming<'_>,
        files: Files,
    ) -> Result<Graph, AllocError>
        requires fresh { CoverChanges before.now files (coming.one.now ∷ []) }
        requires file { has_file coming.one.now ≡ true }
        requires stands { IsPlace (package_paths before.now) coming.one.now.path.items coming.place }
        ensures { IfOk result (λ graph. graph ≡ files) }
    {
        let old: &Parts = &before.parts;
        let packages = with_coming(&old.packages, coming)?;
        let grown = Grown {
            packages: &packages,
            links: old.links.links(),
            place: coming.place,
        };
        let links = grown_links(alloc, grown)?;
        Graph::joined(alloc, files, packages, links)
    }

    /// The graph of `files`, from its packages and their links.
    fn joined(
        alloc: Global,
        files: Files,
        packages: Vec<SharedPackage>,
        links: ImportLinks,
    ) -> Result<Graph, AllocError>
        requires { IsGraph files packages.items links }
        ensures { IfOk result (λ graph. graph ≡ files) }
    {
        let links = SharedLinks::new(alloc, links)?;
        let parts = Parts {
            files,
            packages,
            links,
        };
        Ok(Graph {
            parts: Arc::new(alloc, parts)?,
        })
    }

    /// The graph of `files`, where the packages `fresh` replace those at their paths and Go files differ only in their folders. No package
    /// is added or removed.
    fn replaced(
        alloc: Global,
        before: &Graph,
        fresh: &[SharedPackage],
        files: Files,
    ) -> Result<Graph, AllocError>
        requires differs { DiffersOnlyIn (paths_of fresh.now) before.now files }
        requires fresh { All (HasFiles files) fresh.now }
        requires kept { All (KeepsPath (package_paths before.now)) fresh.now }
        ensures { IfOk result (λ graph. graph ≡ files) }
    {
        let old: &Parts = &before.parts;
        let packages = replaced(&old.packages, fresh)?;
        if !keep_rows(alloc, &packages, old.links.links(), fresh)? {
            return Graph::made(alloc, Some(old), files, packages);
        }
        let links = old.links.clone()?;
        let parts = Parts {
            files,
            packages,
            links,
        };
        Ok(Graph {
            parts: Arc::new(alloc, parts)?,
        })
    }

    /// The graph of `files`, from its packages. Where no link changed since `before`, the links are shared. Each import is first looked for
    /// at its number before.
    fn made(
        alloc: Global,
        before: Option<&Parts>,
        files: Files,
        packages: Vec<SharedPackage>,
    ) -> Result<Graph, AllocError>
        requires paths { paths_of packages.items ≡ package_paths files }
        requires files { (i : ℕ) (p : ParsedPackage) → slice_get packages.items i ≡ Some p → HasFiles files p }
        ensures { IfOk result (λ graph. graph ≡ files) }
    {
        let earlier = earlier_of(before);
        let rows = rows(alloc, &packages, earlier)?;
        let links = SharedLinks::of(alloc, links_of(before), rows)?;
        let parts = Parts {
            files,
            packages,
            links,
        };
        Ok(Graph {
            parts: Arc::new(alloc, parts)?,
        })
    }

    /// The files of the workspace.
    pub fn files(&self) -> &Files
        ensures { result.now ≡ self.now }
    {
        &self.parts.files
    }

    /// The number of packages.
    pub fn len(&self) -> usize
        ensures { result ≡ length (package_paths self.now) }
    {
        self.parts.packages.len()
    }

    /// The number of the package at a path, or `None` where there is no such package.
    pub fn number_of(&self, path: &[u8]) -> Option<usize>
        ensures { MatchOption result (Contains (package_paths self.now) path.now → ⊥) (λ number. slice_get (package_paths self.now) number ≡ Some path.now) }
    {
        number_of(&self.parts.packages, path)
    }

    /// The package of that number, with its parsed files.
    pub fn package(&self, number: usize) -> &ParsedPackage
        requires { number < length (package_paths self.now) }
        ensures { IsPackage self.now number result.now }
    {
        self.parts.packages[number].package()
    }

    /// The direct imports of all packages, by number.
    pub fn links(&self) -> &ImportLinks
        ensures links { AreLinksOf self.now result.now }
        ensures rising { (i : ℕ) → i < length result.now → IsStrictlyIncreasing (row_of result.now i) }
    {
        self.parts.links.links()
    }

    /// The packages that a package imports directly, in increasing order.
    pub fn imports(&self, number: usize) -> &[usize]
        requires { number < length (package_paths self.now) }
        ensures imports { OfPackage self.now number (λ p. ListsPackages self.now (PackageImports self.now p) result.now) }
        ensures rising { IsStrictlyIncreasing result.now }
    {
        self.links().imports(number)
    }

    /// The packages that import a package directly, in increasing order.
    pub fn importers(&self, number: usize) -> &[usize]
        requires { number < length (package_paths self.now) }
        ensures importers { OfPackage self.now number (λ p. ListsPackages self.now (λ q. PackageImports self.now q p) result.now) }
        ensures rising { IsStrictlyIncreasing result.now }
    {
        self.links().importers(number)
    }

    /// The closure of a package, in increasing order: itself, and all packages that it imports directly or indirectly. Found by a search.
    pub fn closure(&self, alloc: Global, number: usize) -> Result<PackageList, AllocError>
        requires { number < length (package_paths self.now) }
        ensures closure { IfOk result (λ closure. OfPackage self.now number (λ p. ListsPackages self.now (IsInClosure self.now p) closure)) }
        ensures rising { IfOk result IsStrictlyIncreasing }
    {
        self.links().closure(alloc, number)
    }

    /// A mark for each package. Of the packages in the closure of package `number`, exactly those are marked that import it directly or
    /// indirectly, and itself.
    pub fn back_marks(&self, alloc: Global, number: usize) -> Result<Vec<bool>, AllocError>
        requires { number < length (package_paths self.now) }
        ensures { IfOk result (λ marks. OfPackage self.now number (λ p. AreBackMarks self.now p marks.items)) }
    {
        self.links().back_marks(alloc, number)
    }

    /// The packages that a package imports directly or indirectly and that do not import it so, in increasing order. Found by a search.
    pub fn built_on(&self, alloc: Global, number: usize) -> Result<PackageList, AllocError>
        requires { number < length (package_paths self.now) }
        ensures below { IfOk result (λ below. OfPackage self.now number (λ p. ListsPackages self.now (BuildsOn self.now p) below)) }
        ensures rising { IfOk result IsStrictlyIncreasing }
    {
        self.links().built_on(alloc, number)
    }

    /// The packages of `built_on`, with the marks of `back_marks`. Both come from one search.
    pub fn below(&self, alloc: Global, number: usize) -> Result<PackagesBelow, AllocError>
        requires { number < length (package_paths self.now) }
        ensures built_on { IfOk result (λ found. OfPackage self.now number (λ p. ListsPackages self.now (BuildsOn self.now p) found.built_on)) }
        ensures rising { IfOk result (λ found. IsStrictlyIncreasing found.built_on) }
        ensures back { IfOk result (λ found. OfPackage self.now number (λ p. AreBackMarks self.now p found.back.items)) }
    {
        self.links().below(alloc, number)
    }

    /// The packages of `built_on`, with the marks of `back_marks`, computed from the closure of the package. There is no search unless the
    /// closure contains an importer of the package.
    pub fn below_in(
        &self,
        alloc: Global,
        number: usize,
        closure: &[usize],
    ) -> Result<PackagesBelow, AllocError>
        requires number { number < length (package_paths self.now) }
        requires closure { OfPackage self.now number (λ p. ListsPackages self.now (IsInClosure self.now p) closure.now) }
        requires rising { IsStrictlyIncreasing closure.now }
        ensures built_on { IfOk result (λ found. OfPackage self.now number (λ p. ListsPackages self.now (BuildsOn self.now p) found.built_on)) }
        ensures rising { IfOk result (λ found. IsStrictlyIncreasing found.built_on) }
        ensures back { IfOk result (λ found. OfPackage self.now number (λ p. AreBackMarks self.now p found.back.items)) }
    {
        self.links().below_in(alloc, number, closure)
    }

    /// Marks exactly the packages whose closure contains a marked package. One search finds them all.
    pub fn reaching(&self, alloc: Global, marks: &[bool]) -> Result<Vec<bool>, AllocError>
        requires { length marks.now ≡ length (package_paths self.now) }
        ensures { IfOk result (λ reaching. ReachingMarks self.now marks.now reaching.items) }
    {
        self.links().reaching(alloc, marks)
    }

    /// Marks a package, and all packages that import it directly or indirectly. Importers of marked packages must be marked already, and no
    /// marked package is visited again.
    pub fn mark_importing(
        &self,
        alloc: Global,
        marks: &mut Vec<bool>,
        number: usize,
    ) -> Result<(), AllocError>
        requires number { number < length (package_paths self.now) }
        requires size { length marks.old.items ≡ length (package_paths self.now) }
        requires above { AreImportersMarked self.now marks.old.items }
        ensures { OnOk result (OfPackage self.now number (λ q. AddsClosuresWith self.now q marks.old.items marks.new.items)) }
    {
        self.links().mark_importing(alloc, marks, number)
    }

    /// Marks exactly the packages in whose closure a package is.
    pub fn importing(&self, alloc: Global, number: usize) -> Result<Vec<bool>, AllocError>
        requires { number < length (package_paths self.now) }
        ensures { IfOk result (λ marks. OfPackage self.now number (λ q. MarksClosuresWith self.now q marks.items)) }
    {
        let mut marks = vec![in alloc; false; self.len()]?;
        self.mark_importing(alloc, &mut marks, number)?;
        Ok(marks)
    }
}

impl Clone for Graph {
    ghost is_clone = { λ graph copy. copy ≡ graph };

    fn clone(&self) -> Result<Graph, AllocError> {
        let parts = Arc::try_clone(&self.parts)?;
        Ok(Graph { parts })
    }
}
