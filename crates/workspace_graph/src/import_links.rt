//! `ImportLinks`: which packages import which, and the questions about it.
ghost use Rattle.std.specs.Prelude.{ℕ, ◌≡◌, ◌<◌, IfOk, IfSome, IsTrue, OnOk, length};
ghost use Rattle.std.specs.List.Sorted.{IsStrictlyIncreasing};
ghost use Rattle.workspace_graph.specs.Closures.{IsBuiltOnList};
ghost use Rattle.workspace_graph.specs.Orders.{IsOrder};
ghost use Rattle.workspace_graph.specs.Imports.{
  AreLinked,
  AreImporters,
  AreImporterRows,
  Imports,
  IsClosure,
  row_of,
};
ghost use Rattle.workspace_graph.specs.Search.{AreReaching, IsMarked, MarksWayBack, MarksReachingTo, UnmarksBelow};

use crate::among::share_none;
use crate::closure::{back_marks, below, closure_of, reached_by, rest_of};
use crate::importers::importers;
use crate::link_rows::LinkRows;
use crate::order::order;
use crate::package_list::PackageList;
use crate::packages_below::PackagesBelow;
use crate::search::reach;
use std::alloc::{AllocError, Global};
use std::marker::Model;

/// The direct imports of each package, by number from 0, and its importers. Importers are found beforehand, so that `importers` takes no
/// memory. Closures are searched for when they are asked for.
#[derive(Drop)]
pub struct ImportLinks {
    imports: LinkRows,
    importers: LinkRows,
}

impl Model for ImportLinks {
    ghost use Rattle.workspace_graph.specs.Imports.{LinkTable};
    ghost use Rattle.workspace_graph.specs.Closures.{HaveImporters};

    ghost Value = { LinkTable };

    ghost view = { λ a. a.imports };

    ghost invariant = { λ a. HaveImporters a.imports a.importers };
}

impl ImportLinks {
    /// The links with these imports. Finds the importers of each package.
    pub(crate) fn new(alloc: Global, imports: LinkRows) -> Result<ImportLinks, AllocError>
        requires { AreLinked imports }
        ensures { IfOk result (λ links. links ≡ imports) }
    {
        let importers = importers(alloc, &imports)?;
        Ok(ImportLinks { imports, importers })
    }

    /// The links with these imports, whose importers are known.
    pub(crate) fn with_importers(imports: LinkRows, importers: LinkRows) -> ImportLinks
        requires linked { AreLinked imports }
        requires importers { AreImporterRows imports (length imports) importers }
        ensures { result ≡ imports }
    {
        ImportLinks { imports, importers }
    }

    /// The imports of all packages, as rows.
    pub(crate) fn import_rows(&self) -> &LinkRows
        ensures { result.now ≡ self.now }
    {
        &self.imports
    }

    /// The importers of all packages, as rows.
    pub(crate) fn importer_rows(&self) -> &LinkRows
        ensures { AreImporterRows self.now (length self.now) result.now }
    {
        &self.importers
    }

    /// The number of packages.
    pub fn len(&self) -> usize
        ensures { result ≡ length self.now }
    {
        self.imports.len()
    }

    /// Whether the imports are equal to these rows. False may be wrong where the rows are stored differently.
    pub(crate) fn are(&self, rows: &LinkRows) -> bool
        ensures { IsTrue result → self.now ≡ rows.now }
    {
        self.imports.are(rows)
    }

    /// The packages that a package imports directly.
    pub fn imports(&self, number: usize) -> &[usize]
        requires { number < length self.now }
        ensures { result.now ≡ row_of self.now number }
    {
        self.imports.row(number)
    }

    /// The packages that import a package directly.
    pub fn importers(&self, number: usize) -> &[usize]
        requires { number < length self.now }
        ensures importers { AreImporters self.now number result.now }
        ensures rising { ((p : ℕ) → IsStrictlyIncreasing (row_of self.now p)) → IsStrictlyIncreasing result.now }
    {
        self.importers.row(number)
    }

    /// The closure of a package, in increasing order: itself, and all packages that it imports directly or indirectly. Found by a search.
    pub fn closure(&self, alloc: Global, number: usize) -> Result<PackageList, AllocError>
        requires { number < length self.now }
        ensures closure { IfOk result (IsClosure self.now number) }
        ensures rising { IfOk result IsStrictlyIncreasing }
    {
        closure_of(alloc, &self.imports, number)
    }

    /// Of the packages that package `number` reaches, marks exactly those that reach it. All other packages are marked too.
    pub fn back_marks(&self, alloc: Global, number: usize) -> Result<Vec<bool>, AllocError>
        requires { number < length self.now }
        ensures { IfOk result (λ marks. UnmarksBelow self.now number marks.items) }
    {
        back_marks(alloc, &self.imports, &self.importers, number)
    }

    /// The packages that a package reaches and that do not reach it, in increasing order. Marks show those that it reaches and that reach
    /// it. Found by a search.
    pub fn below(&self, alloc: Global, number: usize) -> Result<PackagesBelow, AllocError>
        requires { number < length self.now }
        ensures built_on { IfOk result (λ found. IsBuiltOnList self.now number found.built_on) }
        ensures back { IfOk result (λ found. MarksWayBack self.now number found.back.items) }
    {
        below(alloc, &self.imports, &self.importers, number)
    }

    /// The packages that a package reaches and that do not reach it, in increasing order. Found by a search.
    pub fn built_on(&self, alloc: Global, number: usize) -> Result<PackageList, AllocError>
        requires { number < length self.now }
        ensures { IfOk result (IsBuiltOnList self.now number) }
    {
        let PackagesBelow { built_on, back } = self.below(alloc, number)?;
        drop(back);
        Ok(built_on)
    }

    /// The packages and marks of `below`, computed from the closure of the package. There is no search unless the closure contains an
    /// importer of the package.
    pub fn below_in(
        &self,
        alloc: Global,
        number: usize,
        closure: &[usize],
    ) -> Result<PackagesBelow, AllocError>
        requires number { number < length self.now }
        requires closure { IsClosure self.now number closure.now }
        requires rising { IsStrictlyIncreasing closure.now }
        ensures built_on { IfOk result (λ found. IsBuiltOnList self.now number found.built_on) }
        ensures back { IfOk result (λ found. MarksWayBack self.now number found.back.items) }
    {
        if !share_none(self.importers(number), closure) {
            return self.below(alloc, number);
        }
        rest_of(alloc, self.len(), number, closure)
    }

    /// Marks exactly the packages that reach a marked package. One search finds them all.
    pub fn reaching(&self, alloc: Global, marks: &[bool]) -> Result<Vec<bool>, AllocError>
        requires { length marks.now ≡ length self.now }
        ensures { IfOk result (λ reaching. AreReaching self.now marks.now reaching.items) }
    {
        reached_by(alloc, &self.importers, marks)
    }

    /// Marks a package, and all packages that import it directly or indirectly. Importers of marked packages must be marked already, and no
    /// marked package is visited again.
    pub fn mark_importing(
        &self,
        alloc: Global,
        marks: &mut Vec<bool>,
        number: usize,
    ) -> Result<(), AllocError>
        requires number { number < length self.now }
        requires size { length marks.old.items ≡ length self.now }
        requires above { (p q : ℕ) → Imports self.now p q → IsMarked marks.old.items q → IsMarked marks.old.items p }
        ensures { OnOk result (MarksReachingTo self.now number marks.old.items marks.new.items) }
    {
        reach(alloc, &self.importers, marks, number)
    }

    /// All packages, each after those that it imports, directly or indirectly, and that do not import it so. `None` where the search finds
    /// no such order, which costs only speed.
    pub fn order(&self, alloc: Global) -> Result<Option<Vec<usize>>, AllocError>
        ensures { IfOk result (λ found. IfSome found (λ order. IsOrder self.now order.items)) }
    {
        order(alloc, &self.imports, &self.importers)
    }
}
