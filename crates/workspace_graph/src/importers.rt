//! Finds the importers of each package. They are noted in one list, in which those of one package are chained.
ghost use Rattle.std.specs.Prelude.{◌≡◌, ◌<◌, ◌++◌, [], ◌∷◌, length, replicate, slice_set, IfOk, OnOk};
ghost use Rattle.std.specs.List.{All};
ghost use Rattle.workspace_graph.specs.Chains.{AreChained, AddsChained};
ghost use Rattle.workspace_graph.specs.Imports.{AreLinked, AreImporterRows, LinkTable, row_of};

use crate::link_rows::LinkRows;
use std::alloc::{AllocError, Global};

/// An importer of a package, and the place in the list of the importer noted before it for the same package. Places count from 1; 0 means
/// none.
#[derive(Clone, Copy)]
struct NotedImporter {
    importer: usize,
    before: usize,
}

/// The noted importers, and for each package the place of the one noted last. Places count from 1; 0 means none.
#[derive(Drop)]
struct Chains {
    latest: Vec<usize>,
    noted: Vec<NotedImporter>,
}

impl Chains {
    /// Chains for `count` packages without importers.
    fn new(alloc: Global, count: usize) -> Result<Chains, AllocError>
        ensures { IfOk result (λ chains. AreChained chains (replicate count [])) }
    {
        Ok(Chains {
            latest: vec![in alloc; 0; count]?,
            noted: Vec::new(alloc),
        })
    }

    /// Notes an importer of the package `number`.
    fn note(&mut self, number: usize, importer: usize) -> Result<(), AllocError>
        requires { number < length self.old.latest.items }
        ensures size { OnOk result (length self.new.latest.items ≡ length self.old.latest.items) }
        ensures noted { OnOk result ((lists : LinkTable) → AreChained self.old lists → AreChained self.new (slice_set lists number (row_of lists number ++ importer ∷ []))) }
    {
        let before = self.latest[number];
        self.noted.push(NotedImporter { importer, before })?;
        self.latest[number] = self.noted.len();
        Ok(())
    }

    /// Notes the importer for each package that it imports.
    fn note_row(&mut self, row: &[usize], importer: usize) -> Result<(), AllocError>
        requires { All (λ q. q < length self.old.latest.items) row.now }
        ensures size { OnOk result (length self.new.latest.items ≡ length self.old.latest.items) }
        ensures noted { OnOk result ((lists : LinkTable) → AreChained self.old lists → AddsChained lists row.now importer self.new) }
    {
        for number in row {
            self.note(*number, importer)?;
        }
        Ok(())
    }

    /// Fills a row with the importers of a package, in the order in which they were noted.
    fn fill_row(&self, number: usize, row: &mut Vec<usize>) -> Result<(), AllocError>
        requires number { number < length self.now.latest.items }
        requires chained { (lists : LinkTable) × AreChained self.now lists }
        ensures { OnOk result ((lists : LinkTable) → AreChained self.now lists → row.new.items ≡ row_of lists number) }
    {
        row.clear();
        let mut left = self.latest[number];
        while left > 0 {
            let noted = self.noted[left - 1];
            row.push(noted.importer)?;
            left = noted.before;
        }
        row.reverse();
        Ok(())
    }

    /// The importers of all packages.
    fn rows(&self, alloc: Global) -> Result<LinkRows, AllocError>
        requires { (lists : LinkTable) × AreChained self.now lists }
        ensures { IfOk result (λ rows. (lists : LinkTable) → AreChained self.now lists → rows ≡ lists) }
    {
        let mut rows = LinkRows::with_capacity(alloc, self.latest.len(), self.noted.len())?;
        let mut row = Vec::new(alloc);
        for number in 0..self.latest.len() {
            self.fill_row(number, &mut row)?;
            rows.add_row(&row)?;
        }
        Ok(rows)
    }
}

/// For each package, its importers.
pub(crate) fn importers(alloc: Global, imports: &LinkRows) -> Result<LinkRows, AllocError>
    requires { AreLinked imports.now }
    ensures { IfOk result (λ importers. AreImporterRows imports.now (length imports.now) importers) }
{
    let mut chains = Chains::new(alloc, imports.len())?;
    for importer in 0..imports.len() {
        chains.note_row(imports.row(importer), importer)?;
    }
    chains.rows(alloc)
}
