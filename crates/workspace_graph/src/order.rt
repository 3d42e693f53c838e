//! Finds an order of packages in which each comes after those that it reaches and that do not reach it.
ghost use Rattle.std.specs.Prelude.{ℕ, ◌≡◌, ◌<◌, length, IfOk, IfSome, IsTrue, OnOk};
ghost use Rattle.std.specs.List.{All, Contains};
ghost use Rattle.workspace_graph.specs.Imports.{AreLinked, AreImporterRows, Reaches};
ghost use Rattle.workspace_graph.specs.Orders.{AreClear, AreListed, IsOrder};
ghost use Rattle.workspace_graph.specs.Search.{IsMarked};

use crate::depth_first::last_left_first;
use crate::link_rows::LinkRows;
use crate::search::visit;
use std::alloc::{AllocError, Global};

/// The packages listed so far, in order and as marks in `told`. `barred` keeps a search within one block.
#[derive(Drop)]
struct Blocks {
    order: Vec<usize>,
    told: Vec<bool>,
    barred: Vec<bool>,
}

/// Removes the marks of some packages.
fn clear(marks: &mut Vec<bool>, numbers: &[usize])
    requires { All (λ q. q < length marks.old.items) numbers.now }
    ensures size { length marks.new.items ≡ length marks.old.items }
    ensures clear { AreClear numbers.now marks.new.items }
{
    for number in numbers {
        marks[*number] = false;
    }
}

/// Whether all of some packages are marked.
fn are_marked(marks: &[bool], numbers: &[usize]) -> bool
    requires { All (λ q. q < length marks.now) numbers.now }
    ensures { IsTrue result → (q : ℕ) → Contains numbers.now q → IsMarked marks.now q }
{
    for number in numbers {
        if !marks[*number] {
            return false;
        }
    }
    true
}

/// Whether all packages are marked.
fn are_all_marked(marks: &[bool]) -> bool
    ensures { IsTrue result → (q : ℕ) → q < length marks.now → IsMarked marks.now q }
{
    for mark in marks {
        if !*mark {
            return false;
        }
    }
    true
}

/// Whether all packages of a block reach `root` along ways within the block. A search along importers from `root` shows it.
fn leads_back(
    alloc: Global,
    importers: &LinkRows,
    barred: &mut Vec<bool>,
    block: &[usize],
    root: usize,
) -> Result<bool, AllocError>
    requires linked { AreLinked importers.now }
    requires size { length barred.old.items ≡ length importers.now }
    requires block { All (λ q. q < length importers.now) block.now }
    requires root { root < length importers.now }
    ensures size { OnOk result (length barred.new.items ≡ length importers.now) }
    ensures back { IfOk result (λ back. IsTrue back → (q : ℕ) → Contains block.now q → Reaches importers.now root q) }
{
    clear(barred, block);
    visit(alloc, importers, barred, root)?;
    Ok(are_marked(barred, block))
}

impl Blocks {
    /// No package is listed, and all are barred.
    fn new(alloc: Global, count: usize) -> Result<Blocks, AllocError>
        ensures order { IfOk result (λ blocks. length blocks.order.items ≡ 0) }
        ensures told { IfOk result (λ blocks. (q : ℕ) → IsMarked blocks.told.items q → ⊥) }
        ensures size { IfOk result (λ blocks. length blocks.told.items ≡ count) }
        ensures bars { IfOk result (λ blocks. length blocks.barred.items ≡ count) }
    {
        Ok(Blocks {
            order: Vec::new(alloc),
            told: vec![in alloc; false; count]?,
            barred: vec![in alloc; true; count]?,
        })
    }

    /// Lists `root` and all that it reaches and that is not listed yet, as one block. Returns whether all of the block reach `root`.
    fn add(
        &mut self,
        alloc: Global,
        imports: &LinkRows,
        importers: &LinkRows,
        root: usize,
    ) -> Result<bool, AllocError>
        requires linked { AreLinked imports.now }
        requires back { AreImporterRows imports.now (length imports.now) importers.now }
        requires root { root < length imports.now }
        requires told { AreListed imports.now self.old }
        ensures { IfOk result (λ back. IsTrue back → AreListed imports.now self.new) }
    {
        let block = visit(alloc, imports, &mut self.told, root)?;
        self.order.extend_from_slice(&block)?;
        leads_back(alloc, importers, &mut self.barred, &block, root)
    }

    /// Lists a block from each of `roots`, in turn. Stops and returns false at the first block of which not all reach its root.
    fn add_all(
        &mut self,
        alloc: Global,
        imports: &LinkRows,
        importers: &LinkRows,
        roots: &[usize],
    ) -> Result<bool, AllocError>
        requires linked { AreLinked imports.now }
        requires back { AreImporterRows imports.now (length imports.now) importers.now }
        requires told { AreListed imports.now self.old }
        ensures { IfOk result (λ back. IsTrue back → AreListed imports.now self.new) }
    {
        for root in roots {
            if *root < imports.len() {
                if !self.add(alloc, imports, importers, *root)? {
                    return Ok(false);
                }
            }
        }
        Ok(true)
    }
}

/// All packages in an order as in `IsOrder`, built block by block: from each root, the packages that it reaches and that are not listed
/// yet. `None` where not all of a block reach its root.
///
/// Where the roots are those that a depth-first search along importers leaves last, each block is a set of packages that reach each other.
/// That it is so is not proved, and costs only speed.
pub(crate) fn order(
    alloc: Global,
    imports: &LinkRows,
    importers: &LinkRows,
) -> Result<Option<Vec<usize>>, AllocError>
    requires linked { AreLinked imports.now }
    requires back { AreImporterRows imports.now (length imports.now) importers.now }
    ensures { IfOk result (λ found. IfSome found (λ order. IsOrder imports.now order.items)) }
{
    let roots = last_left_first(alloc, importers)?;
    let mut blocks = Blocks::new(alloc, imports.len())?;
    if !blocks.add_all(alloc, imports, importers, &roots)? {
        return Ok(None);
    }
    if !are_all_marked(&blocks.told) {
        return Ok(None);
    }
    Ok(Some(blocks.order))
}
