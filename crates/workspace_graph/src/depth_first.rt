//! A depth-first search, for the order in which it leaves packages. Only the speed of `order` depends on that order.
ghost use Rattle.std.specs.Prelude.{◌≡◌, ◌≤◌, ◌<◌, ◌+◌, false, length, slice_index_or, IfOk, IfSome, OnOk};
ghost use Rattle.std.specs.List.{All};
ghost use Rattle.workspace_graph.specs.Imports.{AreLinked};
ghost use Rattle.workspace_graph.specs.Orders.{steps_left};

use crate::link_rows::LinkRows;
use std::alloc::{AllocError, Global};

/// A package on the path of the search: entered and not left yet. The search goes on at place `next` of its row.
#[derive(Clone, Copy)]
struct Entered {
    number: usize,
    next: usize,
}

/// The state of a search: marks of the packages entered, the path, and the packages left so far, in this order.
#[derive(Drop)]
struct DepthFirst {
    marks: Vec<bool>,
    path: Vec<Entered>,
    left: Vec<usize>,
}

/// The first place of a row, from `from` on, whose package is not marked.
fn unmarked_from(row: &[usize], from: usize, marks: &[bool]) -> Option<usize>
    requires { All (λ q. q < length marks.now) row.now }
    ensures within { IfSome result (λ place. place < length row.now) }
    ensures clear { IfSome result (λ place. slice_index_or marks.now (slice_index_or row.now place 0) false ≡ false) }
{
    for place in from..row.len() {
        if !marks[row[place]] {
            return Some(place);
        }
    }
    None
}

impl DepthFirst {
    /// The state before the search, for `count` packages.
    fn new(alloc: Global, count: usize) -> Result<DepthFirst, AllocError>
        ensures { IfOk result (λ walk. length walk.marks.items ≡ count) }
    {
        Ok(DepthFirst {
            marks: vec![in alloc; false; count]?,
            path: Vec::new(alloc),
            left: Vec::new(alloc),
        })
    }

    /// Enters a package: marks it and puts it on the path.
    fn enter(&mut self, number: usize) -> Result<(), AllocError>
        requires within { number < length self.old.marks.items }
        requires clear { slice_index_or self.old.marks.items number false ≡ false }
        ensures size { OnOk result (length self.new.marks.items ≡ length self.old.marks.items) }
        ensures steps { OnOk result (steps_left self.new.marks.items self.new.path.items + 1 ≡ steps_left self.old.marks.items self.old.path.items) }
    {
        self.marks[number] = true;
        self.path.push(Entered { number, next: 0 })?;
        Ok(())
    }

    /// Continues from an entered package: enters the next package of its row that is not marked, or leaves the package.
    fn step(&mut self, links: &LinkRows, top: Entered) -> Result<(), AllocError>
        requires linked { AreLinked links.now }
        requires size { length self.old.marks.items ≡ length links.now }
        ensures size { OnOk result (length self.new.marks.items ≡ length links.now) }
        ensures steps { OnOk result (steps_left self.new.marks.items self.new.path.items ≤ steps_left self.old.marks.items self.old.path.items) }
    {
        if top.number >= links.len() {
            return Ok(());
        }
        let row = links.row(top.number);
        let Some(place) = unmarked_from(row, top.next, &self.marks) else {
            self.left.push(top.number)?;
            return Ok(());
        };
        let next = place + 1;
        self.path.push(Entered {
            number: top.number,
            next,
        })?;
        self.enter(row[place])
    }

    /// Enters and leaves `start` and all that it reaches, except what was entered before.
    fn walk(&mut self, links: &LinkRows, start: usize) -> Result<(), AllocError>
        requires linked { AreLinked links.now }
        requires size { length self.old.marks.items ≡ length links.now }
        requires start { start < length links.now }
        ensures { OnOk result (length self.new.marks.items ≡ length links.now) }
    {
        if self.marks[start] {
            return Ok(());
        }
        self.enter(start)?;
        while let Some(top) = self.path.pop() {
            self.step(links, top)?;
        }
        Ok(())
    }
}

/// All packages, the one that a depth-first search along `links` leaves last first.
pub(crate) fn last_left_first(alloc: Global, links: &LinkRows) -> Result<Vec<usize>, AllocError>
    requires { AreLinked links.now }
{
    let mut walk = DepthFirst::new(alloc, links.len())?;
    for start in 0..links.len() {
        walk.walk(links, start)?;
    }
    let mut left = walk.left;
    left.reverse();
    Ok(left)
}
