//! Depth-first searches along links. What they find is checked, so only the speed of finding cycles depends on it. They end, since each
//! step enters a number that was not found before, or leaves one.
ghost use Rattle.std.specs.Prelude.{◌≡◌, ◌<◌, ◌≤◌, ◌+◌, Some, length, slice_get, slice_index_or, IfSome, IsTrue, OnOk};
ghost use Rattle.types_members.specs.SearchSteps.{steps_to_go};

use std::alloc::{AllocError, Global};
use types_declared::row;

/// A link: the number that it leads from, and its index among the links from there.
#[derive(Clone, Copy)]
pub(crate) struct SearchLink {
    pub(crate) from: usize,
    pub(crate) place: usize,
}

/// A depth-first search under way.
#[derive(Drop)]
pub(crate) struct DepthSearch {
    /// For each number the turn in which it was found, counted from 1; 0 for a number not found.
    pub(crate) turns: Vec<usize>,
    /// The links by which numbers were found, in order.
    pub(crate) followed: Vec<SearchLink>,
    /// The numbers that the search left after all that they link to, in order.
    pub(crate) left: Vec<usize>,
    /// The next link to look at of each number on the path from the beginning of the turn.
    path: Vec<SearchLink>,
}

/// Whether a number was not found yet.
fn is_missing(turns: &[usize], number: usize) -> bool
    ensures { IsTrue result → slice_get turns.now number ≡ Some 0 }
{
    match turns.get(number) {
        None => false,
        Some(turn) => *turn == 0,
    }
}

/// The first place of a row, from `from` on, that has a number not found yet.
fn missing_from(row: &[usize], from: usize, turns: &[usize]) -> Option<usize>
    ensures within { IfSome result (λ place. place < length row.now) }
    ensures missing { IfSome result (λ place. slice_get turns.now (slice_index_or row.now place 0) ≡ Some 0) }
{
    for place in from..row.len() {
        if is_missing(turns, row[place]) {
            return Some(place);
        }
    }
    None
}

impl DepthSearch {
    /// A search over `size` numbers that has found none.
    fn new(alloc: Global, size: usize) -> Result<DepthSearch, AllocError> {
        Ok(DepthSearch {
            turns: vec![in alloc; 0; size]?,
            followed: Vec::new(alloc),
            left: Vec::new(alloc),
            path: Vec::new(alloc),
        })
    }

    /// Enters a number: notes its turn and puts it on the path.
    fn enter(&mut self, number: usize, turn: usize) -> Result<(), AllocError>
        requires missing { slice_get self.old.turns.items number ≡ Some 0 }
        requires turn { 0 < turn }
        ensures { OnOk result (steps_to_go self.new.turns.items self.new.path.items + 1 ≡ steps_to_go self.old.turns.items self.old.path.items) }
    {
        self.turns[number] = turn;
        self.path.push(SearchLink {
            from: number,
            place: 0,
        })?;
        Ok(())
    }

    /// Follows a link: keeps its number on the path, at the next link.
    fn follow(&mut self, link: SearchLink) -> Result<(), AllocError>
        ensures turns { self.new.turns ≡ self.old.turns }
        ensures path { OnOk result (length self.new.path.items ≡ length self.old.path.items + 1) }
    {
        self.followed.push(link)?;
        self.path.push(SearchLink {
            from: link.from,
            place: link.place.saturating_add(1),
        })?;
        Ok(())
    }

    /// Goes on from a number of the path: enters the next number that it links to and that was not found yet, or leaves it.
    fn step(&mut self, links: &[Vec<usize>], top: SearchLink, turn: usize) -> Result<(), AllocError>
        requires { 0 < turn }
        ensures { OnOk result (steps_to_go self.new.turns.items self.new.path.items ≤ steps_to_go self.old.turns.items self.old.path.items) }
    {
        let row = row(links, top.from);
        let Some(place) = missing_from(row, top.place, &self.turns) else {
            self.left.push(top.from)?;
            return Ok(());
        };
        let from = top.from;
        self.follow(SearchLink { from, place })?;
        self.enter(row[place], turn)
    }

    /// Searches from one number, unless it was found before.
    fn begin(&mut self, links: &[Vec<usize>], number: usize, turn: usize) -> Result<(), AllocError>
        requires { 0 < turn }
    {
        if !is_missing(&self.turns, number) {
            return Ok(());
        }
        self.enter(number, turn)?;
        while let Some(top) = self.path.pop() {
            self.step(links, top, turn)?;
        }
        Ok(())
    }
}

/// Searches from each number of a list, from the last to the first, in turns counted from 1.
pub(crate) fn search_from(
    alloc: Global,
    links: &[Vec<usize>],
    order: &[usize],
) -> Result<DepthSearch, AllocError> {
    let mut search = DepthSearch::new(alloc, links.len())?;
    for place in 0..order.len() {
        search.begin(links, order[order.len() - 1 - place], place + 1)?;
    }
    Ok(search)
}
