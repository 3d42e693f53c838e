//! Reachability along links: the numbers that links lead to from the marked ones.
ghost use Rattle.std.specs.Prelude.{◌≡◌, ◌<◌, ◌↔◌, ℕ, length, slice_get, slice_index_or, IfOk, OnOk};
ghost use Rattle.types_declared.specs.Reachability.{AreLinksInRange, HasMark, ListsMarks, IsOrdered, IsReachOrder, AddsMarks, LinksTo, IsReachable, links_from};

use std::alloc::{AllocError, Global};

/// A search under way: a mark for each number, and the marked numbers in the order in which they were found.
#[derive(Drop)]
struct Reachable {
    marks: Vec<bool>,
    found: Vec<usize>,
}

/// The numbers that `from` links to; none where it has no row.
pub fn row(links: &[Vec<usize>], from: usize) -> &[usize]
    ensures { result.now ≡ links_from (slice_get links.now from) }
{
    match links.get(from) {
        None => &[],
        Some(row) => row,
    }
}

impl Reachable {
    /// A search over `size` numbers with none marked.
    fn new(alloc: Global, size: usize) -> Result<Reachable, AllocError>
        ensures listed { IfOk result (λ s. ListsMarks s.found.items s.marks.items) }
        ensures size { IfOk result (λ s. length s.marks.items ≡ size) }
        ensures none { IfOk result (λ s. (q : ℕ) → HasMark s.marks.items q → ⊥) }
    {
        Ok(Reachable {
            marks: vec![in alloc; false; size]?,
            found: Vec::new(alloc),
        })
    }

    /// Marks a number, unless it is marked already.
    fn mark(&mut self, number: usize) -> Result<(), AllocError>
        requires in_range { number < length self.old.marks.items }
        requires listed { ListsMarks self.old.found.items self.old.marks.items }
        ensures listed { OnOk result (ListsMarks self.new.found.items self.new.marks.items) }
        ensures marked { OnOk result (AddsMarks self.old.found.items self.old.marks.items self.new.found.items self.new.marks.items (λ q. q ≡ number)) }
    {
        if !self.marks[number] {
            self.found.push(number)?;
            self.marks[number] = true;
        }
        Ok(())
    }

    /// Marks each number that the number at index `place` of `found` links to.
    fn follow(&mut self, links: &[Vec<usize>], place: usize) -> Result<(), AllocError>
        requires linked { AreLinksInRange links.now }
        requires size { length self.old.marks.items ≡ length links.now }
        requires listed { ListsMarks self.old.found.items self.old.marks.items }
        requires place { place < length self.old.found.items }
        ensures listed { OnOk result (ListsMarks self.new.found.items self.new.marks.items) }
        ensures marked { OnOk result (AddsMarks self.old.found.items self.old.marks.items self.new.found.items self.new.marks.items (LinksTo links.now (slice_index_or self.old.found.items place 0))) }
    {
        for number in row(links, self.found[place]) {
            self.mark(*number)?;
        }
        Ok(())
    }

    /// Marks each number that `begins` marks.
    fn begin(&mut self, begins: &[bool]) -> Result<(), AllocError>
        requires size { length begins.now ≡ length self.old.marks.items }
        requires listed { ListsMarks self.old.found.items self.old.marks.items }
        ensures listed { OnOk result (ListsMarks self.new.found.items self.new.marks.items) }
        ensures marked { OnOk result (AddsMarks self.old.found.items self.old.marks.items self.new.found.items self.new.marks.items (HasMark begins.now)) }
    {
        for number in 0..begins.len() {
            if begins[number] {
                self.mark(number)?;
            }
        }
        Ok(())
    }

    /// Marks each number that `begins` marks, and each that links lead to from these.
    fn over(alloc: Global, links: &[Vec<usize>], begins: &[bool]) -> Result<Reachable, AllocError>
        requires linked { AreLinksInRange links.now }
        requires size { length begins.now ≡ length links.now }
        ensures size { IfOk result (λ s. length s.marks.items ≡ length links.now) }
        ensures listed { IfOk result (λ s. ListsMarks s.found.items s.marks.items) }
        ensures ordered { IfOk result (λ s. IsOrdered links.now (HasMark begins.now) s.found.items) }
        ensures reached { IfOk result (λ s. (q : ℕ) → HasMark s.marks.items q ↔ IsReachable links.now (HasMark begins.now) q) }
    {
        let mut spread = Reachable::new(alloc, links.len())?;
        spread.begin(begins)?;
        let mut place = 0;
        while place < spread.found.len() {
            spread.follow(links, place)?;
            place += 1;
        }
        Ok(spread)
    }
}

/// Marks the numbers that `begins` marks and those that links lead to from them.
pub fn reached(
    alloc: Global,
    links: &[Vec<usize>],
    begins: &[bool],
) -> Result<Vec<bool>, AllocError>
    requires linked { AreLinksInRange links.now }
    requires size { length begins.now ≡ length links.now }
    ensures size { IfOk result (λ marks. length marks.items ≡ length links.now) }
    ensures reached { IfOk result (λ marks. (q : ℕ) → HasMark marks.items q ↔ IsReachable links.now (HasMark begins.now) q) }
{
    let spread = Reachable::over(alloc, links, begins)?;
    Ok(spread.marks)
}

/// Lists the numbers that `begins` marks and those that links lead to from them. Each number that `begins` doesn't mark comes after one
/// that links to it.
pub fn reached_in_order(
    alloc: Global,
    links: &[Vec<usize>],
    begins: &[bool],
) -> Result<Vec<usize>, AllocError>
    requires linked { AreLinksInRange links.now }
    requires size { length begins.now ≡ length links.now }
    ensures { IfOk result (λ found. IsReachOrder links.now (HasMark begins.now) found.items) }
{
    let spread = Reachable::over(alloc, links, begins)?;
    Ok(spread.found)
}
