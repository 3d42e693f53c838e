//! Marks the numbers that lie on a cycle of links: decided by components, or by a search where those don't decide.
ghost use Rattle.std.specs.Prelude.{◌≡◌, ◌<◌, ◌↔◌, ℕ, length, IsTrue, IfOk};
ghost use Rattle.types_declared.specs.Reachability.{AreLinksInRange, HasMark, LinksTo};
ghost use Rattle.types_members.specs.Cycles.{IsOnCycle, AreComponents};

use crate::components::{Components, find_components};
use crate::values::{has_value_among, value_at};
use std::alloc::{AllocError, Global};
use types_declared::{reached, row};

/// Whether all that a number links to was found in an earlier turn, which shows that it lies on no cycle.
fn is_clear(links: &[Vec<usize>], searches: &Components, number: usize) -> bool
    requires { AreComponents links.now searches.now.turns.items searches.now.falls searches.now.origins.items searches.now.ends.items }
    ensures { IsTrue result → IsOnCycle links.now number → ⊥ }
{
    if !searches.falls {
        return false;
    }
    let turn = value_at(&searches.turns, number);
    !has_value_among(&searches.turns, row(links, number), turn)
}

/// Whether some number that this one links to leads to this one's origin, which shows that it lies on a cycle.
fn is_shown(links: &[Vec<usize>], searches: &Components, number: usize) -> bool
    requires linked { AreLinksInRange links.now }
    requires in_range { number < length links.now }
    requires tells { AreComponents links.now searches.now.turns.items searches.now.falls searches.now.origins.items searches.now.ends.items }
    ensures { IsTrue result → IsOnCycle links.now number }
{
    let origin = value_at(&searches.origins, number);
    has_value_among(&searches.ends, row(links, number), origin)
}

/// Marks the numbers that `from` links to.
fn led_to(alloc: Global, links: &[Vec<usize>], from: usize) -> Result<Vec<bool>, AllocError>
    requires { AreLinksInRange links.now }
    ensures size { IfOk result (λ marks. length marks.items ≡ length links.now) }
    ensures marked { IfOk result (λ marks. (q : ℕ) → HasMark marks.items q ↔ LinksTo links.now from q) }
{
    let mut marks = vec![in alloc; false; links.len()]?;
    for to in row(links, from) {
        marks[*to] = true;
    }
    Ok(marks)
}

/// Whether a number lies on a cycle, decided by a search from it.
fn is_on_cycle(alloc: Global, links: &[Vec<usize>], number: usize) -> Result<bool, AllocError>
    requires linked { AreLinksInRange links.now }
    requires in_range { number < length links.now }
    ensures { IfOk result (λ found. IsTrue found ↔ IsOnCycle links.now number) }
{
    let begins = led_to(alloc, links, number)?;
    let marks = reached(alloc, links, &begins)?;
    Ok(marks[number])
}

/// Whether a number lies on a cycle.
fn leads_back(
    alloc: Global,
    links: &[Vec<usize>],
    searches: &Components,
    number: usize,
) -> Result<bool, AllocError>
    requires linked { AreLinksInRange links.now }
    requires in_range { number < length links.now }
    requires tells { AreComponents links.now searches.now.turns.items searches.now.falls searches.now.origins.items searches.now.ends.items }
    ensures { IfOk result (λ found. IsTrue found ↔ IsOnCycle links.now number) }
{
    if is_clear(links, searches, number) {
        return Ok(false);
    }
    if is_shown(links, searches, number) {
        return Ok(true);
    }
    is_on_cycle(alloc, links, number)
}

/// Marks each number that lies on a cycle of links.
pub fn cycles(alloc: Global, links: &[Vec<usize>]) -> Result<Vec<bool>, AllocError>
    requires { AreLinksInRange links.now }
    ensures size { IfOk result (λ marks. length marks.items ≡ length links.now) }
    ensures marked { IfOk result (λ marks. (q : ℕ) → q < length links.now → HasMark marks.items q ↔ IsOnCycle links.now q) }
{
    let searches = find_components(alloc, links)?;
    let mut marks = Vec::new(alloc);
    for number in 0..links.len() {
        marks.push(leads_back(alloc, links, &searches, number)?)?;
    }
    Ok(marks)
}
