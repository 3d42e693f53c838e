//! Finds the strongly connected components of links by two depth-first searches: against the links, and then along them in the reverse
//! order in which the first left numbers. That these are the components is not proved: what they say of a number is checked.
ghost use Rattle.std.specs.Prelude.{IfOk};
ghost use Rattle.types_declared.specs.Reachability.{AreLinksInRange};
ghost use Rattle.types_members.specs.Cycles.{AreOrigins, IsReversed, AreComponents};

use crate::origins::{numbers, origins};
use crate::search::{DepthSearch, search_from};
use crate::values::falls;
use std::alloc::{AllocError, Global};
use types_declared::{no_links, note, row};

/// What two searches found of links: enough to decide for each number whether it lies on a cycle.
#[derive(Drop)]
pub(crate) struct Components {
    /// The turn of the search along links in which each number was found.
    pub(crate) turns: Vec<usize>,
    /// Whether no number links to one of a later turn.
    pub(crate) falls: bool,
    /// For each number, itself or a number that leads to it.
    pub(crate) origins: Vec<usize>,
    /// For each number, itself or a number that it leads to.
    pub(crate) ends: Vec<usize>,
}

/// Returns the links reversed.
fn reversed(alloc: Global, links: &[Vec<usize>]) -> Result<Vec<Vec<usize>>, AllocError>
    requires { AreLinksInRange links.now }
    ensures { IfOk result (λ back. IsReversed links.now back.items) }
{
    let mut back = no_links(alloc, links.len())?;
    for from in 0..links.len() {
        for to in row(links, from) {
            note(&mut back, *to, from)?;
        }
    }
    Ok(back)
}

/// Searches along links, from the numbers in the reverse order in which a search against the links left them.
fn along(
    alloc: Global,
    links: &[Vec<usize>],
    back: &[Vec<usize>],
) -> Result<DepthSearch, AllocError> {
    let order = numbers(alloc, back.len())?;
    let against = search_from(alloc, back, &order)?;
    search_from(alloc, links, &against.left)
}

/// Returns for each number the one from which a search along the reversed links found it.
fn ends(alloc: Global, back: &[Vec<usize>], order: &[usize]) -> Result<Vec<usize>, AllocError>
    ensures { IfOk result (λ ends. AreOrigins back.now ends.items) }
{
    let against = search_from(alloc, back, order)?;
    origins(alloc, back, &against.followed)
}

/// Finds the components of links, given the links and the reversed links.
fn components_of(
    alloc: Global,
    links: &[Vec<usize>],
    back: &[Vec<usize>],
) -> Result<Components, AllocError>
    requires { IsReversed links.now back.now }
    ensures { IfOk result (λ c. AreComponents links.now c.turns.items c.falls c.origins.items c.ends.items) }
{
    let along = along(alloc, links, back)?;
    let ends = ends(alloc, back, &along.left)?;
    let origins = origins(alloc, links, &along.followed)?;
    let falling = falls(links, &along.turns);
    Ok(Components {
        turns: along.turns,
        falls: falling,
        origins,
        ends,
    })
}

/// Finds the components of links.
pub(crate) fn find_components(alloc: Global, links: &[Vec<usize>]) -> Result<Components, AllocError>
    requires { AreLinksInRange links.now }
    ensures { IfOk result (λ c. AreComponents links.now c.turns.items c.falls c.origins.items c.ends.items) }
{
    let back = reversed(alloc, links)?;
    components_of(alloc, links, &back)
}
