//! Finds for each number an origin: itself, or a number that leads to it.
ghost use Rattle.std.specs.Prelude.{◌≡◌, ◌<◌, ℕ, length, slice_index_or, IfOk};
ghost use Rattle.types_members.specs.Cycles.{AreOrigins};

use crate::search::SearchLink;
use std::alloc::{AllocError, Global};
use types_declared::row;

/// The numbers from 0 up to `size`, exclusive.
pub(crate) fn numbers(alloc: Global, size: usize) -> Result<Vec<usize>, AllocError>
    ensures size { IfOk result (λ own. length own.items ≡ size) }
    ensures own { IfOk result (λ own. (q : ℕ) → q < size → slice_index_or own.items q 0 ≡ q) }
{
    let mut own = Vec::new(alloc);
    for number in 0..size {
        own.push(number)?;
    }
    Ok(own)
}

/// Gives the target of a link the origin of its source.
fn follow(links: &[Vec<usize>], origins: &mut [usize], link: SearchLink)
    requires { AreOrigins links.now origins.old }
    ensures { AreOrigins links.now origins.new }
{
    match row(links, link.from).get(link.place) {
        None => {}
        Some(to) => {
            if *to < origins.len() && link.from < origins.len() {
                origins[*to] = origins[link.from];
            }
        }
    }
}

/// The origins of numbers after these links were followed in order. A number that no link leads to is its own origin.
pub(crate) fn origins(
    alloc: Global,
    links: &[Vec<usize>],
    followed: &[SearchLink],
) -> Result<Vec<usize>, AllocError>
    ensures { IfOk result (λ origins. AreOrigins links.now origins.items) }
{
    let mut origins = numbers(alloc, links.len())?;
    for link in followed {
        follow(links, &mut origins, *link);
    }
    Ok(origins)
}
