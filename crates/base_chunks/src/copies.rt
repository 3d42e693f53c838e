//! Lists made of copies of items.
ghost use Rattle.std.specs.Prelude.{◌≡◌, [], ◌∷◌, ◌++◌, IfOk, OnOk};

use crate::share::Share;
use std::alloc::{AllocError, Global};

/// Appends copies of the items of `from` to `to`.
fn add_copies<T: Share>(to: &mut Vec<T>, from: &[T]) -> Result<(), AllocError>
    ensures { OnOk result (to.new.items ≡ to.old.items ++ from.now) }
{
    for item in from {
        to.push(item.share()?)?;
    }
    Ok(())
}

/// Copies of the items of a list.
pub(crate) fn copies<T: Share>(alloc: Global, from: &[T]) -> Result<Vec<T>, AllocError>
    ensures { IfOk result (λ to. to.items ≡ from.now) }
{
    let mut to = Vec::new(alloc);
    add_copies(&mut to, from)?;
    Ok(to)
}

/// Copies of the items of `front`, followed by copies of those of `back`.
pub(crate) fn copies_of_both<T: Share>(
    alloc: Global,
    front: &[T],
    back: &[T],
) -> Result<Vec<T>, AllocError>
    ensures { IfOk result (λ to. to.items ≡ front.now ++ back.now) }
{
    let mut to = copies(alloc, front)?;
    add_copies(&mut to, back)?;
    Ok(to)
}

/// Copies of the items of `front`, followed by `item`.
pub(crate) fn copies_and<T: Share>(
    alloc: Global,
    front: &[T],
    item: T,
) -> Result<Vec<T>, AllocError>
    ensures { IfOk result (λ to. to.items ≡ front.now ++ item ∷ []) }
{
    let mut to = copies(alloc, front)?;
    to.push(item)?;
    Ok(to)
}

/// Copies of the items of `front`, followed by `item` and copies of the items of `back`.
pub(crate) fn copies_around<T: Share>(
    alloc: Global,
    front: &[T],
    item: T,
    back: &[T],
) -> Result<Vec<T>, AllocError>
    ensures { IfOk result (λ to. to.items ≡ front.now ++ item ∷ back.now) }
{
    let mut to = copies_and(alloc, front, item)?;
    add_copies(&mut to, back)?;
    Ok(to)
}
