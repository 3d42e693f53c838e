//! Lists that are made with room. The number that is asked for is told by the contract, so no body can ask for more.
ghost use Rattle.std.specs.Prelude.{◌≡◌, [], length, vec_capacity, IfOk};

use std::alloc::{AllocError, Global};

/// An empty list with room for as many elements as another list has.
pub fn list_as_long<T, U>(alloc: Global, others: &[U]) -> Result<Vec<T>, AllocError>
    ensures items { IfOk result (λ list. list.items ≡ []) }
    ensures room { IfOk result (λ list. vec_capacity list ≡ length others.now) }
{
    Vec::with_capacity(alloc, others.len())
}
