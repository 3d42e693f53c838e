//! Appends to the lists of a syntax tree. Trees stay in memory and most lists are short, so room is made for few items at a time.
ghost use Rattle.std.specs.Prelude.{◌≡◌, ◌+◌, ◌∷◌, ◌++◌, [], OnOk, vec_len};

use std::alloc::AllocError;

/// Appends an item to a list. A full list of up to seven items gets room for one more, a longer one for an eighth more.
pub(crate) fn push<T: Drop>(list: &mut Vec<T>, item: T) -> Result<(), AllocError>
    ensures items { OnOk result (list.new.items ≡ list.old.items ++ item ∷ []) }
    ensures len { OnOk result (vec_len list.new ≡ vec_len list.old + 1) }
{
    if list.len() == list.capacity() {
        list.reserve_exact(list.len() / 8 + 1)?;
    }
    list.push(item)?;
    Ok(())
}
