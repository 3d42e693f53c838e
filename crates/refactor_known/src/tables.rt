//! Tables by name after a move.
ghost use Rattle.std.specs.Prelude.{◌≡◌, IfOk, OnOk};
ghost use Rattle.refactor_known.specs.Tables.{AddsRelated, HasRelated};
ghost use Rattle.refactor_known.specs.declared.swap.Swap.{Swap as PlainSwap};

use crate::swap::Swap;
use std::alloc::{AllocError, Global};
use std::collections::BTreeMap;

/// A value that may have symbols.
pub(crate) trait Movable: Sized {
    /// What a value becomes by a move.
    ghost moves: { PlainSwap → Self → Self → Type 0 };

    /// The value after the move.
    fn moved(&self, alloc: Global, swap: &Swap) -> Result<Self, AllocError>
        ensures { IfOk result (λ new. moves swap.now self.now new) };
}

/// Adds the value of a name after the move, unless the name has one.
fn add<T: Movable + Drop>(
    alloc: Global,
    swap: &Swap,
    table: &mut BTreeMap<Vec<u8>, T>,
    name: &Vec<u8>,
    value: &T,
) -> Result<(), AllocError>
    ensures { OnOk result (AddsRelated (T.moves swap.now) table.old table.new name.now.items value.now) }
{
    if table.contains_key(name.as_slice()) {
        return Ok(());
    }
    let key = Vec::from_slice(alloc, name)?;
    let value = value.moved(alloc, swap)?;
    table.insert(key, value)?;
    Ok(())
}

/// A table after the move.
pub(crate) fn moved_table<T: Movable + Drop>(
    alloc: Global,
    swap: &Swap,
    old: &BTreeMap<Vec<u8>, T>,
) -> Result<BTreeMap<Vec<u8>, T>, AllocError>
    ensures { IfOk result (λ new. HasRelated (T.moves swap.now) old.now new) }
{
    let mut table = BTreeMap::new(alloc);
    for (name, value) in old {
        add(alloc, swap, &mut table, name, value)?;
    }
    Ok(table)
}
