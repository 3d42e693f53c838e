//! Chunks: lists of items that several collections share.
ghost use Rattle.std.specs.Prelude.{◌≡◌, ◌<◌, ◌≤◌, length, insert, slice_index_or, slice_set, IfOk, IfErr, OnOk, OnErr};

use crate::share::Share;
use std::alloc::{AllocError, Global};
use std::marker::Model;
use std::sync::Arc;

/// A list of items behind a counted reference. A copy shares the items, and shared items don't change.
#[derive(Drop)]
pub(crate) struct Chunk<T> {
    items: Arc<Vec<T>, Global>,
}

impl<T> Model for Chunk<T> {
    ghost use Rattle.std.specs.Prelude.{List};
    ghost use Rattle.std.specs.Arc.{arc_value};

    ghost Value = { List T };

    ghost view = { λ a. (arc_value a.items).items };
}

impl<T> Chunk<T> {
    pub(crate) fn new(alloc: Global, items: Vec<T>) -> Result<Chunk<T>, AllocError>
    where
        T: Drop,
        ensures { IfOk result (λ chunk. chunk ≡ items.items) }
    {
        let items = Arc::new(alloc, items)?;
        Ok(Chunk { items })
    }

    pub(crate) fn items(&self) -> &[T]
        ensures { result.now ≡ self.now }
    {
        self.items.as_slice()
    }
}

impl<T: Drop> Chunk<T> {
    /// Inserts an item at index `at`, unless the items are shared or memory is lacking: then `Err` returns the item.
    pub(crate) fn insert_unshared(&mut self, at: usize, item: T) -> Result<(), T>
        requires { at ≤ length self.old }
        ensures ok { OnOk result (self.new ≡ insert self.old at item) }
        ensures err { OnErr result (self.new ≡ self.old) }
        ensures back { IfErr result (λ back. back ≡ item) }
    {
        let Some(items) = Arc::get_mut(&mut self.items) else {
            return Err(item);
        };
        match items.insert(at, item) {
            Ok(()) => Ok(()),
            Err(refused) => Err(refused.value),
        }
    }
}

/// Sets the value of the entry at index `at` to that of an entry, unless the entries are shared: then `Err` returns the entry. The key stays.
pub(crate) fn replace_value<K: Drop, V: Drop>(
    chunk: &mut Chunk<(K, V)>,
    at: usize,
    entry: (K, V),
) -> Result<(), (K, V)>
    requires { at < length chunk.old }
    ensures ok { OnOk result ((d : K × V) → chunk.new ≡ slice_set chunk.old at ((slice_index_or chunk.old at d).0, entry.1)) }
    ensures err { OnErr result (chunk.new ≡ chunk.old) }
    ensures back { IfErr result (λ back. back ≡ entry) }
{
    let Some(entries) = Arc::get_mut(&mut chunk.items) else {
        return Err(entry);
    };
    let (key, value) = entry;
    drop(key);
    entries[at].1 = value;
    Ok(())
}

impl<T: Drop> Share for Chunk<T> {
    fn share(&self) -> Result<Chunk<T>, AllocError> {
        let items = Arc::try_clone(&self.items)?;
        Ok(Chunk { items })
    }
}
