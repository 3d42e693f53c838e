//! `SharedMap`: a sorted map in chunks.
ghost use Rattle.std.specs.Prelude.{◌≡◌, ◌↔◌, [], length, IfOk, OnOk, OnErr, IsTrue};
ghost use Rattle.std.specs.Option.{option_copied};
ghost use Rattle.std.specs.Map.Iter.{ShowsInOrder, deref_pair};
ghost use Rattle.std.specs.FinMap.{find, put, is_sorted};
ghost use Rattle.base_chunks.specs.Entries.{without};

use crate::chunk::Chunk;
use crate::chunks::{chunk_of, items_at, put_items};
use crate::copies::copies;
use crate::entries::{value_of, without_key};
use crate::items::{Entries, Items};
use crate::setting::set_entry;
use crate::share::{Same, Share};
use std::alloc::{AllocError, Global};
use std::marker::Model;

/// A map sorted by key, in chunks of at most 64 entries. A copy shares the chunks, and a change copies a chunk only where it is shared. The
/// value of a map in contracts is the list of its entries.
#[derive(Drop)]
pub struct SharedMap<K: Ord, V> {
    chunks: Vec<Chunk<(K, V)>>,
    len: usize,
}

impl<K: Ord, V> Model for SharedMap<K, V> {
    ghost use Rattle.std.specs.Prelude.{◌≡◌, List, length};
    ghost use Rattle.base_chunks.specs.Chunks.{joined, IsMapChunks};

    ghost Value = { List (K × V) };

    ghost view = { λ a. joined a.chunks.items };

    ghost invariant = { λ a. (a.len ≡ length (joined a.chunks.items)) × IsMapChunks K.cmp a.chunks.items };
}

impl<K: Ord, V> SharedMap<K, V> {
    /// A map without entries.
    pub fn new(alloc: Global) -> SharedMap<K, V>
        ensures { result ≡ [] }
    {
        SharedMap {
            chunks: Vec::new(alloc),
            len: 0,
        }
    }

    /// The number of entries.
    pub fn len(&self) -> usize
        ensures len { result ≡ length self.now }
        ensures ordered { IsTrue (is_sorted K.cmp self.now) }
    {
        self.len
    }

    /// The value at a key, or `None` where the key is missing.
    pub fn get(&self, key: &K) -> Option<&V>
        ensures value { option_copied result ≡ find K.cmp key.now self.now }
        ensures ordered { IsTrue (is_sorted K.cmp self.now) }
    {
        let at = chunk_of(&self.chunks, key);
        value_of(items_at(&self.chunks, at), key)
    }
}

impl<K: Ord + Share, V: Share> SharedMap<K, V> {
    /// Sets the value at a key. Where an equal key is there, that key is kept, and only its value changes.
    pub fn insert(&mut self, key: K, value: V) -> Result<(), AllocError>
        ensures ok { OnOk result (self.new ≡ put K.cmp key value self.old) }
        ensures err { OnErr result (self.new ≡ self.old) }
        ensures ordered { IsTrue (is_sorted K.cmp self.old) }
    {
        let at = chunk_of(&self.chunks, &key);
        self.len = set_entry(&mut self.chunks, self.len, at, (key, value))?;
        Ok(())
    }

    /// Removes the entry at a key, if there is one.
    pub fn remove(&mut self, key: &K) -> Result<(), AllocError>
        ensures ok { OnOk result (self.new ≡ without K.cmp key.now self.old) }
        ensures err { OnErr result (self.new ≡ self.old) }
        ensures ordered { IsTrue (is_sorted K.cmp self.old) }
    {
        let alloc = *self.chunks.allocator();
        let at = chunk_of(&self.chunks, key);
        let entries = without_key(alloc, items_at(&self.chunks, at), key)?;
        self.len = put_items(&mut self.chunks, self.len, at, entries)?;
        Ok(())
    }

    /// A copy of the map, which shares the chunks.
    pub fn copy(&self) -> Result<SharedMap<K, V>, AllocError>
        ensures { IfOk result (λ copy. copy ≡ self.now) }
    {
        let chunks = copies(*self.chunks.allocator(), &self.chunks)?;
        Ok(SharedMap {
            chunks,
            len: self.len,
        })
    }
}

impl<K: Ord, V> SharedMap<K, V> {
    /// The entries in the order of their keys.
    pub fn iter(&self) -> Entries<'_, K, V>
        ensures entries { result ≡ self.now }
        ensures runs { ShowsInOrder (deref_pair {K = K} {X = V}) }
        ensures ordered { IsTrue (is_sorted K.cmp self.now) }
    {
        Entries::new(Items::new(&[], &self.chunks))
    }
}

impl<K: Ord + Same, V: Same> SharedMap<K, V> {
    /// Whether both maps have equal entries.
    pub fn same(&self, other: &SharedMap<K, V>) -> bool
        ensures { IsTrue result ↔ (self.now ≡ other.now) }
    {
        let mut others = other.iter();
        for (key, value) in self.iter() {
            let Some((other_key, other_value)) = others.next() else {
                return false;
            };
            if !key.same(other_key) || !value.same(other_value) {
                return false;
            }
        }
        others.next().is_none()
    }
}
