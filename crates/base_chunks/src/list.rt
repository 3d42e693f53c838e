//! `SharedList`: a list in chunks.
ghost use Rattle.std.specs.Prelude.{◌≡◌, ◌<◌, ◌++◌, ◌∷◌, [], IfOk, OnOk, OnErr, length, slice_get, slice_set, slice_index_or, vec_len};
ghost use Rattle.std.specs.Option.{option_copied};
ghost use Rattle.std.specs.Map.Iter.{ShowsInOrder, deref};
ghost use Rattle.base_chunks.specs.Chunks.{joined, AreFull};

use crate::chunk::Chunk;
use crate::chunks::chunk_and;
use crate::copies::{copies, copies_around};
use crate::items::{Items, ListItems};
use crate::share::Share;
use std::alloc::{AllocError, Global};
use std::marker::Model;

/// A list in chunks of 64 items. A copy shares the full chunks, and copies the items behind them. Setting an item makes its chunk anew.
#[derive(Drop)]
pub struct SharedList<T> {
    full: Vec<Chunk<T>>,
    last: Vec<T>,
    len: usize,
}

impl<T> Model for SharedList<T> {
    ghost use Rattle.std.specs.Prelude.{List, ◌++◌};
    ghost use Rattle.base_chunks.specs.Chunks.{joined, IsListParts};

    ghost Value = { List T };

    ghost view = { λ a. joined a.full.items ++ a.last.items };

    ghost invariant = { λ a. IsListParts a.full.items a.last.items a.len };
}

/// A chunk with copies of the items, but with `item` in place of the item of number `i`.
fn chunk_with<T: Share>(
    alloc: Global,
    items: &[T],
    i: usize,
    item: T,
) -> Result<Chunk<T>, AllocError>
    requires { i < length items.now }
    ensures { IfOk result (λ chunk. chunk ≡ slice_set items.now i item) }
{
    let items = copies_around(alloc, &items[..i], item, &items[i + 1..])?;
    Chunk::new(alloc, items)
}

/// Pushes a chunk with copies of `last` and `item` behind them. These are 64 items where `last` has 63.
fn fill<T: Share>(full: &mut Vec<Chunk<T>>, last: &[T], item: T) -> Result<(), AllocError>
    ensures ok { OnOk result (full.new.items ≡ full.old.items ++ (last.now ++ item ∷ []) ∷ []) }
    ensures err { OnErr result (full.new.items ≡ full.old.items) }
{
    let chunk = chunk_and(*full.allocator(), last, item)?;
    full.push(chunk)?;
    Ok(())
}

/// Adds an item to `last`. Where this fills a chunk, the chunk goes to `full`, and `last` becomes empty.
fn add<T: Share>(full: &mut Vec<Chunk<T>>, last: &mut Vec<T>, item: T) -> Result<(), AllocError>
    requires even { AreFull full.old.items }
    requires short { vec_len last.old < 64 }
    ensures ok { OnOk result (joined full.new.items ++ last.new.items ≡ (joined full.old.items ++ last.old.items) ++ item ∷ []) }
    ensures even { AreFull full.new.items }
    ensures short { vec_len last.new < 64 }
    ensures err { OnErr result (joined full.new.items ++ last.new.items ≡ joined full.old.items ++ last.old.items) }
{
    if last.len() < 63 {
        last.push(item)?;
        return Ok(());
    }
    fill(full, last, item)?;
    last.clear();
    Ok(())
}

impl<T> SharedList<T> {
    /// A list without items.
    pub fn new(alloc: Global) -> SharedList<T>
        ensures { result ≡ [] }
    {
        SharedList {
            full: Vec::new(alloc),
            last: Vec::new(alloc),
            len: 0,
        }
    }

    /// The number of items.
    pub fn len(&self) -> usize
        ensures { result ≡ length self.now }
    {
        self.len
    }

    /// The item of number `i`, counted from 0.
    pub fn item(&self, i: usize) -> &T
        requires { i < length self.now }
        ensures { result.now ≡ slice_index_or self.now i result.now }
    {
        let at = i / 64;
        if at < self.full.len() {
            &self.full[at].items()[i % 64]
        } else {
            &self.last[i - 64 * self.full.len()]
        }
    }

    /// The item of number `i`, or `None` where there is none.
    pub fn get(&self, i: usize) -> Option<&T>
        ensures { option_copied result ≡ slice_get self.now i }
    {
        if i < self.len() {
            Some(self.item(i))
        } else {
            None
        }
    }

    /// The items in order.
    pub fn iter(&self) -> ListItems<'_, T>
        ensures items { result ≡ self.now }
        ensures runs { ShowsInOrder (deref {X = T}) }
    {
        ListItems::new(Items::new(&[], &self.full), &self.last)
    }
}

impl<T: Share> SharedList<T> {
    /// Replaces the item of number `i`.
    pub fn set(&mut self, i: usize, item: T) -> Result<(), AllocError>
        requires { i < length self.old }
        ensures ok { OnOk result (self.new ≡ slice_set self.old i item) }
        ensures err { OnErr result (self.new ≡ self.old) }
    {
        let at = i / 64;
        if at < self.full.len() {
            let alloc = *self.full.allocator();
            let chunk = chunk_with(alloc, self.full[at].items(), i % 64, item)?;
            self.full[at] = chunk;
        } else {
            let behind = i - 64 * self.full.len();
            self.last[behind] = item;
        }
        Ok(())
    }

    /// Adds an item at the end.
    pub fn push(&mut self, item: T) -> Result<(), AllocError>
        ensures ok { OnOk result (self.new ≡ self.old ++ item ∷ []) }
        ensures err { OnErr result (self.new ≡ self.old) }
    {
        let len = self.len.checked_add(1).ok_or(AllocError)?;
        add(&mut self.full, &mut self.last, item)?;
        self.len = len;
        Ok(())
    }

    /// A copy of the list, which shares the full chunks.
    pub fn copy(&self) -> Result<SharedList<T>, AllocError>
        ensures { IfOk result (λ copy. copy ≡ self.now) }
    {
        let full = copies(*self.full.allocator(), &self.full)?;
        let last = copies(*self.last.allocator(), &self.last)?;
        Ok(SharedList {
            full,
            last,
            len: self.len,
        })
    }
}
