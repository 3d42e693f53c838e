//! The iterators of the collections. The value of an iterator is the list of the items that it has yet to give.
ghost use Rattle.std.specs.Prelude.{◌≡◌, ◌++◌, length};
ghost use Rattle.std.specs.Iterator.{at_most};
ghost use Rattle.std.specs.Map.Iter.{TakesFirst, deref, deref_pair};
ghost use Rattle.base_chunks.specs.Chunks.{joined, AreNonempty};

use crate::chunk::Chunk;
use std::marker::Model;
use std::slice;

/// Iterates over the items of a slice, and over those of the chunks behind it.
#[derive(Drop)]
pub struct Items<'a, T> {
    items: slice::Iter<'a, T>,
    chunks: slice::Iter<'a, Chunk<T>>,
}

impl<'a, T> Model for Items<'a, T> {
    ghost use Rattle.std.specs.Prelude.{List, ◌++◌};
    ghost use Rattle.std.specs.Slice.Iter.{iter_rest};
    ghost use Rattle.base_chunks.specs.Chunks.{joined, AreNonempty};

    ghost Value = { List T };

    ghost view = { λ a. iter_rest a.items ++ joined (iter_rest a.chunks) };

    ghost invariant = { λ a. AreNonempty (iter_rest a.chunks) };
}

impl<'a, T> Items<'a, T> {
    pub(crate) fn new(items: &'a [T], chunks: &'a [Chunk<T>]) -> Items<'a, T>
        requires { AreNonempty chunks.now }
        ensures { result ≡ items.now ++ joined chunks.now }
    {
        Items {
            items: items.iter(),
            chunks: chunks.iter(),
        }
    }
}

impl<'a, T> Iterator for Items<'a, T> {
    type Item = &'a T;

    ghost next_gives = { TakesFirst deref };

    ghost remaining = { λ s. at_most (length s) };

    fn next(&mut self) -> Option<&'a T> {
        if let Some(item) = self.items.next() {
            return Some(item);
        }
        let chunk = self.chunks.next()?;
        self.items = chunk.items().iter();
        self.items.next()
    }
}

/// Iterates over the entries of a map in the order of their keys.
#[derive(Drop)]
pub struct Entries<'a, K, V> {
    items: Items<'a, (K, V)>,
}

impl<'a, K, V> Model for Entries<'a, K, V> {
    ghost use Rattle.std.specs.Prelude.{List};

    ghost Value = { List (K × V) };

    ghost view = { λ a. a.items };
}

impl<'a, K, V> Entries<'a, K, V> {
    pub(crate) fn new(items: Items<'a, (K, V)>) -> Entries<'a, K, V>
        ensures { result ≡ items.entry }
    {
        Entries { items }
    }
}

impl<'a, K, V> Iterator for Entries<'a, K, V> {
    type Item = (&'a K, &'a V);

    ghost next_gives = { TakesFirst deref_pair };

    ghost remaining = { λ s. at_most (length s) };

    fn next(&mut self) -> Option<(&'a K, &'a V)> {
        let entry = self.items.next()?;
        Some((&entry.0, &entry.1))
    }
}

/// Iterates over the items of a list in order.
#[derive(Drop)]
pub struct ListItems<'a, T> {
    full: Items<'a, T>,
    last: slice::Iter<'a, T>,
}

impl<'a, T> Model for ListItems<'a, T> {
    ghost use Rattle.std.specs.Prelude.{List, ◌++◌};
    ghost use Rattle.std.specs.Slice.Iter.{iter_rest};

    ghost Value = { List T };

    ghost view = { λ a. a.full ++ iter_rest a.last };
}

impl<'a, T> ListItems<'a, T> {
    pub(crate) fn new(full: Items<'a, T>, last: &'a [T]) -> ListItems<'a, T>
        ensures { result ≡ full.entry ++ last.now }
    {
        ListItems {
            full,
            last: last.iter(),
        }
    }
}

impl<'a, T> Iterator for ListItems<'a, T> {
    type Item = &'a T;

    ghost next_gives = { TakesFirst deref };

    ghost remaining = { λ s. at_most (length s) };

    fn next(&mut self) -> Option<&'a T> {
        match self.full.next() {
            Some(item) => Some(item),
            None => self.last.next(),
        }
    }
}
