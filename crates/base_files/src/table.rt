//! A table by path: a list of entries that is sorted by path.
ghost use Rattle.std.specs.Prelude.{◌≡◌, [], ◌∷◌, ◌++◌, MatchOption, None, Some, IfOk, OnOk, OnErr};
ghost use Rattle.std.specs.Option.{option_copied};
ghost use Rattle.std.specs.FinMap.{find, put};
ghost use Rattle.base_files.specs.Workspace.{path_cmp};
ghost use Rattle.base_files.specs.Entries.{IsEntryAt, IsAfterAllPaths};

use crate::entries::{number_from, put};
use crate::shared_path::SharedPath;
use std::alloc::{AllocError, Global};
use std::marker::Model;

/// A map from paths to values, as a list that is sorted by path. The value of a table in contracts is the list of its entries.
#[derive(Drop)]
pub struct PathTable<V> {
    entries: Vec<(SharedPath, V)>,
}

impl<V> Model for PathTable<V> {
    ghost use Rattle.std.specs.Prelude.{IsTrue, List, ℕ};
    ghost use Rattle.std.specs.FinMap.{is_sorted};
    ghost use Rattle.base_files.specs.Workspace.{path_cmp};

    ghost Value = { List (List ℕ × V) };

    ghost view = { λ a. a.entries.items };

    ghost invariant = { λ a. IsTrue (is_sorted path_cmp a.entries.items) };
}

/// An entry of a table, and its number in the table, from 0.
#[derive(Drop)]
pub struct PathEntry<'a, V> {
    pub number: usize,
    pub path: &'a SharedPath,
    pub value: &'a V,
}

impl<V> PathTable<V> {
    /// A table without entries.
    pub fn new(alloc: Global) -> PathTable<V>
        ensures { result ≡ [] }
    {
        PathTable {
            entries: Vec::new(alloc),
        }
    }

    /// A table without entries that has room for `capacity` entries.
    pub fn with_capacity(alloc: Global, capacity: usize) -> Result<PathTable<V>, AllocError>
        ensures { IfOk result (λ table. table ≡ []) }
    {
        let entries = Vec::with_capacity(alloc, capacity)?;
        Ok(PathTable { entries })
    }

    /// The entry at a path, or `None` where the path is missing. The entry of number `first` is compared first: a caller that asks in the
    /// order of paths gives the number behind that of the last entry found.
    pub fn entry_from(&self, path: &[u8], first: usize) -> Option<PathEntry<'_, V>>
        ensures { MatchOption result (find path_cmp path.now self.now ≡ None) (IsEntryAt path.now self.now) }
    {
        let number = number_from(&self.entries, path, first)?;
        let entry = &self.entries[number];
        Some(PathEntry {
            number,
            path: &entry.0,
            value: &entry.1,
        })
    }

    /// The value at a path, or `None` where the path is missing.
    pub fn get(&self, path: &[u8]) -> Option<&V>
        ensures { option_copied result ≡ find path_cmp path.now self.now }
    {
        match self.entry_from(path, self.entries.len()) {
            None => None,
            Some(entry) => Some(entry.value),
        }
    }
}

impl<V: Drop> PathTable<V> {
    /// Sets the value at a path. A path behind all others is pushed.
    pub fn put(&mut self, path: SharedPath, value: V) -> Result<(), AllocError>
        ensures ok { OnOk result (self.new ≡ put path_cmp path value self.old) }
        ensures err { OnErr result (self.new ≡ self.old) }
    {
        put(&mut self.entries, path, value)?;
        Ok(())
    }

    /// Adds a path behind all others, with its value. The path is not compared: the caller knows that it is the greatest.
    pub fn push(&mut self, path: SharedPath, value: V) -> Result<(), AllocError>
        requires { IsAfterAllPaths path self.old }
        ensures ok { OnOk result (self.new ≡ self.old ++ (path, value) ∷ []) }
        ensures err { OnErr result (self.new ≡ self.old) }
    {
        self.entries.push((path, value))?;
        Ok(())
    }
}
