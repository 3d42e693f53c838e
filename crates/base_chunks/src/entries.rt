//! Entries in the order of their keys, as a chunk of a map has them.
ghost use Rattle.std.specs.Prelude.{◌≡◌, ◌<◌, ◌≤◌, false, IsTrue, IfOk, IfSome, length, take, drop, insert, slice_index_or, slice_set};
ghost use Rattle.std.specs.Option.{option_copied};
ghost use Rattle.std.specs.FinMap.{find, put};
ghost use Rattle.base_chunks.specs.Entries.{without, Rises, IsAfterAll, is_after, is_at};

use crate::copies::{copies_around, copies_of_both};
use crate::share::Share;
use std::alloc::{AllocError, Global};

/// The number of entries whose keys are less than `key`, found by binary search.
pub(crate) fn place<K: Ord, V>(entries: &[(K, V)], key: &K) -> usize
    requires { Rises K.cmp entries.now }
    ensures within { result ≤ length entries.now }
    ensures front { IsAfterAll K.cmp key.now (take result entries.now) }
    ensures back { is_after K.cmp key.now (drop result entries.now) ≡ false }
{
    let mut low = 0;
    let mut high = entries.len();
    'halving: while low < high {
        let middle = low + (high - low) / 2;
        if key.cmp(&entries[middle].0).is_gt() {
            low = middle + 1;
        } else {
            high = middle;
        }
    }
    low
}

/// Whether there is an entry of number `at`, and its key compares equal to `key`.
fn is_at<K: Ord, V>(entries: &[(K, V)], at: usize, key: &K) -> bool
    ensures there { result ≡ is_at K.cmp key.now (drop at entries.now) }
    ensures within { IsTrue result → at < length entries.now }
{
    at < entries.len() && key.cmp(&entries[at].0).is_eq()
}

/// The value at a key, or `None` where the key is missing.
pub(crate) fn value_of<'a, K: Ord, V>(entries: &'a [(K, V)], key: &K) -> Option<&'a V>
    requires { Rises K.cmp entries.now }
    ensures { option_copied result ≡ find K.cmp key.now entries.now }
{
    let at = place(entries, key);
    if is_at(entries, at, key) {
        Some(&entries[at].1)
    } else {
        None
    }
}

/// The index of the entry of a key, if there is one.
pub(crate) fn index_of_key<K: Ord, V>(entries: &[(K, V)], key: &K) -> Option<usize>
    requires { Rises K.cmp entries.now }
    ensures within { IfSome result (λ at. at < length entries.now) }
    ensures put { IfSome result (λ at. (value : V) (d : K × V) → put K.cmp key.now value entries.now ≡ slice_set entries.now at ((slice_index_or entries.now at d).0, value)) }
{
    let at = place(entries, key);
    if is_at(entries, at, key) {
        Some(at)
    } else {
        None
    }
}

/// The greatest number of entries in a chunk of a map.
pub(crate) const MOST: usize = 64;

/// The index at which a missing key can be inserted. `None` where the key is there, or the entries fill a chunk.
pub(crate) fn index_to_insert<K: Ord, V>(entries: &[(K, V)], key: &K) -> Option<usize>
    requires { Rises K.cmp entries.now }
    ensures within { IfSome result (λ at. at ≤ length entries.now) }
    ensures put { IfSome result (λ at. (value : V) → put K.cmp key.now value entries.now ≡ insert entries.now at (key.now, value)) }
{
    let at = place(entries, key);
    if entries.len() < MOST && !is_at(entries, at, key) {
        Some(at)
    } else {
        None
    }
}

/// Copies of the entries, with `value` at `key`. Where an entry has an equal key, that key is kept.
pub(crate) fn with_entry<K: Ord + Share, V: Share>(
    alloc: Global,
    entries: &[(K, V)],
    key: K,
    value: V,
) -> Result<Vec<(K, V)>, AllocError>
    requires { Rises K.cmp entries.now }
    ensures { IfOk result (λ new. new.items ≡ put K.cmp key value entries.now) }
{
    let at = place(entries, &key);
    if is_at(entries, at, &key) {
        let same = entries[at].0.share()?;
        copies_around(alloc, &entries[..at], (same, value), &entries[at + 1..])
    } else {
        copies_around(alloc, &entries[..at], (key, value), &entries[at..])
    }
}

/// Copies of the entries without the one at `key`.
pub(crate) fn without_key<K: Ord + Share, V: Share>(
    alloc: Global,
    entries: &[(K, V)],
    key: &K,
) -> Result<Vec<(K, V)>, AllocError>
    requires { Rises K.cmp entries.now }
    ensures { IfOk result (λ new. new.items ≡ without K.cmp key.now entries.now) }
{
    let at = place(entries, key);
    if is_at(entries, at, key) {
        copies_of_both(alloc, &entries[..at], &entries[at + 1..])
    } else {
        copies_of_both(alloc, &entries[..at], &entries[at..])
    }
}
