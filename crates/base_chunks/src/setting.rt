//! Sets an entry in the chunk of its key.
ghost use Rattle.std.specs.Prelude.{◌≡◌, ◌+◌, ◌≤◌, [], IfOk, IfErr, OnOk, OnErr, length, slice_index_or, vec_len};
ghost use Rattle.std.specs.FinMap.{put};
ghost use Rattle.base_chunks.specs.Entries.{Rises};
ghost use Rattle.base_chunks.specs.Chunks.{joined, ReplacesChunk};

use crate::chunk::{Chunk, replace_value};
use crate::chunks::{items_at, put_items};
use crate::entries::{index_of_key, index_to_insert, with_entry};
use crate::share::Share;
use std::alloc::AllocError;

/// Inserts an entry into chunk `at` in place. The chunk must not be shared, must have room, and must not have the key. Otherwise `Err`
/// returns the entry.
fn set_unshared<K: Ord + Share, V: Share>(
    chunks: &mut Vec<Chunk<(K, V)>>,
    at: usize,
    key: K,
    value: V,
) -> Result<(), (K, V)>
    requires { Rises K.cmp (slice_index_or chunks.old.items at []) }
    ensures ok { OnOk result (ReplacesChunk chunks.old.items chunks.new.items at (put K.cmp key value (slice_index_or chunks.old.items at []))) }
    ensures count { OnOk result (length (joined chunks.new.items) ≡ length (joined chunks.old.items) + 1) }
    ensures err { OnErr result (chunks.new.items ≡ chunks.old.items) }
    ensures back { IfErr result (λ back. back ≡ (key, value)) }
{
    if at >= chunks.len() {
        return Err((key, value));
    }
    match index_to_insert(chunks[at].items(), &key) {
        Some(place) => chunks[at].insert_unshared(place, (key, value)),
        None => Err((key, value)),
    }
}

/// Sets an entry in a copy of chunk `at`. Returns the number of entries after the change.
fn set_in_copy<K: Ord + Share, V: Share>(
    chunks: &mut Vec<Chunk<(K, V)>>,
    len: usize,
    at: usize,
    entry: (K, V),
) -> Result<usize, AllocError>
    requires there { at ≤ vec_len chunks.old }
    requires len { len ≡ length (joined chunks.old.items) }
    requires rises { Rises K.cmp (slice_index_or chunks.old.items at []) }
    ensures count { IfOk result (λ n. n ≡ length (joined chunks.new.items)) }
    ensures ok { OnOk result (ReplacesChunk chunks.old.items chunks.new.items at (put K.cmp entry.0 entry.1 (slice_index_or chunks.old.items at []))) }
    ensures err { OnErr result (chunks.new.items ≡ chunks.old.items) }
{
    let alloc = *chunks.allocator();
    let entries = with_entry(alloc, items_at(chunks, at), entry.0, entry.1)?;
    put_items(chunks, len, at, entries)
}

/// Sets the value of an entry of chunk `at` in place. The chunk must not be shared, and must have the key. Otherwise `Err` returns the entry.
fn replace_unshared<K: Ord + Share, V: Share>(
    chunks: &mut Vec<Chunk<(K, V)>>,
    at: usize,
    key: K,
    value: V,
) -> Result<(), (K, V)>
    requires { Rises K.cmp (slice_index_or chunks.old.items at []) }
    ensures ok { OnOk result (ReplacesChunk chunks.old.items chunks.new.items at (put K.cmp key value (slice_index_or chunks.old.items at []))) }
    ensures count { OnOk result (length (joined chunks.new.items) ≡ length (joined chunks.old.items)) }
    ensures err { OnErr result (chunks.new.items ≡ chunks.old.items) }
    ensures back { IfErr result (λ back. back ≡ (key, value)) }
{
    if at >= chunks.len() {
        return Err((key, value));
    }
    match index_of_key(chunks[at].items(), &key) {
        Some(place) => replace_value(&mut chunks[at], place, (key, value)),
        None => Err((key, value)),
    }
}

/// Sets an entry in chunk `at`, in place where `set_unshared` can, and otherwise in a copy of the chunk. Returns the number of entries after
/// the change. Its contract is that of `set_in_copy`.
fn set_missing<K: Ord + Share, V: Share>(
    chunks: &mut Vec<Chunk<(K, V)>>,
    len: usize,
    at: usize,
    entry: (K, V),
) -> Result<usize, AllocError>
    requires there { at ≤ vec_len chunks.old }
    requires len { len ≡ length (joined chunks.old.items) }
    requires rises { Rises K.cmp (slice_index_or chunks.old.items at []) }
    ensures count { IfOk result (λ n. n ≡ length (joined chunks.new.items)) }
    ensures ok { OnOk result (ReplacesChunk chunks.old.items chunks.new.items at (put K.cmp entry.0 entry.1 (slice_index_or chunks.old.items at []))) }
    ensures err { OnErr result (chunks.new.items ≡ chunks.old.items) }
{
    let more = len.checked_add(1).ok_or(AllocError)?;
    match set_unshared(chunks, at, entry.0, entry.1) {
        Ok(()) => Ok(more),
        Err(entry) => set_in_copy(chunks, len, at, entry),
    }
}

/// Sets an entry in chunk `at`. Where the key is there and the chunk is not shared, only the value changes. Otherwise this is `set_missing`,
/// and the contract is the same.
pub(crate) fn set_entry<K: Ord + Share, V: Share>(
    chunks: &mut Vec<Chunk<(K, V)>>,
    len: usize,
    at: usize,
    entry: (K, V),
) -> Result<usize, AllocError>
    requires there { at ≤ vec_len chunks.old }
    requires len { len ≡ length (joined chunks.old.items) }
    requires rises { Rises K.cmp (slice_index_or chunks.old.items at []) }
    ensures count { IfOk result (λ n. n ≡ length (joined chunks.new.items)) }
    ensures ok { OnOk result (ReplacesChunk chunks.old.items chunks.new.items at (put K.cmp entry.0 entry.1 (slice_index_or chunks.old.items at []))) }
    ensures err { OnErr result (chunks.new.items ≡ chunks.old.items) }
{
    match replace_unshared(chunks, at, entry.0, entry.1) {
        Ok(()) => Ok(len),
        Err(entry) => set_missing(chunks, len, at, entry),
    }
}
