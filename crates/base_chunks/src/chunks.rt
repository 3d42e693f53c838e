//! Operations on lists of chunks: finding the chunk of a key, and changing one chunk.
ghost use Rattle.std.specs.Prelude.{◌≡◌, ◌+◌, ◌<◌, ◌≤◌, ◌++◌, ◌∷◌, [], IfOk, OnOk, OnErr, length, take, drop, slice_index_or, vec_len};
ghost use Rattle.base_chunks.specs.Entries.{IsAfterAll, IsBeforeAll, is_before};
ghost use Rattle.base_chunks.specs.Chunks.{joined, IsMapChunks, ReplacesChunk};

use crate::chunk::Chunk;
use crate::copies::copies_and;
use crate::entries::MOST;
use crate::share::Share;
use std::alloc::{AllocError, Global};

/// Whether a key is less than the key of the first entry. False where there are no entries.
fn is_before<K: Ord, V>(key: &K, entries: &[(K, V)]) -> bool
    ensures { result ≡ is_before K.cmp key.now entries.now }
{
    match entries.first() {
        Some(first) => key.cmp(&first.0).is_lt(),
        None => false,
    }
}

/// The number of the chunk that has a key, or would have it. Found by binary search over the first keys of the chunks.
pub(crate) fn chunk_of<K: Ord, V>(chunks: &[Chunk<(K, V)>], key: &K) -> usize
    requires { IsMapChunks K.cmp chunks.now }
    ensures within { result ≤ length chunks.now }
    ensures front { IsAfterAll K.cmp key.now (joined (take result chunks.now)) }
    ensures back { IsBeforeAll K.cmp key.now (joined (drop (result + 1) chunks.now)) }
{
    if chunks.is_empty() {
        return 0;
    }
    let mut low = 0;
    let mut high = chunks.len();
    'halving: while high - low > 1 {
        let middle = low + (high - low) / 2;
        if is_before(key, chunks[middle].items()) {
            high = middle;
        } else {
            low = middle;
        }
    }
    low
}

/// The items of chunk `at`, or none where there is no such chunk.
pub(crate) fn items_at<T>(chunks: &[Chunk<T>], at: usize) -> &[T]
    ensures { result.now ≡ slice_index_or chunks.now at [] }
{
    if at < chunks.len() {
        chunks[at].items()
    } else {
        &[]
    }
}

/// Replaces chunk `at`. Where `at` is the number of chunks, the new chunk is pushed.
fn put_one<T: Drop>(
    chunks: &mut Vec<Chunk<T>>,
    at: usize,
    chunk: Chunk<T>,
) -> Result<(), AllocError>
    requires { at ≤ vec_len chunks.old }
    ensures ok { OnOk result (chunks.new.items ≡ take at chunks.old.items ++ chunk ∷ drop (at + 1) chunks.old.items) }
    ensures err { OnErr result (chunks.new.items ≡ chunks.old.items) }
{
    if at < chunks.len() {
        chunks[at] = chunk;
        Ok(())
    } else {
        chunks.push(chunk)?;
        Ok(())
    }
}

/// Replaces chunk `at` by two chunks.
fn put_two<T: Drop>(
    chunks: &mut Vec<Chunk<T>>,
    at: usize,
    first: Chunk<T>,
    second: Chunk<T>,
) -> Result<(), AllocError>
    requires { at < vec_len chunks.old }
    ensures ok { OnOk result (chunks.new.items ≡ take at chunks.old.items ++ first ∷ second ∷ drop (at + 1) chunks.old.items) }
    ensures err { OnErr result (chunks.new.items ≡ chunks.old.items) }
{
    chunks.insert(at + 1, second)?;
    chunks[at] = first;
    Ok(())
}

/// Removes chunk `at`, if there is one.
fn take_out<T: Drop>(chunks: &mut Vec<Chunk<T>>, at: usize)
    ensures { chunks.new.items ≡ take at chunks.old.items ++ drop (at + 1) chunks.old.items }
{
    if at < chunks.len() {
        let chunk = chunks.remove(at);
        drop(chunk);
    }
}

/// Splits the items from number `at` on off, as a chunk.
fn cut<T: Drop>(items: &mut Vec<T>, at: usize) -> Result<Chunk<T>, AllocError>
    requires { at ≤ vec_len items.old }
    ensures front { OnOk result (items.new.items ≡ take at items.old.items) }
    ensures back { IfOk result (λ chunk. chunk ≡ drop at items.old.items) }
{
    let alloc = *items.allocator();
    let back = items.split_off(at)?;
    Chunk::new(alloc, back)
}

/// Replaces chunk `at` by two chunks that have the given items. Each gets one half. Where the chunk is the last, the first part gets all
/// items but one, so that items that are added in order fill their chunks.
fn put_parts<T: Drop>(
    chunks: &mut Vec<Chunk<T>>,
    at: usize,
    mut items: Vec<T>,
) -> Result<(), AllocError>
    requires there { at < vec_len chunks.old }
    requires two { 1 < vec_len items }
    ensures ok { OnOk result (ReplacesChunk chunks.old.items chunks.new.items at items.items) }
    ensures err { OnErr result (chunks.new.items ≡ chunks.old.items) }
{
    let middle = if at + 1 < chunks.len() {
        items.len() / 2
    } else {
        items.len() - 1
    };
    let back = cut(&mut items, middle)?;
    let front = Chunk::new(*chunks.allocator(), items)?;
    put_two(chunks, at, front, back)
}

/// Replaces the items of chunk `at`. Where `at` is the number of chunks, the items come behind all others. No items remove the chunk, and
/// more than `MOST` split it.
fn replace<T: Drop>(chunks: &mut Vec<Chunk<T>>, at: usize, items: Vec<T>) -> Result<(), AllocError>
    requires { at ≤ vec_len chunks.old }
    ensures ok { OnOk result (ReplacesChunk chunks.old.items chunks.new.items at items.items) }
    ensures err { OnErr result (chunks.new.items ≡ chunks.old.items) }
{
    if items.is_empty() {
        take_out(chunks, at);
        return Ok(());
    }
    if items.len() > MOST && at < chunks.len() {
        return put_parts(chunks, at, items);
    }
    let chunk = Chunk::new(*chunks.allocator(), items)?;
    put_one(chunks, at, chunk)
}

/// Replaces the items of chunk `at`, as `replace` does. `len` is the number of all items before the change. Returns their number after the
/// change.
pub(crate) fn put_items<T: Drop>(
    chunks: &mut Vec<Chunk<T>>,
    len: usize,
    at: usize,
    items: Vec<T>,
) -> Result<usize, AllocError>
    requires there { at ≤ vec_len chunks.old }
    requires len { len ≡ length (joined chunks.old.items) }
    ensures count { IfOk result (λ n. n ≡ length (joined chunks.new.items)) }
    ensures ok { OnOk result (ReplacesChunk chunks.old.items chunks.new.items at items.items) }
    ensures err { OnErr result (chunks.new.items ≡ chunks.old.items) }
{
    let others = len - items_at(chunks, at).len();
    let new_len = others.checked_add(items.len()).ok_or(AllocError)?;
    replace(chunks, at, items)?;
    Ok(new_len)
}

/// A chunk with copies of the items of `front`, and `item` behind them.
pub(crate) fn chunk_and<T: Share>(
    alloc: Global,
    front: &[T],
    item: T,
) -> Result<Chunk<T>, AllocError>
    ensures { IfOk result (λ chunk. chunk ≡ front.now ++ item ∷ []) }
{
    let items = copies_and(alloc, front, item)?;
    Chunk::new(alloc, items)
}
