//! Operations on entries in the order of their paths.
ghost use Rattle.std.specs.Prelude.{◌≡◌, ◌<◌, ◌≤◌, false, true, IsTrue, OnOk, OnErr, MatchOption, None, length, take, drop};
ghost use Rattle.std.specs.FinMap.{find, put};
ghost use Rattle.base_files.specs.Workspace.{path_cmp};
ghost use Rattle.base_chunks.specs.Entries.{Rises, IsAfterAll, is_after, is_at};
ghost use Rattle.base_files.specs.Entries.{IsPathPlace, IsEntryNumber};

use crate::shared_path::SharedPath;
use std::alloc::AllocError;

/// Whether a path is greater than the paths of all entries.
fn is_last<V>(entries: &[(SharedPath, V)], path: &[u8]) -> bool
    requires { Rises path_cmp entries.now }
    ensures { IsTrue result → IsAfterAll path_cmp path.now entries.now }
{
    match entries.last() {
        None => true,
        Some(last) => path.cmp(last.0.path()).is_gt(),
    }
}

/// The number of entries whose paths are less than `path`, found by binary search.
fn place<V>(entries: &[(SharedPath, V)], path: &[u8]) -> usize
    requires { Rises path_cmp entries.now }
    ensures { IsPathPlace path.now entries.now result }
{
    let mut low = 0;
    let mut high = entries.len();
    'halving: while low < high {
        let middle = low + (high - low) / 2;
        if path.cmp(entries[middle].0.path()).is_gt() {
            low = middle + 1;
        } else {
            high = middle;
        }
    }
    low
}

/// The number of entries whose paths are less than `path`. The last entry is compared first, for callers that put paths in order.
fn place_from_end<V>(entries: &[(SharedPath, V)], path: &[u8]) -> usize
    requires { Rises path_cmp entries.now }
    ensures { IsPathPlace path.now entries.now result }
{
    if is_last(entries, path) {
        entries.len()
    } else {
        place(entries, path)
    }
}

/// Whether there is an entry of number `at`, and it has the path.
fn is_at<V>(entries: &[(SharedPath, V)], at: usize, path: &[u8]) -> bool
    ensures there { result ≡ is_at path_cmp path.now (drop at entries.now) }
    ensures within { IsTrue result → at < length entries.now }
{
    at < entries.len() && path == entries[at].0.path()
}

/// The number of the entry at a path, or `None` where the path is missing. The entry of number `first` is compared first.
pub(crate) fn number_from<V>(
    entries: &[(SharedPath, V)],
    path: &[u8],
    first: usize,
) -> Option<usize>
    requires { Rises path_cmp entries.now }
    ensures { MatchOption result (find path_cmp path.now entries.now ≡ None) (IsEntryNumber path.now entries.now) }
{
    if is_at(entries, first, path) {
        return Some(first);
    }
    let at = place(entries, path);
    if is_at(entries, at, path) {
        Some(at)
    } else {
        None
    }
}

/// Sets the value at a path. Where the path is there, only its value changes.
pub(crate) fn put<V: Drop>(
    entries: &mut Vec<(SharedPath, V)>,
    path: SharedPath,
    value: V,
) -> Result<(), AllocError>
    requires { Rises path_cmp entries.old.items }
    ensures ok { OnOk result (entries.new.items ≡ put path_cmp path value entries.old.items) }
    ensures err { OnErr result (entries.new.items ≡ entries.old.items) }
{
    let at = place_from_end(entries, path.path());
    if is_at(entries, at, path.path()) {
        entries[at].1 = value;
    } else {
        entries.insert(at, (path, value))?;
    }
    Ok(())
}
