//! The places of a rename that lie in one file.
ghost use Rattle.std.specs.Prelude.{◌≡◌, ◌<◌, ◌≤◌, ◌↔◌, true, false, length, IsTrue};
ghost use Rattle.std.specs.List.{AllWithin, HoldsAt};
ghost use Rattle.std.specs.List.Sorted.{IsStrictlySortedBy, IsPartitionedBy, IsPartitionPoint};
ghost use Rattle.refs_binding.specs.Places.{place_cmp};
ghost use Rattle.refactor_rename.specs.Here.{before, ArePlacesIn, OffsetsRise};

use base_files::{Path, Place};

/// Whether a place lies in a file before a path.
fn is_before(place: &Place, path: &Path) -> bool
    ensures { result ≡ before path.now place.now }
{
    place.path.cmp(path).is_lt()
}

/// Whether a place lies in the file at a path.
fn is_in(place: &Place, path: &Path) -> bool
    ensures { IsTrue result ↔ (place.now.path ≡ path.now) }
{
    place.path == *path
}

/// Whether all places below an index lie in files before a path.
fn are_before(places: &[Place], number: usize, path: &Path) -> bool
    requires parted { IsPartitionedBy (before path.now) places.now }
    requires within { number ≤ length places.now }
    ensures { IsTrue result → AllWithin (λ p. before path.now p ≡ true) places.now 0 number }
{
    number == 0 || is_before(&places[number - 1], path)
}

/// Whether no place from an index on lies in a file before a path.
fn are_behind(places: &[Place], number: usize, path: &Path) -> bool
    requires { IsPartitionedBy (before path.now) places.now }
    ensures { IsTrue result → AllWithin (λ p. before path.now p ≡ false) places.now number (length places.now) }
{
    number >= places.len() || !is_before(&places[number], path)
}

/// Returns the count of the places in files before a path. Takes no search if that is `near`.
fn first_near(places: &[Place], near: usize, path: &Path) -> usize
    requires { IsPartitionedBy (before path.now) places.now }
    ensures within { result ≤ length places.now }
    ensures point { IsPartitionPoint (λ p. before path.now p ≡ true) (λ p. before path.now p ≡ false) places.now result }
{
    if near <= places.len() && are_before(places, near, path) && are_behind(places, near, path) {
        return near;
    }
    places.partition_point(|place| is_before(place, path))
}

/// Returns the index from `first` on at which the places in the file at a path end.
fn end_from(places: &[Place], first: usize, path: &Path) -> usize
    requires { first ≤ length places.now }
    ensures rises { first ≤ result }
    ensures within { result ≤ length places.now }
    ensures same { AllWithin (λ p. p.path ≡ path.now) places.now first result }
    ensures stops { result < length places.now → HoldsAt (λ p. p.path ≡ path.now → ⊥) places.now result }
{
    let mut end = first;
    while end < places.len() && is_in(&places[end], path) {
        end += 1;
    }
    end
}

/// Returns the places that lie in the file at a path. The search starts at the index `near`, where the last answer ended, so queries in the
/// order of paths take no search.
pub(crate) fn places_in<'a>(places: &'a [Place], near: &mut usize, path: &Path) -> &'a [Place]
    requires { IsStrictlySortedBy place_cmp places.now }
    ensures places { ArePlacesIn places.now path.now result.now }
    ensures order { OffsetsRise result.now }
{
    let first = first_near(places, *near, path);
    let end = end_from(places, first, path);
    *near = end;
    &places[first..end]
}
