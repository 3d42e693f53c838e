//! Keeps the first of the conflicts that are found.
ghost use Rattle.std.specs.Prelude.{◌≡◌, ◌↔◌, IsTrue};
ghost use Rattle.refs_binding.specs.Places.{place_cmp};
ghost use Rattle.refactor_conflict.specs.Conflicts.{IsConflictBy, IsPlaceBefore, Takes};

use base_files::Place;
use refactor_conflict::{Capturer, Conflict};
use std::cmp::Ordering;

/// Compares two places: by the bytes of their paths, then by their offsets.
fn compare(a: &Place, b: &Place) -> Ordering
    ensures { result ≡ place_cmp a.now b.now }
{
    let by_path = a.path.cmp(&b.path);
    by_path.then(a.offset.cmp(&b.offset))
}

/// Whether a place comes before the first conflict found so far. True where none is found.
fn is_before(place: &Place, first: &Option<Conflict>) -> bool
    ensures { IsTrue result ↔ IsPlaceBefore first.now place.now }
{
    match first {
        None => true,
        Some(conflict) => compare(place, &conflict.used).is_lt(),
    }
}

/// Makes this conflict the first one, if it comes before the first found so far.
pub(crate) fn keep(first: &mut Option<Conflict>, used: Place, by: Option<Capturer>)
    ensures takes { Takes (IsConflictBy used by) first.old first.new }
    ensures behind { IsPlaceBefore first.new used → ⊥ }
{
    if !is_before(&used, first) {
        return;
    }
    *first = Some(Conflict { used, by });
}
