//! Bound identifiers in the order of their places.
ghost use Rattle.std.specs.Prelude.{◌≡◌, ◌↔◌, Contains, MatchOption};
ghost use Rattle.std.specs.List.Sorted.{IsSortedBy};
ghost use Rattle.std.specs.Ordering.{is_lt};
ghost use Rattle.refs_binding.specs.declared.bound_identifier.BoundIdentifier.{BoundIdentifier as Bound};
ghost use Rattle.refs_binding.specs.Bindings.{bound_place};
ghost use Rattle.refs_binding.specs.Places.{place_cmp};

use crate::bound_identifier::BoundIdentifier;
use base_files::Place;
use std::cmp::Ordering;

/// Sorts bound identifiers by place.
pub fn sort(bound: &mut Vec<BoundIdentifier>)
    ensures order { IsSortedBy (λ a b. is_lt (place_cmp (bound_place a) (bound_place b))) bound.new.items }
    ensures same { (b : Bound) → Contains bound.new.items b ↔ Contains bound.old.items b }
{
    bound.sort_unstable_by(|a, b| a.spot.cmp(&b.spot));
}

/// Compares the place of a bound identifier with another place.
pub fn compare(bound: &BoundIdentifier, place: &Place) -> Ordering
    ensures { result ≡ place_cmp (bound_place bound.now) place.now }
{
    let by_path = bound.spot.path.cmp(&place.path);
    by_path.then(bound.spot.offset.cmp(&place.offset))
}

/// Returns some bound identifier that begins at a place, by a binary search in a list sorted by place.
pub fn find<'a>(bound: &'a [BoundIdentifier], place: &Place) -> Option<&'a BoundIdentifier>
    requires { IsSortedBy (λ a b. is_lt (place_cmp (bound_place a) (bound_place b))) bound.now }
    ensures { MatchOption result ((b : Bound) → Contains bound.now b → bound_place b ≡ place.now → ⊥) (λ b. Contains bound.now b.now × (bound_place b.now ≡ place.now)) }
{
    match bound.binary_search_by(|b| compare(b, place)) {
        Ok(number) => Some(&bound[number]),
        Err(_) => None,
    }
}
