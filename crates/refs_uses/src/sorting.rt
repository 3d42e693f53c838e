//! Sorts places and drops duplicates.
ghost use Rattle.std.specs.Prelude.{◌≡◌, ◌↔◌, true, map, Any, Contains, IfOk};
ghost use Rattle.std.specs.List.Sorted.{IsStrictlySortedBy};
ghost use Rattle.refs_binding.specs.Steps.{place_of};
ghost use Rattle.refs_binding.specs.Places.{place_cmp};

use base_files::Place;
use refs_binding::PlaceKey;
use std::alloc::{AllocError, Global};

/// Sorts values and keeps one of those that are equal.
fn sort_strictly<T: Ord + Drop>(values: &mut Vec<T>)
    ensures keeps { (x : T) → Contains values.old.items x → Any (λ y. T.eq x y ≡ true) values.new.items }
    ensures only { (x : T) → Contains values.new.items x → Contains values.old.items x }
    ensures order { IsStrictlySortedBy T.cmp values.new.items }
{
    values.sort_unstable();
    values.dedup();
}

/// Sorts places and drops duplicates.
fn sort(spots: &mut Vec<PlaceKey>)
    ensures keeps { (s : PlaceKey) → Contains spots.old.items s → Contains spots.new.items s }
    ensures only { (s : PlaceKey) → Contains spots.new.items s → Contains spots.old.items s }
    ensures order { IsStrictlySortedBy place_cmp (map place_of spots.new.items) }
{
    sort_strictly(spots);
}

/// Returns the places of spots.
fn places_of(alloc: Global, spots: Vec<PlaceKey>) -> Result<Vec<Place>, AllocError>
    ensures { IfOk result (λ places. places.items ≡ map place_of spots.items) }
{
    let mut places = Vec::new(alloc);
    for spot in spots {
        places.push(Place {
            path: spot.path,
            offset: spot.offset,
        })?;
    }
    Ok(places)
}

/// Returns the places of spots, sorted and without duplicates.
pub fn places(alloc: Global, spots: Vec<PlaceKey>) -> Result<Vec<Place>, AllocError>
    ensures each { IfOk result (λ places. (s : PlaceKey) → Contains places.items (place_of s) ↔ Contains spots.items s) }
    ensures order { IfOk result (λ places. IsStrictlySortedBy place_cmp places.items) }
{
    let mut spots = spots;
    sort(&mut spots);
    places_of(alloc, spots)
}
