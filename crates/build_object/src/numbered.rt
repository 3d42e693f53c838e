//! Finds the number of a place in a list in one step.
ghost use Rattle.std.specs.Prelude.{◌≡◌, ◌==◌, ℕ, IfOk, OnOk};
ghost use Rattle.std.specs.BTreeMap.{get};
ghost use Rattle.std.specs.Ordering.{nat_cmp};
ghost use Rattle.build_object.specs.Numbering.{slot_of, first_of};

use std::alloc::{AllocError, Global};
use std::collections::BTreeMap;

/// Places, each numbered by its first position in the list.
#[derive(Drop)]
pub struct NumberedPlaces {
    pub places: Vec<usize>,
    numbers: BTreeMap<usize, usize>,
    ghost numbered: { (place : ℕ) → get nat_cmp numbers place ≡ slot_of places.items place },
}

impl NumberedPlaces {
    /// Numbers these places.
    pub fn of(alloc: Global, places: Vec<usize>) -> Result<NumberedPlaces, AllocError>
        ensures { IfOk result (λ n. n.places.items ≡ places.items) }
    {
        let numbers = number(alloc, &places)?;
        Ok(NumberedPlaces { places, numbers })
    }

    /// The number of a place, if it is in the list.
    pub fn get(&self, place: usize) -> Option<usize>
        ensures { result ≡ slot_of self.now.places.items place }
    {
        self.numbers.get(&place).copied()
    }
}

/// Gives a place a number, unless it has one.
fn note(numbers: &mut BTreeMap<usize, usize>, place: usize, number: usize) -> Result<(), AllocError>
    ensures { OnOk result ((p : ℕ) → get nat_cmp numbers.new p ≡ first_of (get nat_cmp numbers.old p) (place == p) number) }
{
    if !numbers.contains_key(&place) {
        numbers.insert(place, number)?;
    }
    Ok(())
}

/// The numbers of places.
fn number(alloc: Global, places: &[usize]) -> Result<BTreeMap<usize, usize>, AllocError>
    ensures { IfOk result (λ numbers. (place : ℕ) → get nat_cmp numbers place ≡ slot_of places.now place) }
{
    let mut numbers = BTreeMap::new(alloc);
    for i in 0..places.len() {
        note(&mut numbers, places[i], i)?;
    }
    Ok(numbers)
}
