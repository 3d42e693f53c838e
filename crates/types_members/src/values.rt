//! Comparisons of numbers' values along links.
ghost use Rattle.std.specs.Prelude.{◌≡◌, ◌↔◌, slice_index_or, IsTrue};
ghost use Rattle.types_members.specs.Cycles.{AreAtMost, NeverRises, HasValueAmong};

use types_declared::row;

/// The value of a number; 0 where it has none.
pub(crate) fn value_at(values: &[usize], number: usize) -> usize
    ensures { result ≡ slice_index_or values.now number 0 }
{
    match values.get(number) {
        None => 0,
        Some(value) => *value,
    }
}

/// Whether the values of some numbers are at most `most`.
fn are_at_most(values: &[usize], numbers: &[usize], most: usize) -> bool
    ensures { IsTrue result → AreAtMost values.now numbers.now most }
{
    for number in numbers {
        if value_at(values, *number) > most {
            return false;
        }
    }
    true
}

/// Whether no number links to one with a greater value.
pub(crate) fn falls(links: &[Vec<usize>], values: &[usize]) -> bool
    ensures { IsTrue result → NeverRises links.now values.now }
{
    for number in 0..links.len() {
        if !are_at_most(values, row(links, number), value_at(values, number)) {
            return false;
        }
    }
    true
}

/// Whether one of the numbers has this value.
pub(crate) fn has_value_among(values: &[usize], numbers: &[usize], value: usize) -> bool
    ensures { IsTrue result ↔ HasValueAmong values.now numbers.now value }
{
    for number in numbers {
        if value_at(values, *number) == value {
            return true;
        }
    }
    false
}
