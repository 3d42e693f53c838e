//! Compares lists by their items and maps by their names and values.
ghost use Rattle.std.specs.Prelude.{◌≡◌, ◌↔◌, IsTrue};
ghost use Rattle.std.specs.List.{AllZip};
ghost use Rattle.types_check.specs.EqualEntries.{AreNamedAlike};

use std::collections::BTreeMap;

/// A value that can be compared with another one for equality.
pub(crate) trait Alike {
    /// The two values are equal, as the definitions see them.
    ghost alike: { Self → Self → Type 0 };

    /// Whether two values are equal, as the definitions see them.
    fn is_like(&self, other: &Self) -> bool
        ensures { IsTrue result ↔ alike self.now other.now };
}

/// Whether two lists have equal items at equal indexes.
pub(crate) fn are_lists_alike<T: Alike>(one: &[T], other: &[T]) -> bool
    ensures { IsTrue result ↔ AllZip T.alike one.now other.now }
{
    if one.len() != other.len() {
        return false;
    }
    for i in 0..one.len() {
        if !one[i].is_like(&other[i]) {
            return false;
        }
    }
    true
}

/// Whether two names are equal.
pub(crate) fn is_same_name(one: &[u8], other: &[u8]) -> bool
    ensures { IsTrue result ↔ (one.now ≡ other.now) }
{
    one == other
}

/// Whether two maps have the same names with equal values.
pub(crate) fn are_maps_alike<T: Alike>(
    one: &BTreeMap<Vec<u8>, T>,
    other: &BTreeMap<Vec<u8>, T>,
) -> bool
    ensures { IsTrue result ↔ AllZip (AreNamedAlike T.alike) one.now.entries other.now.entries }
{
    let mut others = other.iter();
    for (name, value) in one {
        let Some((other_name, other_value)) = others.next() else {
            return false;
        };
        if !is_same_name(name, other_name) || !value.is_like(other_value) {
            return false;
        }
    }
    others.next().is_none()
}
