//! Membership in increasing lists of package numbers.
ghost use Rattle.std.specs.Prelude.{ℕ, ◌↔◌, IsTrue};
ghost use Rattle.std.specs.List.{Contains};
ghost use Rattle.std.specs.List.Sorted.{IsStrictlyIncreasing};

/// Whether a number is in an increasing list.
pub fn is_among(numbers: &[usize], number: usize) -> bool
    requires { IsStrictlyIncreasing numbers.now }
    ensures { IsTrue result ↔ Contains numbers.now number }
{
    numbers.binary_search(&number).is_ok()
}

/// Whether the lists have no number in common. `others` is increasing.
pub(crate) fn share_none(numbers: &[usize], others: &[usize]) -> bool
    requires { IsStrictlyIncreasing others.now }
    ensures { IsTrue result → (q : ℕ) → Contains numbers.now q → Contains others.now q → ⊥ }
{
    for number in numbers {
        if is_among(others, *number) {
            return false;
        }
    }
    true
}
