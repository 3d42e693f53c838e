//! Rows of inverses, the nearest last. An inverse cannot be dropped, so each that leaves a row is retired.
ghost use Rattle.std.specs.Prelude.{◌≡◌, ◌+◌, ◌≤◌, [], vec_capacity, vec_len};
ghost use Rattle.history_inverses.specs.Inverses.{latest};

use base_edits::Inverse;

/// Retires all inverses.
pub(crate) fn retire_all(inverses: &mut Vec<Inverse>)
    ensures items { inverses.new.items ≡ [] }
    ensures capacity { vec_capacity inverses.new ≡ vec_capacity inverses.old }
{
    while let Some(inverse) = inverses.pop() {
        inverse.retire();
    }
}

/// Retires the farthest inverse where there is one more than `depth`.
pub(crate) fn retire_farthest(inverses: &mut Vec<Inverse>, depth: usize)
    requires { vec_len inverses.old ≤ depth + 1 }
    ensures items { inverses.new.items ≡ latest depth inverses.old.items }
    ensures capacity { vec_capacity inverses.new ≡ vec_capacity inverses.old }
{
    if inverses.len() > depth {
        inverses.remove(0).retire();
    }
}
