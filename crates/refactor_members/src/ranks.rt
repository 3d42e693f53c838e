//! Ranks of members.
ghost use Rattle.std.specs.Prelude.{◌≡◌, ◌↔◌, IsTrue, Some};

/// Whether the rank that was found is this one.
pub(crate) fn is_rank(found: Option<usize>, rank: usize) -> bool
    ensures { IsTrue result ↔ (found ≡ Some rank) }
{
    match found {
        None => false,
        Some(other) => other == rank,
    }
}
