//! Which refusals name a fault.
ghost use Rattle.std.specs.Prelude.{◌≡◌};
ghost use Rattle.refactor_affected.specs.Steps.{is_of_fault};

use base_files::Refusal;

/// Whether a refusal names a fault.
pub(crate) fn names_fault(refusal: &Refusal) -> bool
    ensures { result ≡ is_of_fault refusal.now }
{
    matches!(refusal, Refusal::Faulty { .. })
}
