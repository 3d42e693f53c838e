//! Faults at places of files, and lists of them.
ghost use Rattle.std.specs.Prelude.{◌≡◌, ◌↔◌, Contains, Some, refl};
ghost use Rattle.std.specs.Cmp.{eq_by_cmp_equiv, partial_equiv_from_equiv, partial_order_from_total};
ghost use Rattle.std.specs.List.Sorted.{IsStrictlySortedBy};
ghost use Rattle.std.specs.Ordering.{eq_by_cmp, as_partial_cmp};
ghost use Rattle.workspace_check.specs.Faults.{fault_cmp, fault_cmp_total};

use base_files::{FaultKind, Place};
use std::alloc::AllocError;
use std::cmp::Ordering;

/// A fault at a place of a file. Faults are ordered by package path, file path, offset and name of the kind; paths and names by their
/// bytes.
#[derive(Drop)]
pub struct FileFault {
    pub place: Place,
    pub kind: FaultKind,
}

impl FileFault {
    /// Compares two faults by package path, file path, offset and kind.
    fn compare(&self, other: &FileFault) -> Ordering
        ensures { result ≡ fault_cmp self.now other.now }
    {
        let by_package = self.place.path.folder().cmp(other.place.path.folder());
        let by_path = self.place.path.cmp(&other.place.path);
        let by_offset = self.place.offset.cmp(&other.place.offset);
        let by_kind = self
            .kind
            .name()
            .as_bytes()
            .cmp(other.kind.name().as_bytes());
        by_package.then(by_path.then(by_offset.then(by_kind)))
    }
}

impl Clone for FileFault {
    ghost is_clone = { λ fault copy. copy ≡ fault };

    fn clone(&self) -> Result<FileFault, AllocError> {
        let path = self.place.path.clone()?;
        let offset = self.place.offset;
        Ok(FileFault {
            place: Place { path, offset },
            kind: self.kind,
        })
    }
}

impl PartialEq for FileFault {
    ghost eq = { eq_by_cmp fault_cmp };

    ghost laws = { partial_equiv_from_equiv (eq_by_cmp_equiv fault_cmp_total) };

    fn eq(&self, other: &FileFault) -> bool {
        self.compare(other).is_eq()
    }
}

impl Eq for FileFault {
    ghost laws = { eq_by_cmp_equiv fault_cmp_total };
}

impl PartialOrd for FileFault {
    ghost partial_cmp = { as_partial_cmp fault_cmp };

    ghost laws = { partial_order_from_total fault_cmp_total };

    fn partial_cmp(&self, other: &FileFault) -> Option<Ordering> {
        Some(self.compare(other))
    }
}

impl Ord for FileFault {
    ghost cmp = { fault_cmp };

    ghost total = { fault_cmp_total };

    ghost matches_partial_cmp = { λ x y. refl };

    ghost matches_eq = { λ x y. refl };

    fn cmp(&self, other: &FileFault) -> Ordering {
        self.compare(other)
    }
}

/// Sorts faults and drops duplicates.
pub(crate) fn sort(found: &mut Vec<FileFault>)
    ensures same { (f : FileFault) → Contains found.new.items f ↔ Contains found.old.items f }
    ensures order { IsStrictlySortedBy fault_cmp found.new.items }
{
    found.sort_unstable();
    found.dedup();
}
