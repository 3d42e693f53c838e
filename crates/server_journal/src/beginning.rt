//! Begins to keep records in a store.
ghost use Rattle.std.specs.Prelude.{◌≡◌, IfOk, OnOk, false};
ghost use Rattle.history_records.specs.Records.{FitsRecord, record_bytes};
ghost use Rattle.server_journal.specs.Beginning.{BeginsToKeep};
ghost use Rattle.server_journal.specs.Stores.{Grows, Returns};

use crate::kept::{Kept, KeptFault};
use crate::opened::{HEADING, JournalFault};
use crate::store::Store;
use std::alloc::Global;

/// Takes away what stands behind the first `whole` bytes of a store. Records are kept behind these.
fn cut_to<S: Store + Drop>(store: S, whole: u64) -> Result<Kept<S>, JournalFault>
    ensures { IfOk result (λ kept. Returns (S.holds store) whole (S.holds kept.store) × (kept.is_lost ≡ false)) }
{
    let Ok(mut kept) = Kept::new(store) else {
        return Err(JournalFault::Disk);
    };
    if kept.length < whole {
        return Err(JournalFault::Disk);
    }
    if kept.take_back(whole) {
        Ok(kept)
    } else {
        Err(JournalFault::Disk)
    }
}

/// Adds the heading.
fn add_heading<S: Store + Drop>(alloc: Global, kept: &mut Kept<S>) -> Result<(), JournalFault>
    ensures grows { OnOk result (Grows (S.holds kept.old.store) (record_bytes HEADING.now) (S.holds kept.new.store)) }
    ensures unlost { OnOk result (kept.new.is_lost ≡ false) }
    ensures fits { OnOk result (FitsRecord HEADING.now) }
{
    match kept.intend(alloc, HEADING) {
        Ok(()) => Ok(()),
        Err(KeptFault::Memory) => Err(JournalFault::Memory),
        Err(_) => Err(JournalFault::Disk),
    }
}

/// Keeps records behind the first `whole` bytes of a store. Where there are none it begins with the heading.
pub fn keep_behind<S: Store + Drop>(
    alloc: Global,
    store: S,
    whole: u64,
) -> Result<Kept<S>, JournalFault>
    ensures { IfOk result (λ kept. BeginsToKeep HEADING.now whole (S.holds store) (S.holds kept.store) kept.is_lost) }
{
    let mut kept = cut_to(store, whole)?;
    if whole > 0 {
        return Ok(kept);
    }
    add_heading(alloc, &mut kept)?;
    Ok(kept)
}
