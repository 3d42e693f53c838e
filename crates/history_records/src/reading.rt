//! Finds records.
ghost use Rattle.std.specs.Prelude.{◌≡◌, ◌↔◌, IfErr, IfOk, IsTrue, MatchOption};
ghost use Rattle.history_records.specs.Records.{
  AreRecords,
  AreZeros,
  BeginsWith,
  BeginsWithCount,
  FailsToFind,
  HasNoCount,
  HasNoRecord,
  IsCutShort,
  IsPartOfRecord,
  check_of,
  count_check_of,
};

use crate::writing::{check, count_check};
use std::alloc::{AllocError, AllocFailed, Global};

/// The records with which bytes begin: what each holds. Behind them stand `torn` bytes that a crash left of a record.
#[derive(Drop)]
pub struct WholeRecords<'a> {
    pub held: Vec<&'a [u8]>,
    pub torn: usize,
}

/// Why no records are returned.
#[derive(Clone, Copy, Debug, PartialEq, Eq)]
pub enum RecordsFault {
    /// Memory was wanting.
    Memory,
    /// Behind the first records stand bytes that no cut leaves.
    Damaged,
}

impl From<AllocError> for RecordsFault {
    ghost use Rattle.history_records.specs.declared.reading.RecordsFault.TheVariants.{Memory};

    ghost from_gives = { λ _ fault. fault ≡ Memory };

    fn from(_: AllocError) -> RecordsFault {
        RecordsFault::Memory
    }
}

impl<T: Drop> From<AllocFailed<T>> for RecordsFault {
    ghost use Rattle.history_records.specs.declared.reading.RecordsFault.TheVariants.{Memory};

    ghost from_gives = { λ _ fault. fault ≡ Memory };

    fn from(_: AllocFailed<T>) -> RecordsFault {
        RecordsFault::Memory
    }
}

/// Whether this is the check of what a record holds.
fn is_check(found: &[u8; 8], held: &[u8]) -> bool
    ensures { IsTrue result ↔ (found.now ≡ check_of held.now) }
{
    *found == check(held)
}

/// Whether this is the check of the bytes of a count.
fn is_count_check(found: &[u8; 4], count: &[u8]) -> bool
    ensures { IsTrue result ↔ (found.now ≡ count_check_of count.now) }
{
    *found == count_check(count)
}

/// The count with which the bytes begin, and the bytes behind its check, or `None` where no check confirms a count.
fn first_count(bytes: &[u8]) -> Option<(u32, &[u8])>
    ensures { MatchOption result (HasNoCount bytes.now) (λ found. BeginsWithCount bytes.now found.0 found.1.now) }
{
    let Some((count, checked)) = bytes.split_first_chunk::<4>() else {
        return None;
    };
    let Some((found, behind)) = checked.split_first_chunk::<4>() else {
        return None;
    };
    if is_count_check(found, count) {
        Some((u32::from_le_bytes(*count), behind))
    } else {
        None
    }
}

/// What the first record holds, and the bytes behind it, or `None` where no whole record stands there.
fn first_record(bytes: &[u8]) -> Option<(&[u8], &[u8])>
    ensures { MatchOption result (HasNoRecord bytes.now) (λ found. BeginsWith bytes.now found.0.now found.1.now) }
{
    let Some((count, behind)) = first_count(bytes) else {
        return None;
    };
    let Some((found, body)) = behind.split_first_chunk::<8>() else {
        return None;
    };
    let Some((held, rest)) = body.split_at_checked(count as usize) else {
        return None;
    };
    if is_check(found, held) {
        Some((held, rest))
    } else {
        None
    }
}

/// Whether fewer bytes stand behind a count that its check confirms than the record has there.
fn is_part(bytes: &[u8]) -> bool
    ensures { IsTrue result ↔ IsPartOfRecord bytes.now }
{
    match first_count(bytes) {
        None => false,
        Some((count, behind)) => behind.len() < 8 + count as usize,
    }
}

/// Whether each byte is zero.
fn are_zeros(bytes: &[u8]) -> bool
    ensures { IsTrue result ↔ AreZeros bytes.now }
{
    bytes.iter().all(|byte| *byte == 0)
}

/// Whether a crash leaves such bytes of a record that was not flushed.
fn is_cut_short(bytes: &[u8]) -> bool
    ensures { IsTrue result ↔ IsCutShort bytes.now }
{
    bytes.len() < 8 || is_part(bytes) || are_zeros(bytes)
}

/// All records with which the bytes begin.
pub fn whole_records(alloc: Global, bytes: &[u8]) -> Result<WholeRecords<'_>, RecordsFault>
    ensures ok { IfOk result (AreRecords bytes.now) }
    ensures err { IfErr result (FailsToFind bytes.now) }
{
    let mut held = Vec::new(alloc);
    let mut left = bytes;
    while let Some((one, rest)) = first_record(left) {
        held.push(one)?;
        left = rest;
    }
    if !is_cut_short(left) {
        return Err(RecordsFault::Damaged);
    }
    Ok(WholeRecords {
        held,
        torn: left.len(),
    })
}
