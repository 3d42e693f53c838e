//! Makes records.
ghost use Rattle.std.specs.Prelude.{◌≡◌, ◌≤◌, ◌^◌, ◌⊎◌, IfErr, IfOk, length};
ghost use Rattle.history_records.specs.Records.{FitsRecord, check_of, count_check_of, record_bytes};

use sha2::{Digest, Sha256};
use std::alloc::{AllocError, Global};

/// How many bytes the check of what a record holds has.
const CHECK: usize = 8;

/// How many bytes the check of its count has.
const COUNT_CHECK: usize = 4;

/// Why no record was made.
#[derive(Clone, Copy, Debug, PartialEq, Eq)]
pub enum RecordFault {
    /// Memory was wanting.
    Memory,
    /// What the record is to hold has 2^32 bytes or more.
    TooLong,
}

impl From<AllocError> for RecordFault {
    ghost use Rattle.history_records.specs.declared.writing.RecordFault.TheVariants.{Memory};

    ghost from_gives = { λ _ fault. fault ≡ Memory };

    fn from(_: AllocError) -> RecordFault {
        RecordFault::Memory
    }
}

/// The check of what a record holds: the first eight bytes of its SHA-256 digest.
pub(crate) fn check(held: &[u8]) -> [u8; 8]
    ensures { result ≡ check_of held.now }
{
    let digest = Sha256::digest(held);
    let mut check = [0; 8];
    check.copy_from_slice(&digest[..CHECK]);
    check
}

/// The check of the bytes of a count: the first four bytes of their SHA-256 digest.
pub(crate) fn count_check(count: &[u8]) -> [u8; 4]
    ensures { result ≡ count_check_of count.now }
{
    let digest = Sha256::digest(count);
    let mut check = [0; 4];
    check.copy_from_slice(&digest[..COUNT_CHECK]);
    check
}

/// The length of what a record holds, if it is below 2^32.
fn length_of(held: &[u8]) -> Result<u32, RecordFault>
    ensures ok { IfOk result (λ bytes. FitsRecord held.now × (bytes ≡ length held.now)) }
    ensures err { IfErr result (λ fault. (fault ≡ RecordFault.TooLong) × (2 ^ 32 ≤ length held.now)) }
{
    match u32::try_from(held.len()) {
        Ok(bytes) => Ok(bytes),
        Err(_) => Err(RecordFault::TooLong),
    }
}

/// The bytes of a record.
pub fn record(alloc: Global, held: &[u8]) -> Result<Vec<u8>, RecordFault>
    ensures ok { IfOk result (λ bytes. FitsRecord held.now × (bytes.items ≡ record_bytes held.now)) }
    ensures err { IfErr result (λ fault. (fault ≡ RecordFault.Memory) ⊎ ((fault ≡ RecordFault.TooLong) × (2 ^ 32 ≤ length held.now))) }
{
    let count = length_of(held)?.to_le_bytes();
    let mut made = Vec::new(alloc);
    made.extend_from_slice(&count)?;
    made.extend_from_slice(&count_check(&count))?;
    made.extend_from_slice(&check(held))?;
    made.extend_from_slice(held)?;
    Ok(made)
}
