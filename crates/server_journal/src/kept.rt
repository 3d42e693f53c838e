//! Keeps records of changes in a store.
ghost use Rattle.std.specs.Prelude.{◌≡◌, ◌+◌, ◌≤◌, IfErr, IfOk, IsFalse, IsTrue, OnOk, false, length, true};
ghost use Rattle.std.proofs.Props.{props};
ghost use Rattle.history_records.specs.Records.{FitsRecord, record_bytes};
ghost use Rattle.server_journal.specs.Stores.{FailsToKeep, Grows, KeepsUnlessLost, Returns};

use crate::store::Store;
use history_records::{RecordFault, record};
use std::alloc::{AllocError, Global};
use std::io;

/// Why a change is not kept.
#[derive(Clone, Copy, Debug, PartialEq, Eq)]
pub enum KeptFault {
    /// Memory was wanting.
    Memory,
    /// The store did not take the record, and is as it was before.
    Refused,
    /// The store was given up: it did not take a record, or one could not be taken away again.
    Lost,
}

impl From<AllocError> for KeptFault {
    ghost use Rattle.server_journal.specs.declared.kept.KeptFault.TheVariants.{Memory};

    ghost from_gives = { λ _ fault. fault ≡ Memory };

    fn from(_: AllocError) -> KeptFault {
        KeptFault::Memory
    }
}

/// A store of records, with how many bytes it holds. Contracts know that number unless the store was given up.
#[derive(Drop)]
pub struct Kept<S: Store + Drop> {
    pub store: S,
    pub length: u64,
    pub is_lost: bool,
    ghost counted: { KeepsUnlessLost is_lost (S.holds store) length } by { Prim.hlevel props },
}

/// The bytes of a record, or why there are none.
fn made(alloc: Global, held: &[u8]) -> Result<Vec<u8>, KeptFault>
    ensures ok { IfOk result (λ bytes. (bytes.items ≡ record_bytes held.now) × FitsRecord held.now) }
    ensures err { IfErr result (λ fault. fault ≡ KeptFault.Lost → ⊥) }
{
    match record(alloc, held) {
        Ok(bytes) => Ok(bytes),
        Err(RecordFault::Memory) => Err(KeptFault::Memory),
        Err(RecordFault::TooLong) => Err(KeptFault::Refused),
    }
}

impl<S: Store + Drop> Kept<S> {
    /// Keeps records behind what the store holds.
    pub fn new(store: S) -> io::Result<Kept<S>>
        ensures { IfOk result (λ kept. (kept.store ≡ store) × (kept.is_lost ≡ false)) }
    {
        let length = store.held_bytes()?;
        Ok(Kept {
            store,
            length,
            is_lost: false,
        })
    }

    /// Takes away what stands behind the first `length` bytes. Where that fails the store is given up, and it returns false.
    pub fn take_back(&mut self, length: u64) -> bool
        requires { length ≤ self.old.length }
        ensures back { IsTrue result → Returns (S.holds self.old.store) length (S.holds self.new.store) }
        ensures unlost { IsTrue result → self.new.is_lost ≡ self.old.is_lost }
        ensures lost { IsFalse result → self.new.is_lost ≡ true }
    {
        match self.store.cut(length) {
            Ok(()) => {
                self.length = length;
                true
            }
            Err(_) => {
                self.is_lost = true;
                false
            }
        }
    }

    /// Adds these bytes, behind which the store holds `whole` of them. Where the store does not take them, what it took is taken away.
    fn add(&mut self, bytes: &[u8], whole: u64) -> Result<(), KeptFault>
        requires unlost { self.old.is_lost ≡ false }
        requires whole { whole ≡ self.old.length + length bytes.now }
        ensures ok { OnOk result (Grows (S.holds self.old.store) bytes.now (S.holds self.new.store)) }
        ensures unlost { OnOk result (self.new.is_lost ≡ false) }
        ensures longer { OnOk result (self.new.length ≡ whole) }
        ensures err { IfErr result (λ fault. FailsToKeep fault (S.holds self.old.store) (S.holds self.new.store) self.old.is_lost self.new.is_lost) }
    {
        let before = self.length;
        if self.store.append(bytes).is_ok() {
            self.length = whole;
            return Ok(());
        }
        if self.store.cut(before).is_ok() {
            Err(KeptFault::Refused)
        } else {
            self.is_lost = true;
            Err(KeptFault::Lost)
        }
    }

    /// Adds a record that holds these bytes, and has it flushed. Else the store is as before, or was given up.
    pub fn intend(&mut self, alloc: Global, held: &[u8]) -> Result<(), KeptFault>
        ensures ok { OnOk result (Grows (S.holds self.old.store) (record_bytes held.now) (S.holds self.new.store)) }
        ensures unlost { OnOk result ((self.old.is_lost ≡ false) × (self.new.is_lost ≡ false)) }
        ensures longer { OnOk result (self.old.length ≤ self.new.length) }
        ensures fits { OnOk result (FitsRecord held.now) }
        ensures err { IfErr result (λ fault. FailsToKeep fault (S.holds self.old.store) (S.holds self.new.store) self.old.is_lost self.new.is_lost) }
    {
        if self.is_lost {
            return Err(KeptFault::Lost);
        }
        let bytes = made(alloc, held)?;
        let Some(whole) = self.length.checked_add(bytes.len() as u64) else {
            return Err(KeptFault::Refused);
        };
        self.add(bytes.as_slice(), whole)
    }
}
