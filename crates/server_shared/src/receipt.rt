//! Receipts: copies of entries of the journal, with their indexes.
ghost use Rattle.std.specs.Prelude.{◌↔◌, IsTrue, All};
ghost use Rattle.server_shared.specs.Settled.{IsInJournal};

use history_machine::Entry;

/// The index of an entry in the journal, and a copy of the entry.
#[derive(Drop)]
pub struct Receipt {
    pub index: u64,
    pub entry: Entry,
}

/// Whether the journal has this entry at the receipt's index, which is `from` at least.
fn is_in_journal(from: u64, receipt: &Receipt, journal: &[Entry]) -> bool
    ensures { IsTrue result ↔ IsInJournal from journal.now receipt.now }
{
    if receipt.index < from {
        return false;
    }
    match journal.get(receipt.index as usize) {
        Some(entry) => entry.same(&receipt.entry),
        None => false,
    }
}

/// Whether the journal has the entry of each of these receipts at its index, from `from` on.
pub(crate) fn all_in_journal(from: u64, receipts: &[Receipt], journal: &[Entry]) -> bool
    ensures { IsTrue result ↔ All (IsInJournal from journal.now) receipts.now }
{
    receipts
        .iter()
        .all(|receipt| is_in_journal(from, receipt, journal))
}
