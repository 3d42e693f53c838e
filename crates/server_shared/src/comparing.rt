//! Compares receipts with the journal, and gathers the seats' parts of the ledger.
ghost use Rattle.std.specs.Prelude.{◌≡◌, ◌↔◌, ◌+◌, ◌++◌, ◌≤◌, ◌⊎◌, IsFalse, IsPermutation, IsTrue, List, [], All, length, vec_capacity, vec_len};
ghost use Rattle.std.specs.List.Sorted.{IsNonDecreasingBy};
ghost use Rattle.server_shared.specs.Past.{IsHandedIn};
ghost use Rattle.server_shared.specs.Settled.{IsSettled, Rises, receipt_count};
ghost use Rattle.server_shared.specs.declared.receipt.Receipt.{Receipt as HeldReceipt};

use crate::opening::Opening;
use crate::receipt::{Receipt, all_in_journal};
use crate::seat::Seat;
use history_book::Book;
use history_machine::Entry;
use std::sync::ledger::Share;

/// Whether the receipts' indexes rise.
fn rises(receipts: &[Receipt]) -> bool
    ensures { IsTrue result ↔ Rises receipts.now }
{
    receipts.is_sorted_by(|r, s| r.index < s.index)
}

/// Sorts receipts by their indexes. It takes no memory.
fn sort(receipts: &mut [Receipt])
    ensures same { IsPermutation receipts.old receipts.new }
    ensures len { length receipts.new ≡ length receipts.old }
    ensures sorted { IsNonDecreasingBy (λ (r : HeldReceipt). r.index) receipts.new }
{
    receipts.sort_unstable_by_key(|receipt| receipt.index);
}

/// Whether the entries that the journal has from `from` on are exactly those of the receipts, each once. It sorts the receipts, takes no
/// memory, and compares texts last.
fn is_settled(from: u64, journal: &[Entry], receipts: &mut [Receipt]) -> bool
    requires { from ≤ length journal.now }
    ensures exact { IsTrue result ↔ IsSettled from journal.now receipts.old }
    ensures same { IsPermutation receipts.old receipts.new }
    ensures len { length receipts.new ≡ length receipts.old }
{
    sort(receipts);
    if journal.len() as u64 - from != receipts.len() as u64 {
        return false;
    }
    if !rises(receipts) {
        return false;
    }
    all_in_journal(from, receipts, journal)
}

/// Whether the entries that a book's journal has from `from` on are exactly those of the receipts that were handed in, which it sorts.
pub(crate) fn is_settled_by(from: u64, book: &Book, handed: &mut Vec<Receipt>) -> bool
    requires { from ≤ length book.now.journal }
    ensures exact { IsTrue result ↔ IsSettled from book.now.journal handed.old.items }
    ensures same { IsPermutation handed.old.items handed.new.items }
    ensures len { length handed.new.items ≡ length handed.old.items }
{
    is_settled(from, book.journal(), handed.as_mut_slice())
}

/// Moves a seat's receipts to those that were handed in. For want of memory nothing changes, and it returns false.
pub(crate) fn take_in(handed: &mut Vec<Receipt>, receipts: &mut Vec<Receipt>) -> bool
    ensures taken { IsTrue result → (handed.new.items ≡ handed.old.items ++ receipts.old.items) × (receipts.new.items ≡ []) }
    ensures kept { IsFalse result → (handed.new.items ≡ handed.old.items) × (receipts.new.items ≡ receipts.old.items) }
    ensures capacity { vec_capacity receipts.new ≡ vec_capacity receipts.old }
{
    handed.append(receipts).is_ok()
}

/// Adds the receipts that a seat still holds to those that were handed in. For want of memory they are dropped.
fn add_held(handed: &mut Vec<Receipt>, receipts: Vec<Receipt>)
    ensures { (handed.new.items ≡ handed.old.items ++ receipts.items) ⊎ ((handed.new.items ≡ handed.old.items) × (receipts.items ≡ [] → ⊥)) }
{
    let mut receipts = receipts;
    if handed.append(&mut receipts).is_err() {
        drop(receipts);
    }
}

/// Gathers a seat's part of the ledger, and hands in what the seat still holds, as far as there is memory for it.
fn gather<L: Opening>(all: &mut Share<L>, seat: Seat<L>, handed: &mut Vec<Receipt>)
    requires known { ∥ L.accounts seat ∥₁ }
    requires handed { ∥ IsHandedIn L.accounts handed.old.items ∥₁ }
    ensures handed { ∥ IsHandedIn L.accounts handed.new.items ∥₁ }
    ensures parts { all.new.parts ≡ all.old.parts + 1 }
    ensures amount { all.new.amount ≡ all.old.amount + length seat }
    ensures apart { all.new.parts ≤ L.parts }
    ensures bound { length handed.new.items ≤ length handed.old.items + length seat }
    ensures whole { seat ≡ [] → handed.new.items ≡ handed.old.items }
{
    let (share, receipts) = seat.into_parts();
    all.merge(share);
    add_held(handed, receipts);
}

/// The seats' parts of the ledger and those that were not taken, in one share. What the seats still hold is handed in, as far as there is
/// memory for it.
pub(crate) fn gathered<L: Opening>(
    rest: Share<L>,
    seats: Vec<Seat<L>>,
    handed: &mut Vec<Receipt>,
) -> Share<L>
    requires known { All (λ (seat : List HeldReceipt). ∥ L.accounts seat ∥₁) seats.items }
    requires handed { ∥ IsHandedIn L.accounts handed.old.items ∥₁ }
    ensures handed { ∥ IsHandedIn L.accounts handed.new.items ∥₁ }
    ensures parts { result.parts ≡ rest.parts + vec_len seats }
    ensures amount { result.amount ≡ rest.amount + receipt_count seats.items }
    ensures apart { result.parts ≤ L.parts }
    ensures bound { length handed.new.items ≤ length handed.old.items + receipt_count seats.items }
    ensures whole { All (λ (seat : List HeldReceipt). seat ≡ []) seats.items → handed.new.items ≡ handed.old.items }
{
    let mut all = rest;
    let none = all.empty();
    all.merge(none);
    let mut seats = seats;
    while let Some(seat) = seats.pop() {
        gather(&mut all, seat, handed);
    }
    all
}
