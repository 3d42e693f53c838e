//! Tests the settling of a shared book.
ghost use Rattle.std.specs.Prelude.{◌≡◌, List};
ghost use Rattle.server_shared.specs.declared.receipt.Receipt.{Receipt};
ghost use Rattle.server_shared.specs.LimitNumbers.{full_limits};

use crate::assertion::holds;
use base_files::{Limits, Refusal};
use history_book::{Book, Looking};
use server_shared::{Opening, Seat, Shared, Unsettled};
use server_versions::NewLog;
use std::alloc::Global;
use std::marker::Brand;
use std::process::Abort;
use std::sync::Wait;
use std::sync::ledger::Blank;
use workspace_graph::Graph;

/// Makes a look at each of two seats.
fn look_twice<L: Opening, R: Wait>(
    rt: &R,
    shared: &Shared<L>,
    one: &mut Seat<L>,
    other: &mut Seat<L>,
) -> bool {
    shared.send(rt, one, Looking).is_ok() && shared.send(rt, other, Looking).is_ok()
}

/// Makes a look at each of two seats, and settles without the second, or with both. Returns whether it was settled, and how many entries
/// the journal has.
fn settled<L: Opening, R: Wait>(
    rt: &R,
    alloc: Global,
    blank: Blank,
    log: NewLog<Graph>,
    is_left_out: bool,
) -> Result<(bool, u64), Refusal>
    requires log { log ≡ L.versions }
    requires name { blank.name ≡ L.name }
    requires parts { blank.parts ≡ L.parts }
    requires seats { blank.parts ≡ 2 }
    requires from { L.from ≡ 0 }
    requires begun { L.begun ≡ 0 }
    requires most { L.most ≡ 1000000 }
    requires limits { L.limits ≡ full_limits }
    requires accounts { (receipts : List Receipt) → ∥ L.accounts receipts ∥₁ }
{
    let book = Book::new(alloc, Limits::FULL)?;
    let (shared, mut free) = Shared::<L>::new(alloc, blank, book, None, 2, 1_000, log);
    let mut seats = Vec::new(alloc);
    let mut one = free.take(alloc);
    let mut other = free.take(alloc);
    let looked = look_twice(rt, &shared, &mut one, &mut other);
    let mut are_made = looked && seats.push(one).is_ok();
    are_made = are_made && (is_left_out || seats.push(other).is_ok());
    let (is_settled, book) = match shared.settle(free, seats) {
        Ok(book) => (true, book),
        Err(Unsettled { book }) => (false, book),
    };
    let entries = book.close();
    if are_made {
        Ok((is_settled, entries))
    } else {
        Err(Refusal::Memory)
    }
}

/// Settles a book of its own.
fn settled_alone<R: Wait>(
    rt: &R,
    alloc: Global,
    is_left_out: bool,
) -> Result<(bool, u64), Refusal> {
    settled::<Brand, R>(rt, alloc, Blank::new(2), NewLog::new(), is_left_out)
}

/// Asserts that it was settled or not, and the length of the journal.
fn is_told(rt: &impl Abort, told: Result<(bool, u64), Refusal>, is_settled: bool, entries: u64) {
    match told {
        Ok(told) => {
            holds(rt, told.0 == is_settled);
            holds(rt, told.1 == entries);
        }
        Err(_) => holds(rt, false),
    }
}

#[test]
fn one_seat_left_out(rt: HostRuntime) {
    let told = settled_alone(&rt, rt.alloc(), true);
    is_told(&rt, told, false, 2);
}

#[test]
fn both_seats(rt: HostRuntime) {
    let told = settled_alone(&rt, rt.alloc(), false);
    is_told(&rt, told, true, 2);
}
