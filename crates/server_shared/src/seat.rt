//! A seat at a shared book. Between two messages, or two turns of a worker, it hands its receipts in and holds none.
ghost use Rattle.std.specs.Prelude.{◌≡◌, ◌+◌, ◌^◌, ◌<◌, ◌≤◌, [], length, vec_len, vec_capacity, IfOk, IsOk, OkIff};
ghost use Rattle.server_shared.specs.Held.{jobs_left};
ghost use Rattle.server_shared.specs.Reserved.{IsGiveBack, receipts_needed};

use crate::opening::Opening;
use crate::receipt::Receipt;
use history_machine::{EntryKind, Line, Reason, Told};
use std::alloc::{AllocError, Global};
use std::marker::Model;
use std::sync::ledger::Share;

/// One thread's right to call a shared book, and the receipts of its calls that it holds. Contracts see a seat as these receipts.
#[derive(Drop)]
pub struct Seat<L: Opening> {
    pub share: Share<L>,
    pub receipts: Vec<Receipt>,
    /// How many Jobs were taken at this seat and not handed in. The seat has room for a receipt of each.
    pub jobs: u64,
    /// Whether the seat is one of those that could not hand in their receipts when they came to rest.
    pub is_held_back: bool,
}

impl<L: Opening> Model for Seat<L> {
    ghost use Rattle.std.specs.Prelude.{◌≡◌, ◌+◌, ◌≤◌, List, length, vec_len, vec_capacity};
    ghost use Rattle.server_shared.specs.declared.receipt.Receipt.{Receipt};
    ghost use Rattle.server_shared.specs.Held.{jobs_in_hand};

    ghost Value = { List Receipt };

    ghost view = { λ s. s.receipts.items };

    ghost invariant = { λ s. (s.share.parts ≡ 1) × (s.share.amount ≡ length s.receipts.items) × (vec_len s.receipts + s.jobs ≤ vec_capacity s.receipts) × (s.jobs ≡ jobs_in_hand s.receipts.items) };
}

impl<L: Opening> Seat<L> {
    /// A seat with this share and no receipts.
    pub fn new(alloc: Global, share: Share<L>) -> Seat<L>
        requires { (share.parts ≡ 1) × (share.amount ≡ 0) }
        ensures { result ≡ [] }
    {
        Seat {
            share,
            receipts: Vec::new(alloc),
            jobs: 0,
            is_held_back: false,
        }
    }

    /// The receipts, in the order of the calls.
    pub fn receipts(&self) -> &[Receipt]
        ensures { result.now ≡ self.now }
    {
        self.receipts.as_slice()
    }

    /// The seat's part of the ledger, which counted its receipts, and these.
    pub fn into_parts(self) -> (Share<L>, Vec<Receipt>)
        ensures parts { result.0.parts ≡ 1 }
        ensures amount { result.0.amount ≡ length self }
        ensures receipts { result.1.items ≡ self }
    {
        let Seat {
            share,
            receipts,
            jobs: _,
            is_held_back: _,
        } = self;
        (share, receipts)
    }
}

/// The sum of two counts, or an error exactly where it is over 64 bits.
fn sum(one: u64, other: u64) -> Result<u64, AllocError>
    ensures { OkIff result (one + other < 2 ^ 64) (one + other) }
{
    one.checked_add(other).ok_or(AllocError)
}

/// For how many receipts a seat with `jobs` Jobs in hand needs room before an event of this kind. It fails exactly where that is over 64
/// bits. For a Job in hand that is given back, the room is there.
fn receipts_needed(jobs: u64, kind: EntryKind) -> Result<u64, AllocError>
    ensures needed { OkIff result (receipts_needed kind jobs < 2 ^ 64) (receipts_needed kind jobs) }
    ensures some { IfOk result (λ needed. 0 < needed) }
    ensures given_back { IsGiveBack kind → IsOk result }
{
    match kind {
        EntryKind::Take => sum(jobs, 2),
        EntryKind::GiveBack => Ok(jobs.max(1)),
        _ => sum(jobs, 1),
    }
}

/// Makes room for the receipt of an event, beside that for the Jobs in hand. Returns for how many receipts there is room. Where a Job in
/// hand is given back, it can't fail.
pub fn reserve(receipts: &mut Vec<Receipt>, jobs: u64, kind: EntryKind) -> Result<u64, AllocError>
    requires { vec_len receipts.old + jobs ≤ vec_capacity receipts.old }
    ensures items { receipts.new.items ≡ receipts.old.items }
    ensures kept { vec_len receipts.old + jobs ≤ vec_capacity receipts.new }
    ensures needed { IfOk result (λ needed. (needed ≡ receipts_needed kind jobs) × (0 < needed)) }
    ensures room { IfOk result (λ needed. vec_len receipts.old + needed ≤ vec_capacity receipts.new) }
    ensures given_back { IsGiveBack kind → 0 < jobs → IsOk result }
{
    let needed = receipts_needed(jobs, kind)?;
    receipts.reserve(needed as usize)?;
    Ok(needed)
}

/// How many Jobs are in hand after an event with this line, before which there was room for `needed` receipts.
pub fn jobs_after(jobs: u64, needed: u64, line: &Line) -> u64
    requires kind { needed ≡ receipts_needed line.now.kind jobs }
    requires positive { 0 < needed }
    ensures room { result < needed }
    ensures left { result ≡ jobs_left line.now.kind line.now.out jobs }
{
    let in_hand = match (line.kind, line.out) {
        (EntryKind::Take, Told::Done(_)) => jobs.saturating_add(1),
        (EntryKind::Deliver, Told::Refused(Reason::NoJob)) => jobs,
        (EntryKind::Deliver, _) => jobs.saturating_sub(1),
        _ => jobs,
    };
    in_hand.min(needed - 1)
}
