//! The seats of a shared book that no thread has taken.
ghost use Rattle.std.specs.Prelude.{◌≡◌, ◌+◌, ◌<◌, []};

use crate::opening::Opening;
use crate::seat::Seat;
use std::alloc::Global;
use std::sync::ledger::Share;

/// The seats of a shared book that were not taken. `Shared::settle` takes them back.
#[must_use]
#[derive(Drop)]
pub struct FreeSeats<L: Opening> {
    /// The ledger's parts for these seats.
    pub(crate) share: Share<L>,
    /// How many seats these are.
    pub left: u64,
    ghost one_each: { share.parts ≡ left },
    ghost none_yet: { share.amount ≡ 0 },
}

impl<L: Opening> FreeSeats<L> {
    /// Takes a seat with no receipts.
    pub fn take(&mut self, alloc: Global) -> Seat<L>
        requires { 0 < self.old.left }
        ensures seat { result ≡ [] }
        ensures left { self.new.left + 1 ≡ self.old.left }
    {
        let FreeSeats { share, left } = self;
        *left -= 1;
        Seat::new(alloc, share.split_off(1, 0))
    }
}
