//! Chapters of a shared book. Seats hand their receipts in when they come to rest. The journal is closed where it has reached its mark and no
//! seat holds a receipt, if its entries are exactly those of the receipts. Then the next chapter begins.
ghost use Rattle.std.specs.Prelude.{◌≡◌, ◌↔◌, [], IsFalse, IsTrue, MatchOption, length, vec_capacity};
ghost use Rattle.history_machine.specs.Machine.{closed};
ghost use Rattle.server_shared.specs.Due.{IsDue};
ghost use Rattle.server_shared.specs.Settled.{IsSettled};

use crate::comparing::{is_settled_by, take_in};
use crate::locked::Locked;
use crate::opening::Opening;
use crate::receipt::Receipt;
use history_machine::Entry;
use std::sync::ledger::Share;

/// How many entries later it is tried again to close a chapter.
const LATER: u64 = 1_000;

/// From this length of the journal on, it is tried at each event: no more than 1,000,000 entries are ever taken.
const LAST: u64 = 990_000;

/// When the chapter of a shared book is closed.
#[derive(Clone, Copy)]
pub struct Closing {
    /// The length of the journal at which each chapter is to be closed.
    pub mark: u64,
    /// The length at which the current one is to be closed. It is greater where that was tried before.
    pub due: u64,
    /// How many seats could not hand in their receipts, when they came to rest.
    pub held_back: u64,
}

impl Closing {
    /// Each chapter is closed at this length of its journal.
    pub fn at(mark: u64) -> Closing {
        Closing {
            mark,
            due: mark,
            held_back: 0,
        }
    }

    /// Whether a chapter with so many entries is to be closed.
    fn is_due(&self, entries: u64) -> bool
        ensures { IsTrue result ↔ IsDue self.now entries }
    {
        self.held_back == 0 && entries >= self.due
    }

    /// When the next chapter is closed, behind one with so many entries that was closed, or could not be.
    fn next(&self, entries: u64, was_closed: bool) -> Closing {
        let due = if was_closed {
            self.mark
        } else {
            entries.saturating_add(LATER).min(LAST)
        };
        Closing {
            mark: self.mark,
            due,
            held_back: self.held_back,
        }
    }

    /// Counts a seat that comes to rest, and is held back or not. It was so before, or not.
    fn rest(&self, was_held_back: bool, is_held_back: bool) -> Closing {
        let held_back = match (was_held_back, is_held_back) {
            (false, true) => self.held_back.saturating_add(1),
            (true, false) => self.held_back.saturating_sub(1),
            _ => self.held_back,
        };
        Closing {
            mark: self.mark,
            due: self.due,
            held_back,
        }
    }
}

impl<L: Opening> Locked<L> {
    /// Whether the chapter is to be closed. Until then no seat at rest begins anything.
    pub fn is_due(&self) -> bool
        ensures { IsTrue result ↔ IsDue self.now.closing (length self.now.book.journal) }
    {
        self.closing.is_due(self.book.journal().len() as u64)
    }

    /// Takes in the receipts that a seat holds, and counts them no longer as held. Where memory is wanting nothing changes, and it returns false.
    pub fn hand_in(&mut self, share: &mut Share<L>, receipts: &mut Vec<Receipt>) -> bool
        requires held { share.old.amount ≡ length receipts.old.items }
        requires known { ∥ L.accounts receipts.old.items ∥₁ }
        ensures done { IsTrue result → receipts.new.items ≡ [] }
        ensures kept { IsFalse result → receipts.new.items ≡ receipts.old.items }
        ensures capacity { vec_capacity receipts.new ≡ vec_capacity receipts.old }
        ensures amount { share.new.amount ≡ length receipts.new.items }
        ensures parts { share.new.parts ≡ share.old.parts }
        ensures book { self.new.book ≡ self.old.book }
        ensures stopped { self.new.is_stopped ≡ self.old.is_stopped }
        ensures news { self.new.news ≡ self.old.news }
    {
        let held = receipts.len() as u64;
        let Locked { count, handed, .. } = self;
        if !take_in(handed, receipts) {
            return false;
        }
        count.sub(share, held);
        true
    }

    /// Counts a seat that comes to rest, and is held back or not. It was so before, or not.
    pub fn rest(&mut self, was_held_back: bool, is_held_back: bool)
        ensures book { self.new.book ≡ self.old.book }
        ensures stopped { self.new.is_stopped ≡ self.old.is_stopped }
        ensures news { self.new.news ≡ self.old.news }
    {
        self.closing = self.closing.rest(was_held_back, is_held_back);
    }

    /// Whether no seat holds a receipt of this journal.
    fn is_all_handed_in(&self) -> bool
        ensures { IsTrue result ↔ (self.now.count.total ≡ 0) }
    {
        self.handed.len() as u64 == self.book.journal().len() as u64 - self.from
    }

    /// Whether seats at rest are to wait: the chapter is to be closed, and a seat holds receipts, which it will hand in.
    pub fn holds_up(&self) -> bool {
        self.is_due() && !self.is_all_handed_in()
    }

    /// Closes the chapter, if its entries are exactly those of the receipts, and returns them. It goes on where they are not, and where memory is
    /// wanting.
    fn close_chapter(&mut self) -> Option<Vec<Entry>>
        ensures { MatchOption result (self.new.book ≡ self.old.book)
            (λ entries. (self.new.book ≡ closed self.old.book) × (entries.items ≡ self.old.book.journal) × IsSettled self.old.from self.old.book.journal self.old.handed.items) }
    {
        let Locked {
            book,
            from,
            handed,
            kept,
            ..
        } = self;
        if !is_settled_by(*from, book, handed) {
            return None;
        }
        match book.close_chapter() {
            Err(_) => None,
            Ok(entries) => {
                *from = 0;
                handed.clear();
                *kept = 0;
                Some(entries)
            }
        }
    }

    /// Closes the chapter if it is due and no seat holds a receipt, and returns its entries. Else it goes on. Where it can't be closed, that is
    /// tried again some entries later.
    pub fn close_if_due(&mut self) -> Option<Vec<Entry>> {
        if !self.is_due() || !self.is_all_handed_in() {
            return None;
        }
        let closed = self.close_chapter();
        let entries = self.book.journal().len() as u64;
        self.closing = self.closing.next(entries, closed.is_some());
        closed
    }
}
