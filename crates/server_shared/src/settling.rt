//! The book that comes back where it is not settled.
use history_book::Book;

/// The journal's new entries are not exactly those of the receipts that were handed in. The book comes back.
pub struct Unsettled {
    pub book: Book,
}
