//! The journal of a server on the disk: a record of each change, flushed before the change is made, and the book to which the records lead.
//!
//! Crates above rely on: `Kept::intend` adds a record, and has it flushed (`Grows`). Else the store is as before, or was given up and takes no
//! record any more (`FailsToKeep`). `Kept::take_back` takes it away again. `kept_step` makes one step of a book, and what the store holds stays
//! the changes of the book's history (`KeepsChanges`). `recovered` returns a book whose history has exactly the changes of the records
//! (`IsRecovered`). `book_in` returns the book to which the bytes of a journal lead (`IsBookIn`). No contract tells what a file holds: `DiskStore`
//! is as it is in tests with files and kills.
#![tactic(auto)]

mod beginning;
mod disk;
mod folder;
mod keeping;
mod kept;
pub mod laws;
mod opened;
mod recovery;
mod repeating;
mod store;

pub use beginning::keep_behind;
pub use disk::DiskStore;
pub use folder::{KeptBook, open_journal};
pub use keeping::{kept_commit, kept_step};
pub use kept::{Kept, KeptFault};
pub use opened::{JournalFault, RecoveredBook, book_in};
pub use recovery::recovered;
pub use repeating::RecoveryFault;
pub use store::Store;
