//! Records of changes in a file that only grows. Each has its length with a check of that, a check of what it holds, and what it holds: the bytes of
//! a change. A file whose end was cut off has the records before the cut. A length that was changed is damage: it cuts off nothing.
//!
//! Crates above rely on: `record` makes the bytes of a record (`record_bytes`). `whole_records` finds exactly the records with which bytes begin
//! (`AreRecords`). Where a part of a file is read, a first part of its records is found (`cuts_leave_first_records`). Records are not returned from
//! bytes that are damaged (`changed_counts_are_damage`, `damage_is_not_cut`). `read_change` returns exactly the change that has the bytes
//! (`AreBytesOf`), which `AskedChange::bytes` makes.
#![tactic(auto)]

mod change;
mod decoding;
mod edit_sets;
mod encoding;
pub mod laws;
mod lists;
mod reading;
mod writing;

pub use change::{AskedChange, ChangeFault, KeptChange};
pub use lists::read_change;
pub use reading::{RecordsFault, WholeRecords, whole_records};
pub use writing::{RecordFault, record};
