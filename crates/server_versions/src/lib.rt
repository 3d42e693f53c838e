//! Versions of a value that threads share, in a log that only grows. Two that were seen are compared by their numbers alone.
//!
//! Crates above rely on: `Versions::is_same` says exactly whether two beginnings of one log are the same, so that their last versions are. It
//! compares two numbers. `Versions::add` puts a version behind all that were seen.
#![tactic(auto)]

mod versions;

pub use versions::{LogName, NewLog, VersionLog, Versions};
