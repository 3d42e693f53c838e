//! Checks the packages of a workspace in several threads, for callers that know no verdict yet.
//!
//! Crates above rely on: `verdicts_together` returns what `verdicts` would: the finding of each package, which its closure determines.
#![tactic(auto)]

mod task;
mod together;

pub use together::verdicts_together;
