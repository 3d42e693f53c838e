//! What is known of packages after a move: findings and export data with moved symbols.
//!
//! Crates above rely on: `moved_known`, which makes of the known verdicts before a move those after it.
#![tactic(auto)]

mod definitions;
mod exports;
mod findings;
mod known;
mod swap;
mod tables;
mod types;

pub use known::{BeforeMove, moved_known};
pub use swap::Swap;
