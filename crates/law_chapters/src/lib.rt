//! Chapters of a history: its journal is closed now and then, and begins anew, while all else goes on. There is no code that runs.
//!
//! Crates above rely on: none does so yet.
#![tactic(auto)]

pub mod borders;
pub mod chapters;
