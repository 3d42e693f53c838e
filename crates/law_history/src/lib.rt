//! Laws of histories: what undo, redo and a push make of the files, what refused events leave as it was, and that a journal has one replay.
//! There is no code that runs.
//!
//! Crates above rely on: none does so yet.
#![tactic(auto)]

pub mod nearest;
pub mod pushing;
pub mod replays;
