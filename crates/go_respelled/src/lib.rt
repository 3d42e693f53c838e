//! Texts in which names are replaced by names, and strings by strings: their pieces, tokens and trees are the old ones, with their ends
//! moved.
//!
//! Crates above rely on: the laws of `recut`, which speak of names. `respelled` makes the parsed file of a text in which names and
//! interpreted strings are replaced from the one before. It scans the new strings, and nothing else of the text. `respelled_by` does so by
//! known edits, and does not compare the texts.
#![tactic(auto)]

mod between;
mod moved;
pub mod recut;
mod respelling;
mod token_edits;

pub use respelling::{respelled, respelled_by};
