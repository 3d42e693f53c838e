//! Changes of files in little room: an edit takes eight bytes.
//!
//! Crates above rely on: a `PackedSet` has the value of the edit set that was packed, and `same` compares sets by value.
#![tactic(auto)]

mod comparing;
mod packed;
mod packed_set;
mod packing;

pub use packed_set::PackedSet;
