//! Laws of what names, types and code mean in a package after a change: after a rename (`same_bindings`), after a move (`moves`,
//! `moved_types`), and where its tokens and identifiers get other numbers (`renumbers`, `renumbered_types`). Judging then finds what it
//! found. There is no code that runs.
//!
//! Crates above rely on: `worlds_bind_alike`, `files_ask_for_their_uses`, `worlds_move`, `files_move`, `found_renumbers` and
//! `files_renumber`, and lemmas of `proofs/` on types and meanings.
#![tactic(auto)]

pub mod member_uses;
pub mod moved_types;
pub mod moves;
pub mod renumbered_types;
pub mod renumbers;
pub mod same_bindings;
