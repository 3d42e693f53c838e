//! Laws of plain renames after which the same types implement the same interfaces. By the old scopes and types some of them lose and capture no
//! identifier. These are the ones that preserve bindings.
//! There is no code that runs.
//!
//! Crates above rely on: `none_lost_preserves`, `own_conflicts_are_told`, `first_conflicts_are_told`, `conflicts_refuse`,
//! `first_conflicts_are_there` and `plain_renames_agree`.
#![tactic(auto)]

pub mod agreement;
pub mod known;
pub mod plain;
pub mod plain_agreement;
pub mod scope_conflicts;
