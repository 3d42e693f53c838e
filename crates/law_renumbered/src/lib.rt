//! Laws of a workspace in which the tokens and identifiers of a package get other numbers: its findings, its export data, what its
//! identifiers are bound to, and that bindings are kept. Two revisions, one after the other, preserve bindings together. There is no code
//! that runs.
//!
//! Crates above rely on: `exports_renumber`, `no_member_fault_comes`, `no_type_fault_comes`, `renumbered_workspaces_keep_bindings`,
//! `revisions_in_turn_preserve` and `second_revisions_preserve`.
#![tactic(auto)]

pub mod renumbered_bindings;
pub mod renumbered_findings;
pub mod renumbered_workspaces;
pub mod two_revisions;
