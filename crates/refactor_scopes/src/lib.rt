//! The first identifier of a package that the rename of one of its declarations captures or loses, decided by the old names alone.
//!
//! Crates above rely on: `ScopeRename::conflict` returns the first such identifier of the scopes of a package (`TellsConflict`), reads no
//! edited text, and takes no memory.
#![tactic(auto)]

mod numbers;
mod order;
mod outcomes;
mod own_uses;
mod scope_rename;

pub use outcomes::ScopeConflict;
pub use scope_rename::ScopeRename;
