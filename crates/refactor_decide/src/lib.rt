//! Decides a rename of a declaration of the scopes of a package by the workspace before it: the first identifier that the rename captures or
//! loses, or that there is none. No edited text is read.
//!
//! Crates above rely on: `scope_decision` tells the first conflict of each rename of the declaration, or that it has none (`Decides`), of a
//! package that is read once. It tells too whether other packages see the declaration under either name.
//! `first_placed` tells the first conflict in the scopes of a package, by its place, and `earlier` the earlier one of two.
#![tactic(auto)]

mod behind;
mod capturers;
mod deciding;
mod decision;
mod own;
mod turned;

pub use deciding::{earlier, scope_decision};
pub use decision::ScopeDecision;
pub use own::first_placed;
