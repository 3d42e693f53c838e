//! The faults that a package's clauses, imports and scopes show, before any type is checked.
//!
//! Crates above rely on: `outer_faults` lists exactly the faults of clauses and imports (`IsOuterFault`), and `inner_faults` exactly those
//! of scopes, statements and qualified identifiers (`IsInnerFault`). Both lists are sorted, without repetition.
#![tactic(auto)]

mod clauses;
mod imports;
mod qualified;
mod scoping;
mod stages;
mod statements;
mod table;
mod uses;

pub use stages::{inner_faults, outer_faults};
