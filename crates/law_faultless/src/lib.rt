//! Laws of workspaces without faults: identifiers are bound, names mean something, and the code of packages is balanced. Each identifier
//! has a declaration, except names in package clauses, names of functions `init`, and each `_` that declares or is assigned
//! (`no_identifier_is_unbound`). No line of an object is left out (`questions_are_answered`), and each definition has its line (`lines`).
//! There is no code that runs.
//!
//! Crates above rely on: lemmas of `proofs/` on the tokens, roles and bindings of identifiers in such workspaces.
#![tactic(auto)]

pub mod all_bound;
pub mod all_used;
pub mod balance;
pub mod decided;
pub mod known;
pub mod lines;
pub mod settled;
pub mod worlds;
