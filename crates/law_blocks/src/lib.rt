//! Laws of blocks and scopes by ranges of tokens. The block of a declaration is the innermost range that surrounds its token. Its scope
//! begins at the end of its statement or spec. There is no code that runs.
//!
//! Crates above rely on: a declaration has the scope that ranges give (`scopes_are_ranges`). An identifier is bound to the declaration of its
//! name with the innermost such scope around it (`packages_are_bound_by_ranges`).
#![tactic(auto)]

pub mod ranges;
