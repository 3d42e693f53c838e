//! Laws of the tokens at which the identifiers of a package are: all identifier tokens of its files, in the order of their numbers. So a
//! byte is in at most one of them. There is no code that runs.
//!
//! Crates above rely on: identifiers are at exactly the identifier tokens and the literals of imports (`identifiers_cover_tokens`). The
//! tokens around an identifier decide whether it is a selector or a key (`tokens_decide_roles`).
#![tactic(auto)]

pub mod laws;
