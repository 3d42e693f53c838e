//! Lemmas on tests, orderings, options and lists that several crates cite and that std has not. There is no code that runs.
//!
//! Crates above rely on: `proofs/` alone.
#![tactic(auto)]
