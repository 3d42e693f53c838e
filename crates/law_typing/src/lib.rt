//! The typing rules of expressions, statements and files, and the laws that the checks find faults exactly where a rule is broken. There is
//! no code that runs.
//!
//! Crates above rely on: a type fault is found at exactly the tokens where a rule is broken (`faults_of_files_stand_at_broken_rules`). In a
//! file that uses nothing broken none is found exactly where the file keeps the rules (`files_are_checked_by_the_rules`).
#![tactic(auto)]

pub mod expression_laws;
pub mod place_laws;
pub mod statement_laws;
