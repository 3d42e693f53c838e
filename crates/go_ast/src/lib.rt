//! The syntax of the Go subset: kinds of tokens, the grammar, syntax trees, and parsed files.
//!
//! Crates above rely on: a `FileTree` has the syntax tree of the tokens of its own text, and a clone shares it. A list of tokens has at
//! most one verdict: one tree, or one first fault (`one_verdict`).
#![tactic(auto)]

mod file_tree;
pub mod laws;
pub mod syntax;
pub mod tree;

pub use file_tree::FileTree;
