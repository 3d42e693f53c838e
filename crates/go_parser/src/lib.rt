//! Parses files of the Go subset into syntax trees, or finds their first fault.
//!
//! Crates above rely on: `parse_file` returns the tree of the text's tokens, or refuses with the first fault of the text.
//! `parse_file_sharing` returns the same tree, and shares it with a given file if the tokens of both are of the same kinds.
#![tactic(auto)]

mod declarations;
mod expressions;
mod file;
mod file_tree;
mod functions;
mod groups;
mod headers;
mod interfaces;
mod kinds;
pub mod laws;
mod locals;
mod lookahead;
mod names;
mod operators;
mod parse_error;
mod parser;
mod refusal;
mod short_lists;
mod simple;
mod statements;
mod token_classes;
mod tokens;
mod types;

pub use file_tree::{parse_file, parse_file_sharing};
pub use parser::{Tree, flatten, parse};
pub use refusal::ParseRefusal;
