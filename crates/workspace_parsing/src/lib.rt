//! Parses the files of a workspace in several threads, for callers that have no graph yet. The folders are shared out by their bytes.
//! Files that come one after another are parsed while others come.
//!
//! Crates above rely on: `parsed_together` and `Parsing::graph` return the graph of all files that they are given.
#![tactic(auto)]

mod parsing;
mod shares;
mod task;
mod together;

pub use parsing::Parsing;
pub use together::parsed_together;
