//! Reads the words of the program's command line as a request, or finds the help, version or usage text to print.
//!
//! Crates above rely on: `read_request` returns the request of the words, or a text where `ReadsRequest` says so. A request is a session, a
//! server with options in their ranges, a command over a folder, or a language server.
#![tactic(auto)]

mod command_line;
mod reading;
mod requests;
mod tools;

pub use reading::{RequestFault, read_request};
pub use requests::{ServeOptions, StopOptions, Words};
pub use tools::{FaultsOptions, LspOptions, MoveOptions, RenameOptions, UsesOptions};
