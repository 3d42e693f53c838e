//! The parameters of requests and notifications of the language server protocol, read from JSON.
//!
//! Crates above rely on: each reader gives what its definition finds in the value, and `None` exactly where that finds nothing.
#![tactic(auto)]

mod asked;
mod changed;
mod client;
mod members;

pub use asked::{
    AskedAt, AskedName, asked_at, asked_name, command_in, includes_declaration, uri_of_document,
};
pub use changed::{OpenedDocument, changes_in, opened_document, version_of_document};
pub use client::{ClientAbilities, abilities_in, root_in};
pub use members::{position_read, text_at};
