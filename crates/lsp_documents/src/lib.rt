//! The documents that an editor has open: their URIs, versions and texts, by the names of their files. A URI may name a file.
//!
//! Crates above rely on: `changed_by` gives the text that content changes make, one after another (`ChangesMake`), by positions alone.
//! `Documents` is a finite map from names of files to documents. `path_in` and `uri_of` turn file URIs into paths and back.
#![tactic(auto)]

mod changes;
mod documents;
pub mod laws;
mod uris;

pub use changes::{ChangedPart, TextChange, changed_by};
pub use documents::{Document, Documents};
pub use uris::{path_in, text_behind, uri_of};
