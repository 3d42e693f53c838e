//! Edits, ranges and names of files, as a client of the language server protocol takes them.
//!
//! Crates above rely on: `name_in` gives the name of the file that a URI names, and `uri_for` the URI of a named file. `workspace_edit` tells
//! exactly the edits of a change (`TellsEdit`), with the versions of the documents that are open. `replacements` are the files whose texts
//! differ. `identifier_range` is the range of the identifier that begins at an offset.
#![tactic(auto)]

mod edits;
mod naming;
mod replaced;
mod spans;
mod telling;

pub use edits::{file_bytes, uri_told, workspace_edit};
pub use naming::{FolderNaming, below_folder, name_in, uri_for};
pub use replaced::replacements;
pub use spans::{between, identifier_at, identifier_begin, identifier_range};
pub use telling::Telling;
