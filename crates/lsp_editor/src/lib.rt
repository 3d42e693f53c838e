//! What the server keeps of an editor beside the files: what the editor can do, its folder, its documents, which edits it is yet to make, and
//! what was published of documents. Notifications change it.
//!
//! Crates above rely on: `note_client` notes what initialize says (`NotesClient`). `heed` heeds a notification, and says whether faults may have
//! changed (`Heeds`). `telling` is by what answers are told. The notes of renames and steps are exact.
//! `is_told` says whether the faults of a document were published last, and `tell_publications` publishes and keeps what it is given (`Keeps`).
#![tactic(auto)]

mod editor;
mod folders;
mod heeding;
mod noting;
mod publications;
mod taken;

pub use editor::{Awaited, Editor, Published};
pub use folders::{folder_named, without_slash};
pub use heeding::heed;
pub use noting::note_client;
pub use publications::{Publication, is_told, lines_of, tell_publications};
