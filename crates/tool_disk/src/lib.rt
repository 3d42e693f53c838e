//! Reads the Go files of a folder on the disk, as Go finds them. Writes changed files so that each is old or new whatever happens.
//!
//! Crates above rely on: `FolderFiles::put` adds a file exactly as a put of a session does, and `into_snapshot` has all of them parsed, in
//! several threads. A journal is read as the run of which it was written. No contract tells what a file gives or takes, so checks with real folders
//! stand for the rest.
#![tactic(auto)]

mod fault;
mod folder;
mod holding;
pub mod laws;
mod paths;
mod recovery;
mod steps;
mod walking;
mod writing;

pub use fault::{ToolFault, told};
pub use folder::FolderFiles;
pub use holding::{HeldFolder, hold};
pub use recovery::{recover, refuse_cut_off};
pub use walking::{Loaded, load, load_and_parse, refuse_left_out};
pub use writing::{FileOf, FolderWriting, write_all};
