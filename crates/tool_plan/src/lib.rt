//! Plans over the Go files of a folder, in which all packages were checked.
//!
//! Crates above rely on: a `CheckedFolder` plans exactly what `PlansAffectedRename`, `PlansAffectedMove`, `AnswersUses` and `ListsFaults`
//! define for its files. The packages are checked in several threads.
#![tactic(auto)]

mod checked;

pub use checked::CheckedFolder;
