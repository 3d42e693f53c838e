//! The edits of a rename, and whether its new name is legal.
//!
//! Crates above rely on: `is_new_name` is true exactly for the names that a rename can give. `refuse_name` refuses a name for a declaration
//! exactly where `RefusesName` says so. `rename_edits` returns exactly the edit set of a rename (`AreRenameEdits`), of one
//! declaration or of several, and it fits the workspace. Both are given the package of the declaration, and read none.
#![tactic(auto)]

mod changes;
mod file_edits;
mod here;
mod literal;
mod naming;
mod new_name;
mod paths;
mod renamed;
mod renaming;
mod replacing;

pub use file_edits::edits_of;
pub use literal::literal_of;
pub use naming::refuse_name;
pub use new_name::is_new_name;
pub use renamed::{Literal, Renamed};
pub use renaming::{Renaming, rename_edits};
