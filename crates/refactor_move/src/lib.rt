//! The edits that move a package, with all files in its folder, to another folder, and the paths after the move.
//!
//! Crates above rely on: `new_path` returns the new path of a file or package. `move_edits` returns exactly the edit set of a move, which
//! fits the workspace. It lays no scope table, and is handed the marks of the names that refer to the package (`KnowsUses`). It refuses with
//! `TooLarge` exactly where a file would get too long a path (`PlansMoveEdits`). `name_after` returns the new name of a package, if it
//! follows the path.
#![tactic(auto)]

mod changes;
mod file_edits;
mod following;
mod literals;
mod marks;
mod moved;
mod moving;
mod names;
mod package_edits;
mod paths;
mod quoting;
mod untouched;

pub use following::name_after;
pub use moved::Moved;
pub use moving::move_edits;
pub use names::is_marked;
pub use paths::{is_under, new_path};
pub use quoting::quoted_path;
