//! Edit sets: the files that they make, their inverses, and where they move places.
//!
//! Crates above rely on: `prepare` makes the files after a set that fits (`edited`), with an inverse that restores the files before it.
//! `Inverse::prepare` does so for the way back, which `WayBack` keeps as plain data. `Moves` returns exactly the place to which an edit
//! set moves a place (`moved`), and the new name of an identifier there (`new_name_at`).
#![tactic(auto)]

mod change;
mod edit;
mod edit_set;
mod fits;
mod inverse;
mod laws;
mod making;
mod moves;
mod new_text;
mod prepared;
mod reversing;
mod way_back;

pub use change::{Fate, FileChange};
pub use edit::{Edit, Edits};
pub use edit_set::EditSet;
pub use inverse::Inverse;
pub use laws::{
    each_path_gets_one_file, edits_keep_order, edits_keep_other_bytes, reversed_edits_restore,
};
pub use moves::{FileMoves, Moves};
pub use prepared::{Prepared, prepare};
pub use way_back::WayBack;
