//! The meanings of a package's declarations and names, and its qualified identifiers.
//!
//! Crates above rely on: `meanings_of` finds exactly what each declaration means where it is used, and `file_names` the meaning of each
//! name of a file. `qualified_identifiers` lists exactly the qualified identifiers of a package, by path. A declaration has at most one
//! meaning, and a file at most one world.
#![tactic(auto)]

mod copies;
mod lists;
mod meanings;
mod names_of_files;
mod predeclared;
mod qualified;
mod qualifiers;
mod resolved_types;
mod signatures;
mod uniqueness;

pub use copies::copy_signature;
pub use lists::Qualified;
pub use meanings::{MeaningTable, meanings_of};
pub use names_of_files::{file_names, is_name_after_dot};
pub use qualified::qualified_identifiers;
pub use qualifiers::qualifying_path;
pub use resolved_types::valid_type;
pub use signatures::{signature, written_signature};
pub use uniqueness::{has_one_meaning, has_one_world};
