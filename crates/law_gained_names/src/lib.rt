//! Laws of renames by which an import without a name gains one. Each can be done in two steps: first the import gets the name that it
//! declares already, which changes no binding, and then it is renamed. So its conflicts are told by the old names. There is no code that
//! runs.
//!
//! Crates above rely on: `unnamed_renames_have_steps`, `gained_names_are_steps`, `own_names_are_gained`, `rename_edits_exist`, and the laws
//! of `unnamed_renames`, whose premises `IsNamedFirst` and `StepsPreserve` `gaining_renames` proves.
#![tactic(auto)]

pub mod bare_imports;
pub mod existing;
pub mod gained_steps;
pub mod gaining_renames;
pub mod named_imports;
pub mod named_workspaces;
pub mod own_names;
pub mod program_trees;
pub mod put_tokens;
pub mod two_steps;
pub mod unnamed_renames;
