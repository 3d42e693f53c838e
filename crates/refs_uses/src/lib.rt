//! Lists the identifiers of a workspace that are bound to a declaration.
//!
//! Crates above rely on: `uses` lists exactly the places of all identifiers with the declaration of the identifier at a byte, sorted, or
//! refuses exactly where `AnswersUses` says so. `list_uses` lists exactly the places for a given declaration, and so does `list_uses_from`
//! by a package that is read already. `list_uses_of_each` lists those of several declarations. A name that `name_of_member` returns is the
//! only one that denotes the field or method (`IsNameFound`). One that `name_of_all` returns is so for each of a list.
#![tactic(auto)]

mod exported_name;
mod may_use;
mod member_name;
mod member_uses;
mod members_abroad;
mod own_names;
mod places;
mod qualified_abroad;
mod qualified_uses;
mod scope_uses;
mod set_uses;
mod sorting;
mod uses_in_package;
mod workspace_uses;

pub use member_name::{name_of_all, name_of_member};
pub use places::Places;
pub use workspace_uses::{list_uses, list_uses_from, list_uses_of_each, uses};
