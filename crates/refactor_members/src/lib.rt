//! Finds the first conflict of a rename of a field or method by the old workspace and the new name alone.
//!
//! Crates above rely on: `member_conflict` tells the first identifier that the rename loses or captures, or that there is none
//! (`IsFirstConflict`). It edits no file, and lays no scopes of edited packages.
#![tactic(auto)]

mod beginning;
mod concerned;
pub mod declared_place;
mod definition;
mod first;
mod judged_names;
mod judged_uses;
mod keeping;
mod lookup;
mod member_rename;
mod ranks;
mod reaching;
mod rename_conflict;

pub use rename_conflict::member_conflict;
