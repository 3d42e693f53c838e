//! Laws of a workspace after a plain rename, one by which no import gains a name. Where no identifier is lost or captured, its packages,
//! scopes and members stay, but for the new name. Such a rename is harmless if the same types implement the same interfaces after it. Then
//! verdicts and what is known of them stay too. Which identifiers can be lost is told by the old workspace. There is no code that runs.
//!
//! Crates above rely on: `packages_are_relaid`, `packages_are_bound_alike`, `worlds_stay`, `members_stay`, `found_stays`,
//! `renames_have_verdicts`, `known_verdicts_stay`, `scoped_packages_are_relaid`, `local_conflicts_are_of_scopes` and
//! `first_member_conflict`.
#![tactic(auto)]

pub mod kept_members;
pub mod known;
pub mod known_after;
pub mod layouts;
pub mod local_renames;
pub mod member_renames;
pub mod members;
pub mod renamed;
pub mod scoped_packages;
pub mod scopes;
pub mod verdicts;
pub mod verdicts_after;
pub mod worlds;
