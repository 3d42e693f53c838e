//! Laws of renames of methods and of interfaces: what stands against a plain rename decides whether it preserves bindings and which types
//! implement which interfaces.
//! There is no code that runs.
//!
//! Crates above rely on: `lookups_are_after`, `obstacles_decide`, `no_obstacle_is_harmless` and `sets_are_called_alike`.
#![tactic(auto)]

pub mod definitions;
pub mod obstacles;
pub mod renamed_sets;
pub mod unnamed_obstacles;
