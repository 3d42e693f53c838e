//! The places of the declarations and identifiers of a workspace without faults.
//!
//! Crates above rely on: `declared_places` finds the place of each declaration, package by package. `home_marks` marks exactly the packages
//! of declarations.
#![tactic(auto)]

pub mod declared_places;
mod homes;
mod places;

pub use homes::home_marks;
pub use places::{NameStart, beginning, name_beginning, place_of, start};
