//! Compares the objects of packages in two states of the history.
//!
//! Crates above rely on: `compare_objects` tells of each package of a view whether its object is that of another state, byte for byte. It
//! refuses just where no state that is shown has the number (`ComparesWith`).
#![tactic(auto)]

mod comparing;

pub use comparing::{ComparedObject, ComparedObjects, ObjectChange, compare_objects};
