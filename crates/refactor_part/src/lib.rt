//! The part of a workspace whose packages are those without faults, the packages that a change affects, and their first fault.
//!
//! A package without faults imports only packages without faults. So each package of the part has there the closure that it has in the
//! workspace. With the closure it keeps its verdict, its bindings and its unit.
//!
//! Crates above rely on: `left_out` finds the packages with faults, and `faultless_part` makes the part without them, as a snapshot with
//! its findings. It reads only files of these packages. `first_fault` returns the first fault of marked packages. Laws: the part has no
//! fault, and has exactly the packages without faults, each with its closure (`laws`).
#![tactic(auto)]

pub mod laws;
mod leaving;
mod marked;
mod part;

pub use leaving::{LeftOut, left_out};
pub use marked::{first_fault, refuse_marked};
pub use part::{FoundBeside, SoundPart, faultless_part, known_beside};
