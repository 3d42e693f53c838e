//! Laws of planned renames and moves: each byte that no edit touches stays, and what an import gains. Renames and moves that are planned
//! beside packages with faults are told in the words of the whole workspace, with the objects of all packages. There is no code that runs.
//!
//! Crates above rely on: `bytes_stay`, `names_are_gained`, which packages have no fault (`IsSoundPackage`), and that a rename planned
//! beside packages with faults is a plan of its part (`renames_in_part`).
#![tactic(auto)]

pub mod affected_bytes;
pub mod bytes;
pub mod moves;
pub mod objects;
pub mod part_plans;
pub mod renames;
