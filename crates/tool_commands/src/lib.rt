//! The commands `rename`, `move`, `uses` and `faults` over a folder of Go files.
//!
//! Crates above rely on: a command returns what is to be printed, and whether it was done, as a `CommandOutcome`. That is exactly what the
//! definitions tell of some files (`TellsRename`, `TellsMove`, `TellsUses`, `TellsFaults`). No contract says which files a folder gives, nor
//! what it takes.
#![tactic(auto)]

mod changing;
mod opened;
mod questions;

pub use changing::{move_package, rename};
pub use questions::{list_faults, list_uses};
