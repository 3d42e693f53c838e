//! Methods that are coupled since types implement interfaces, and what stands against a rename.
//!
//! Plans rely on: `renamed_with` lists what is renamed with a declaration (`IsRenamedSet`): a method that an interface asks for, with all that
//! are coupled with it, else the declaration alone. `first_change` finds the first interface whose implementing types a rename changes
//! (`TellsFirstTurn`). `called_name` finds the name of a field or method. Definitions say what a change must keep (`KeepsImplementing`), and
//! which obstacle is the first (`IsFirstObstacle`).
#![tactic(auto)]

mod called;
mod coupling;
mod interfaces_turned;
mod obstacle;
mod renamed_types;
mod turning;

pub use coupling::{called_name, renamed_with};
pub use interfaces_turned::first_change;
pub use obstacle::{Obstacle, told};
pub use renamed_types::RenamedSet;
