//! Plans renames and moves in workspaces in which packages may have faults. Faults are asked of the packages that the rename or the move
//! affects, and of no others.
//!
//! What is planned is planned in the part of the workspace whose packages are those without faults (`refactor_part`). If no affected package
//! has a fault, all of them are there, and the edits are those of the whole workspace.
//!
//! Crates above rely on: `plan_rename` and `plan_move` return the change of the definitions (`PlansAffectedRename`, `PlansAffectedMove`), or
//! refuse exactly where these say so. In a workspace without faults these are `PlansRename` and `PlansMove`.
#![tactic(auto)]

mod affected;
mod in_part;
mod moving;
mod refusals;
mod rename;
mod starts;
mod whole;

pub use moving::plan_move;
pub use rename::plan_rename;
