//! Plans a rename or a move: the change, or the refusal. Laws of plans and histories: bindings are preserved, undo and redo restore them,
//! and the export data of a package is its own.
//!
//! The workspace before it decides each move and each rename. No edited workspace is judged.
//!
//! Crates above rely on: `plan_rename` and `plan_move` return the change of the definitions (`PlansRename`, `PlansMove`), or refuse exactly
//! where these say so. An admitted change preserves each binding. `plan_read` plans a rename in a package that was read already.
#![tactic(auto)]

pub mod admitted_plans;
mod bindings;
mod decided;
mod decided_moves;
mod decision;
pub mod exports;
mod kept_known;
pub mod laws;
mod move_plan;
mod plan;
mod proposal;
pub mod restored;
mod targets;

pub use bindings::{PackageBindings, bindings_of};
pub use move_plan::plan_move;
pub use plan::{plan_read, plan_rename};
pub use proposal::Proposal;
