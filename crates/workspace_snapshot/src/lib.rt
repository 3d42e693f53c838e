//! Snapshots of a workspace, and the changes that are planned on them.
//!
//! Crates above rely on: a `MadeChange` has an edit set that fits its base, and the files that the set makes of the base. `plan_put` and
//! `plan_del` return the change of the definitions (`PlansPut`, `PlansDel`), or refuse exactly where these say so.
#![tactic(auto)]

mod change;
mod fits;
mod made_change;
mod named;
mod plan;
mod snapshot;

pub use change::{Change, ChangeKind};
pub use fits::{files_fit, fits_limits};
pub use made_change::{MadeChange, graph_after};
pub use plan::{has_text, plan_del, plan_put};
pub use snapshot::Snapshot;
