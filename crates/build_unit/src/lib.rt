//! Builds packages. The unit of a package is its faults, or its export data and its object where it has none. A Job asks for the unit of
//! one package.
//!
//! Crates above rely on: `build` returns the unit of the Job's inputs (`IsBuiltOf`), with new verdicts on packages of the inputs. A package
//! has one unit, which its closure determines (`units_are_unique`, `units_are_local`). Inputs may bring the unit of their package, if it is
//! known. Then `build` answers it, and neither checks nor prints anything.
#![tactic(auto)]

mod built;
mod checked_text;
mod compiling;
mod inputs;
mod job;
mod known_text;
pub mod laws;
mod naming;
mod out;
mod package_at;
mod unit;

pub use built::{Built, build};
pub use compiling::done_unit;
pub use inputs::PackageInputs;
pub use job::{Job, JobRecord};
pub use out::{JobLabel, Out};
pub use types_expr::symbol::SharedPath;
pub use unit::{Compiled, Unit};
