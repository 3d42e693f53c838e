//! Checks a package stage by stage, builds its export data, and compares export data.
//!
//! Crates above rely on: `check` finds exactly the faults of a package. Where it has none, `check` finds its export data, its uses of
//! members and its qualified identifiers, and the entries of values into interfaces. `are_alike` is true exactly where what is known of a
//! package equals what a table has at a path, value by value.
#![tactic(auto)]

mod alike;
mod checking;
mod definitions;
mod equal_definitions;
mod equal_scopes;
mod equality;
mod exporting;
pub mod laws;
mod notes;
mod type_faults;
mod worlds;

pub use alike::are_alike;
pub use checking::{Checked, CheckedPackage, check, check_package, packages_are_unique, table_of};
pub use exporting::{exports_once, is_seen};
pub use type_faults::Typed;
pub use worlds::file_world;
