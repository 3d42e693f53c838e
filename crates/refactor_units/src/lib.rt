//! What planned renames do to the objects and units of packages.
//!
//! Crates above rely on: behind the planned rename each package has the unit that it had, with the names that `carried_names` answers in its
//! object (`CarriesPlanned`). It answers for local variables, parameters, receivers, imports with a name, and package-level declarations.
//! The law of `objects` says which objects stay over a planned rename, and which names are replaced in the others.
#![tactic(auto)]

mod carried;
mod level;
mod local;
pub mod objects;

pub use carried::carried_names;
