//! Units of packages that are known before the packages are built: those of an earlier workspace, with new names of declarations in their
//! objects.
//!
//! Crates above rely on: `KnownUnits` keeps units of the packages of its files (`AreKnownUnits`), and `carried` takes them along to other
//! files where these carry units over (`CarriesUnits`). `unit` answers the unit of a package, if it is known.
#![tactic(auto)]

mod known_units;
mod ready;

pub use known_units::KnownUnits;
