//! Tests of what neither a stored session nor a run of the program shows. They use public functions alone.
//!
//! - `scopes`: what names are bound to in packages with faults.
//! - `sessions`: sessions with lowered limits, and over streams that move one byte at a time or fail at a call.
//! - `servers`: Jobs that come late or twice, a seat that is left out of settling, and what other seats know.
//!
//! Replies and refusals are those of docs/PROTOCOL.md. No crate above relies on this one.
//!
//! A crate with tests is proved twice, so they have a crate of their own. Two compilers build a crate of tests with all crates that it
//! needs, so they have one crate alone.
#![tactic(auto)]

#[cfg(test)]
mod assertion;
#[cfg(test)]
mod scopes;
#[cfg(test)]
mod servers;
#[cfg(test)]
mod sessions;
