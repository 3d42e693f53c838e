//! Laws of objects and units after renames that preserve bindings: the old objects, or the old ones with new names. Token numbers and
//! imports that gain a name change no object. There is no code that runs.
//!
//! Crates above rely on: the laws of `objects` and `kept_units`, and what an object, its text and its replaced names are (`HasObject`,
//! `HasObjectText`, `ReplacesNames`).
#![tactic(auto)]

pub mod gained_objects;
pub mod kept_units;
pub mod names;
pub mod objects;
pub mod renumbered_objects;
pub mod texts;
pub mod units;
