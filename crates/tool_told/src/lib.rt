//! Tells of Go files as texts: places, faults and refusals with their lines, the diffs of changes, and what commands over a folder print.
//!
//! Crates above rely on: each text is what its definition says (`places_text`, `faults_text`, `refusal_text`,
//! `TellsFiles`). `rewrites` gives exactly the files whose texts a change changes, as `rewrites_of` says.
#![tactic(auto)]

mod asked;
mod messages;
mod outcome;
mod rewriting;
mod telling;

pub use asked::{NamedPlace, named_place, path_below, path_of};
pub use outcome::{
    CommandOutcome, cut_off_outcome, faults_outcome, refusal_outcome, shown_outcome, uses_outcome,
    word_outcome, written_outcome,
};
pub use rewriting::{Rewrite, rewrites};
pub use telling::{AskedFor, Naming, shown_path};
