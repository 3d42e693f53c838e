//! The history of a workspace by inverses: a cursor over the changes that lead back and forth among its files.
//!
//! Crates above rely on: each inverse of a `History` leads from the files that the nearer ones reach to those of the next state (`StandsAt`).
//! `undo` and `redo` move the cursor and the files by one; refused, they change nothing. `push` takes no memory after `reserve`.
#![tactic(auto)]

mod history;
mod laws;
mod rows;

pub use history::History;
pub use laws::redo_returns;
