//! The changes of a history: its commits, undos and redos that were done. They determine its states, their numbers and their order, whatever
//! else happened meanwhile. There is no code that runs.
//!
//! Crates above rely on: two histories with the same changes have the same states (`same_changes_same_states`). A history goes on with an
//! event, or where its journal is closed (`changes_go_on`).
#![tactic(auto)]

pub mod laws;
