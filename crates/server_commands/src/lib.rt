//! Acts on the commands of a session, at a desk: a book of one's own, or a seat at a shared book. Answers are data.
//!
//! Crates above rely on: `act` answers a command by steps of the desk, as `Acts` says: a look, and at most the events that the command
//! needs. A change is planned on the view of its look alone. A `status` makes no event.
#![tactic(auto)]

mod acting;
mod desk;
mod numbers;
mod queries;
mod response;
mod working;

pub use acting::{
    act, commit, commit_planned, find, find_faults, find_uses, move_plan, rename_plan,
};
pub use desk::{Desk, Solo};
pub use numbers::{BookNumbers, ServerNumbers, book_numbers, edit_bytes, kept_behind};
pub use queries::{cat, object};
pub use response::{FaultList, Response};
