//! Answers requests of an editor over a desk that has the texts which the disk and the open documents have.
//!
//! Crates above rely on: `DeskService` is the service of a session. Before each request the desk gets the texts that are open, and those on the
//! disk where these may have changed. Then the answer is the desk's (`AnswersMethod`). Published are faults that the desk finds.
#![tactic(auto)]

mod answering;
mod catching_up;
mod desk;
mod failure;
mod outcomes;
mod publishing;
mod service;

pub use desk::RequestDesk;
pub use service::DeskService;
