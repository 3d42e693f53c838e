//! A book that threads share: its lock, the seats with their receipts, the workers, the chapters, and the settling.
//!
//! Crates above rely on: `Locked::step` makes one step of the book, whose entry has the index of the receipt. `Shared::call` makes one such
//! step, and the seat keeps the receipt. `Shared::hand_in` takes the receipts of a seat at rest, and closes a chapter where it is due.
//! `FreeSeats` has as many seats as `Shared::new` was asked for, and `take` always has one where one is left. `settle` returns Ok exactly where
//! the receipts that were handed in are the entries of the last chapter. Each chapter before it was settled (`IsSettling`). `worker`
//! makes only the events of its turns, and in each turn hands in the Job that it took (`TakesTurn`). `Shared::standing` tells of a book as it is at
//! one moment (`TellsOfBook`).
#![tactic(auto)]

mod ahead;
mod caller;
mod chapters;
mod comparing;
mod files_log;
mod free_seats;
mod gate;
mod in_hand;
mod locked;
mod opening;
mod receipt;
mod seat;
mod settling;
mod shared;
mod standing;
mod work_turn;
mod working;

pub use ahead::{Ahead, Crew, NextStep, ShownState};
pub use caller::{AtSeat, Caller};
pub use chapters::Closing;
pub use files_log::FilesLog;
pub use free_seats::FreeSeats;
pub use gate::{Gate, OpenGate};
pub use locked::{Locked, is_news, may_wake, no_wake_is_missed, turn_away};
pub use opening::Opening;
pub use receipt::Receipt;
pub use seat::{Seat, jobs_after, reserve};
pub use settling::Unsettled;
pub use shared::Shared;
pub use standing::Standing;
pub use work_turn::WorkTurn;
pub use working::{turn, worker};
