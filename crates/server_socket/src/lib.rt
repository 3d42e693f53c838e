//! The server on a Unix socket, over one shared book: threads that serve sessions, each at a seat, and threads that build packages.
//!
//! Crates above rely on: `session_at_seat` answers a session by calls at its seat alone (`ConversesAtSeat`). `serve` returns the length of
//! the journal only where its entries are exactly those of the receipts of all seats (`Serves`). Workers and sessions alone called there.
#![tactic(auto)]

mod fault;
mod held_path;
mod held_seats;
mod returned;
mod seat_desk;
mod serving;
mod session;
mod socket;
mod stopping;
mod threads;
mod turns;
mod under_way;

pub use fault::ServeFault;
pub use seat_desk::SeatDesk;
pub use serving::serve;
pub use session::{Connection, session_at_seat};
pub use stopping::{StopFault, stop};
