//! Serves a session: reads messages, has a desk answer them, and writes the answers as text.
//!
//! Crates above rely on: `session` writes the text of the replies to exactly the messages that it read, in order (`SessionEnds`). It
//! sends each reply before it waits for the next message. One step of it is `answer_next` and then `Outgoing::send` (`step_in_parts`). So a
//! caller may do something between the events of a message and its reply. `print_reply` writes the text of one reply and takes no memory.
//! The replies of a session over a book of its own are those of a run of the machine (`runs_the_machine`).
#![tactic(auto)]

mod conversing;
mod entries;
mod exchange;
mod laws;
mod lines;
mod memory;
mod outgoing;
mod output;
mod refusal;
mod written;

pub use conversing::{converse, session_alone};
pub use exchange::{Allowance, SessionFault, answer_next, session};
pub use laws::runs_the_machine;
pub use memory::transcript;
pub use outgoing::Outgoing;
pub use written::{WrittenReply, print_reply};
