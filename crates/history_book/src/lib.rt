//! The book of a workspace's history: its content, its journal, and the questions that change and read it.
//!
//! Crates above rely on: `Book::step` makes one step of the machine of `history_machine`, whatever the question. Its contract, `Step`, says
//! which reply comes and which state follows. A `Question` is one event, and the type of its answers determines the replies that it may
//! get. Each book is what its events made of the opening state, whatever journals were closed; where none was, its content is the replay of its
//! journal.
#![tactic(auto)]

mod answering;
mod asking;
mod book;
mod changing;
mod content;
mod deliveries;
mod entering;
mod following;
mod fresh;
mod handed;
mod handing;
mod learning;
mod looking_back;
mod question;
mod reasons;
mod states;
mod work_left;

pub use answering::{answer, enter};
pub use asking::{Logging, Looking, Taking};
pub use book::Book;
pub use changing::Changing;
pub use content::Content;
pub use entering::add_entry;
pub use fresh::{fresh_number, number_of};
pub use handed::Handed;
pub use handing::HandingIn;
pub use looking_back::LookingBack;
pub use question::{Answered, Asked, Question};
pub use states::States;
pub use work_left::{takes_only_jobs, takes_or_lacks};
