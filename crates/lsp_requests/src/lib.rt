//! Requests of an editor, each a command of a session at a desk or a plan on the view of a look.
//!
//! Crates above rely on: `put_disk` and `put_documents` give the desk the texts that lie on the disk and those that are open, by puts and dels
//! of a session. `answer` looks, and answers on what the look shows (`AnswersRequest`): a rename is committed, and its edits are told; undo and
//! redo step; all else leaves the desk as it is.
#![tactic(auto)]

mod answering;
mod declared;
mod faults;
mod moving;
mod preparing;
mod renaming;
mod sight;
mod taking_back;
mod texts;
mod uses;

pub use answering::answer;
pub use faults::{faults_now, words_now};
pub use texts::{documents_differ, put_disk, put_documents};
