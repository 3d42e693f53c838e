//! Messages of the language server protocol as bytes: header lines, bodies that are JSON-RPC calls, and frames of answers.
//!
//! Crates above rely on: `read_header` says what a header line is (`HeaderSays`). `call_in` says which call a JSON value makes (`call_made`),
//! where it makes none too. `owed_by` says what a call owes at a stage of a session. `frame` writes exactly the header and the text of a value.
//! `headers_of_frames` says that these headers are read.
#![tactic(auto)]

mod answers;
mod calls;
mod frames;
mod header;
pub mod laws;
mod stages;

pub use answers::{ErrorCode, error_answer, notification, request, result_answer};
pub use calls::{BodyFault, Call, call_in, read_json};
pub use frames::frame;
pub use header::{HeaderField, read_header};
pub use stages::{Owed, SessionStage, owed_by};
