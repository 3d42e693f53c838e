//! What requests of an editor ask of files, and what is told of them, over files alone.
//!
//! Crates above rely on: `request_in` reads a request (`request_in` of its definitions). `byte_asked` finds the byte that a position asks for.
//! `locations_of`, `highlights_of`, `place_told`, `prepared_at` and `faults_of` tell exactly what was found. `words_of` says why a request
//! failed, and where. `disk_tasks` and `document_tasks` say which texts a desk is to be given.
#![tactic(auto)]

mod asked_byte;
mod diagnostics;
mod fault;
mod folders;
mod locations;
mod requests;
mod text_tasks;

pub use asked_byte::{AskedByte, byte_asked};
pub use diagnostics::faults_of;
pub use fault::{AskFault, code_of, words_of};
pub use folders::folder_named;
pub use locations::{highlights_of, locations_of, name_from, place_told, prepared_at};
pub use requests::{ByteQuestion, EditorRequest, Way, request_in};
pub use text_tasks::{TextTask, disk_tasks, document_tasks};
