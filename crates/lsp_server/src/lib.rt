//! The language server: a session with an editor over a book of its own.
//!
//! Crates above rely on: `serve_editor` serves one editor from initialize to exit. Behind each frame exactly the messages are written that pay
//! what it owes. The answer to a request is a command of a session (`converse_over`).
#![tactic(auto)]

mod book_desk;
mod serving;

pub use serving::serve_editor;
