//! Sessions of the language server protocol: reads the messages of an editor, has a service answer them, and writes the answers.
//!
//! Crates above rely on: `converse` serves one editor from initialize to exit (`ConversesByFrames`). Behind each frame exactly the messages are
//! written that pay what it owes: each request has one answer with its id, made of what the service says, and what is no message an error.
//! Only exit and the end of the input end a session.
#![tactic(auto)]

mod conversing;
mod fault;
mod frames;
mod paying;
mod sending;
mod service;
mod turns;

pub use conversing::converse;
pub use fault::LspFault;
pub use service::{EditorService, ServiceAnswer, ServiceFault, ServiceResult};
