//! Reads the lines of a session, takes command lines apart, and makes messages of them.
//!
//! Crates above rely on: `read_message` returns the message with which the input begins (`Says`), and reads nothing beyond it. An input is
//! read in one way (`begins_one_way`). A put's body is dropped, but read, where its path or its size is not allowed.
#![tactic(auto)]

mod body;
mod command;
mod input;
mod laws;
mod message;
mod next;
mod parse;
mod stream;
mod word;

pub use body::{Body, read_body, skip};
pub use command::{Command, StateCommand};
pub use input::{InputFault, ReadLine, read_line};
pub use laws::begins_one_way;
pub use message::Message;
pub use next::{LineBuffer, Next, read_message};
pub use parse::parse_command;
pub use stream::{ByteSource, ReadFailed, Reading, Sink, WriteFailed, Writing};
pub use word::Word;
