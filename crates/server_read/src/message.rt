//! The messages of a session.
ghost use Rattle.std.specs.Prelude.{◌≡◌};

use crate::command::Command;

/// A message: a line of the input, with the bytes that it announces.
#[derive(Drop)]
pub enum Message<'a> {
    /// A command.
    Ask(Command<'a>),
    /// A line that is no command.
    Unknown,
    /// The input ended within the bytes that a line announced.
    CutShort,
}

impl Message<'_> {
    ghost use Rattle.server_read.specs.Last.{is_last};

    /// Whether the session ends after this message.
    pub fn is_last(&self) -> bool
        ensures { result ≡ is_last self.now }
    {
        match self {
            Message::CutShort => true,
            _ => false,
        }
    }
}
