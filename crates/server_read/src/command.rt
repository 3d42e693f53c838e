//! The commands of a session, as their lines say them. A later command is a variant here, a case of each function in specs/Lines.antt but
//! `size_after`, and an arm in src/parse.rt. If it is about the current state, it is also a case of `command_basis` in specs/Commands.antt.
ghost use Rattle.std.specs.Prelude.{◌≡◌};

use crate::word::Word;
use base_files::FileText;

/// A command about the current state, which begins with a look. The basis of a change is the number of the state that the client
/// means it for.
#[derive(Drop)]
pub enum StateCommand<'a> {
    /// How many steps undo and redo can make.
    Look,
    /// Adds a file, or replaces its text. The line announces a body of `size` bytes, and `body` is `None` until these are read. It stays
    /// `None` where they are dropped: the word is no path of a file, or the body is over the limit of a file.
    Put {
        basis: u64,
        path: Word<'a>,
        size: u32,
        body: Option<FileText>,
    },
    /// Deletes a file.
    Del {
        basis: u64,
        path: Word<'a>,
    },
    /// Renames the identifier, or the import's path literal, at the offset in the file. The offset is that of any byte of it.
    Rename {
        basis: u64,
        path: Word<'a>,
        offset: usize,
        name: Word<'a>,
    },
    /// Moves a package's folder, with everything below it, to another path.
    Move {
        basis: u64,
        from: Word<'a>,
        to: Word<'a>,
    },
    Undo {
        basis: u64,
    },
    Redo {
        basis: u64,
    },
    /// The text of a file.
    Cat {
        path: Word<'a>,
    },
    /// The uses of the declaration that the identifier, or the import's path literal, at the offset in the file is bound to. The offset is
    /// that of any byte of it.
    Uses {
        path: Word<'a>,
        offset: usize,
    },
    /// All files, with their sizes.
    List,
    /// The faults of all files.
    Faults,
    /// The object of a package.
    Object {
        path: Word<'a>,
    },
    /// How the objects of all packages compare with those of the state with the number `basis`, which need not be the current one.
    Objects {
        basis: u64,
    },
    /// Builds one package in this session.
    Work,
}

impl StateCommand<'_> {
    ghost use Rattle.server_read.specs.Commands.{command_basis};

    /// The number that the current state must have for the command, or `None` where it may have any.
    pub fn basis(&self) -> Option<u64>
        ensures { result ≡ command_basis self.now }
    {
        match self {
            StateCommand::Put { basis, .. }
            | StateCommand::Del { basis, .. }
            | StateCommand::Rename { basis, .. }
            | StateCommand::Move { basis, .. }
            | StateCommand::Undo { basis }
            | StateCommand::Redo { basis } => Some(*basis),
            StateCommand::Look
            | StateCommand::Cat { .. }
            | StateCommand::Uses { .. }
            | StateCommand::List
            | StateCommand::Faults
            | StateCommand::Object { .. }
            | StateCommand::Objects { .. }
            | StateCommand::Work => None,
        }
    }
}

/// A command of a session, from its line to the desk. Its words are in the line that it was read from.
#[derive(Drop)]
pub enum Command<'a> {
    OnState(StateCommand<'a>),
    /// Waits until every package of the current state is finished.
    Wait,
    /// What the server tells of itself.
    Status,
    /// The line of an entry of the journal, by its number.
    Log { number: u64 },
}
