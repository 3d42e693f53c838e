//! The answers to commands: data, and no bytes of a reply.
ghost use Rattle.std.specs.Prelude.{◌≡◌};

use crate::numbers::ServerNumbers;
use base_files::{FileText, Refusal};
use history_machine::ShownEntry;
use history_objects::ComparedObjects;
use refs_uses::Places;
use std::marker::Model;
use types_expr::symbol::SharedPath;
use workspace_check::FileFault;
use workspace_graph::Graph;

/// A list of faults, each with its file.
#[derive(Drop)]
pub struct FaultList {
    items: Vec<FileFault>,
}

impl Model for FaultList {
    ghost use Rattle.std.specs.Prelude.{List};
    ghost use Rattle.workspace_check.specs.declared.fault.FileFault.{FileFault};

    ghost Value = { List FileFault };

    ghost view = { λ a. a.items.items };
}

impl FaultList {
    /// A list of these faults.
    pub fn new(items: Vec<FileFault>) -> FaultList
        ensures { result ≡ items.items }
    {
        FaultList { items }
    }

    /// The faults.
    pub fn as_slice(&self) -> &[FileFault]
        ensures { result.now ≡ self.now }
    {
        self.items.as_slice()
    }
}

/// The answer to a command. The number is that of the current state after the command.
#[derive(Drop)]
pub enum Response {
    /// The workspace was changed, or a wait is over.
    Done {
        number: u64,
    },
    /// How many steps undo and redo can make.
    Steps {
        number: u64,
        undo: usize,
        redo: usize,
    },
    /// The text of a file, or the object of a package.
    File {
        number: u64,
        text: FileText,
    },
    /// All files, as a graph that shares them.
    Listing {
        number: u64,
        files: Graph,
    },
    /// The places of the identifiers that are bound to one declaration.
    Places {
        number: u64,
        places: Places,
    },
    /// The faults of all files.
    Faults {
        number: u64,
        faults: FaultList,
    },
    /// All packages, each with how its object compares with that in another state.
    Objects {
        number: u64,
        objects: ComparedObjects,
    },
    /// What a log shows of an entry of the journal.
    Entry {
        number: u64,
        shown: ShownEntry,
    },
    /// What the server tells of itself.
    Status {
        numbers: ServerNumbers,
    },
    /// The path of the package that was built.
    Built {
        number: u64,
        package: SharedPath,
    },
    Refused {
        refusal: Refusal,
    },
}
