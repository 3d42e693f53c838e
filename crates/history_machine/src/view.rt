//! What a client sees of the current state: a snapshot, the finished units, how far undo and redo reach, and the states of the history if
//! it asks for them.
ghost use Rattle.std.specs.Prelude.{◌≡◌};
ghost use Rattle.workspace_check.specs.Found.{KnowsVerdicts};

use crate::seen_state::SeenStates;
use build_carry::Finished;
use std::marker::Model;
use workspace_check::{Known, SharedKnown};
use workspace_graph::Graph;
use workspace_snapshot::Snapshot;

/// A snapshot, with what is known of its packages. Contracts see the snapshot alone.
#[derive(Drop)]
pub struct KnownSnapshot {
    snapshot: Snapshot,
    known: SharedKnown,
}

impl Model for KnownSnapshot {
    ghost use Rattle.workspace_snapshot.specs.contracts.snapshot.Snapshot.{the_row};
    ghost use Rattle.workspace_snapshot.specs.declared.snapshot.Snapshot.{Snapshot};
    ghost use Rattle.workspace_check.specs.Found.{KnowsVerdicts};

    ghost Value = { Snapshot };

    ghost coded = { the_row.coded };

    ghost view = { λ a. a.snapshot };

    ghost invariant = { λ a. KnowsVerdicts a.snapshot.files a.known };
}

impl KnownSnapshot {
    /// A snapshot, with what is known of its packages.
    pub(crate) fn new(snapshot: Snapshot, known: SharedKnown) -> KnownSnapshot
        requires { KnowsVerdicts snapshot.files known }
        ensures { result ≡ snapshot }
    {
        KnownSnapshot { snapshot, known }
    }

    /// The snapshot.
    pub fn get(&self) -> &Snapshot
        ensures { result.now ≡ self.now }
    {
        &self.snapshot
    }

    /// The number of the snapshot's state.
    pub fn number(&self) -> u64
        ensures { result ≡ self.now.number }
    {
        self.snapshot.number
    }

    /// The snapshot's files.
    pub fn files(&self) -> &Graph
        ensures { result.now ≡ self.now.files }
    {
        &self.snapshot.files
    }

    /// What is known of the packages of the snapshot's files.
    pub fn known(&self) -> &Known
        ensures { KnowsVerdicts self.now.files result.now }
    {
        self.known.get()
    }
}

/// A snapshot, with the units of its finished packages, and how many steps undo and redo can make from it. A view that was asked for them
/// shows all states of the history.
#[derive(Drop)]
pub struct View {
    pub snapshot: KnownSnapshot,
    pub finished: Finished,
    pub undo: usize,
    pub redo: usize,
    pub history: Option<SeenStates>,
}
