//! The states of imported paths: whether a package is at each, and whether it may be imported.
ghost use Rattle.std.specs.Prelude.{◌≡◌, ℕ, List};
ghost use Rattle.types_declared.specs.States.{import_fault, state_in};

use base_files::FaultKind;
use std::alloc::Global;
use std::collections::BTreeMap;

/// The state of an imported path, as the importing package sees it: the first of these that applies.
#[derive(Clone, Copy, Debug, PartialEq, Eq)]
pub enum ImportState {
    /// There is no package at the path.
    Missing,
    /// The package at the path imports the importing package, directly or indirectly.
    OnCycle,
    /// The package at the path has faults.
    Faulty,
    /// The package at the path may be imported.
    Good,
}

impl ImportState {
    /// The kind of fault of an import whose path is in this state; none where the path is good.
    pub fn fault(self) -> Option<FaultKind>
        ensures { result ≡ import_fault self }
    {
        match self {
            ImportState::Missing => Some(FaultKind::Missing),
            ImportState::OnCycle => Some(FaultKind::Cycle),
            ImportState::Faulty => Some(FaultKind::Import),
            ImportState::Good => None,
        }
    }
}

/// The states of imported paths. A path without an entry is missing.
#[derive(Drop)]
pub struct ImportStates {
    pub states: BTreeMap<Vec<u8>, ImportState>,
}

impl ImportStates {
    /// A table without entries: every path is missing.
    pub fn new(alloc: Global) -> ImportStates
        ensures { (path : List ℕ) → state_in result path ≡ ImportState.Missing }
    {
        ImportStates {
            states: BTreeMap::new(alloc),
        }
    }

    /// The state of a path.
    pub fn state(&self, path: &[u8]) -> ImportState
        ensures { result ≡ state_in self.now path.now }
    {
        match self.states.get(path) {
            Some(state) => *state,
            None => ImportState::Missing,
        }
    }
}
