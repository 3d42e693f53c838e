//! A state of the history.
ghost use Rattle.std.specs.Prelude.{◌≡◌, IfOk};
ghost use Rattle.workspace_check.specs.Found.{KnowsVerdicts};
ghost use Rattle.history_machine.specs.Machine.{seen};
ghost use Rattle.history_machine.specs.Resting.{IsRestOf};

use crate::resting::{Resting, own_verdicts, paths_near};
use crate::seen_state::SeenState;
use crate::view::KnownSnapshot;
use base_files::Limits;
use build_carry::{Finished, learned_from};
use std::alloc::{AllocError, Global};
use std::marker::Model;
use workspace_check::{Known, SharedKnown};
use workspace_graph::Graph;
use workspace_snapshot::Snapshot;

/// A state: its number, its files, the units of its finished packages, and what is known of its packages. Contracts see all but what is
/// known.
pub struct State {
    pub number: u64,
    pub files: Graph,
    pub finished: Finished,
    pub known: SharedKnown,
}

/// Written out, so that crates above call it and need no proof of how each part is dropped.
impl Drop for State {
    fn drop(self) {
        let State {
            number: _,
            files,
            finished,
            known,
        } = self;
        drop(files);
        drop(finished);
        drop(known);
    }
}

impl Model for State {
    ghost use Rattle.std.specs.Prelude.{◌≡◌, length};
    ghost use Rattle.std.specs.Coded.{codes};
    ghost use Rattle.base_files.specs.Packages.{package_paths};
    ghost use Rattle.workspace_check.specs.Found.{KnowsVerdicts};
    ghost use Rattle.build_unit.specs.Codes.{unit_code, workspace_code};
    ghost use Rattle.history_machine.specs.State.{State};

    ghost Value = { State };

    ghost coded = { Prim.hlevel (codes, unit_code, workspace_code) };

    ghost view = { λ a. record { number = a.number; files = a.files; finished = a.finished } };

    ghost invariant = { λ a. (length a.finished ≡ length (package_paths a.files)) × KnowsVerdicts a.files a.known };
}

impl State {
    /// The state's number.
    pub fn number(&self) -> u64
        ensures { result ≡ self.now.number }
    {
        self.number
    }

    /// A snapshot of the state, with what is known of its packages. The files are shared, not copied.
    pub fn snapshot(&self, limits: Limits) -> Result<KnownSnapshot, AllocError>
        ensures { IfOk result (λ snapshot. snapshot ≡ record { number = self.now.number; limits = limits; files = self.now.files }) }
    {
        let files = self.files.clone()?;
        let known = self.known.clone()?;
        let snapshot = Snapshot {
            number: self.number,
            limits,
            files,
        };
        Ok(KnownSnapshot::new(snapshot, known))
    }

    /// What the state keeps at rest. The units and the verdicts are shared, and the paths of the packages with a state at rest that has the
    /// same.
    pub fn rest(&self, alloc: Global, near: Option<&Resting>) -> Result<Resting, AllocError>
        ensures { IfOk result (IsRestOf self.now) }
    {
        let packages = paths_near(alloc, &self.files, near)?;
        let finished = self.finished.clone()?;
        let known = own_verdicts(alloc, &self.files, self.known.get())?;
        Ok(Resting {
            number: self.number,
            packages,
            finished,
            known,
        })
    }

    /// The state as a view of the history shows it. The units are shared, and the paths of the packages with a state at rest that has the
    /// same.
    pub fn seen(&self, alloc: Global, near: Option<&Resting>) -> Result<SeenState, AllocError>
        ensures { IfOk result (λ shown. shown ≡ seen self.now) }
    {
        let packages = paths_near(alloc, &self.files, near)?;
        let finished = self.finished.clone()?;
        Ok(SeenState {
            number: self.number,
            packages,
            finished,
        })
    }

    /// Keeps the verdicts that were found in the workspace `files`, on the packages whose closures have the same texts in the state. What the
    /// state knows stays. For want of memory it learns nothing.
    pub fn learn(&mut self, alloc: Global, files: &Graph, found: &Known)
        requires { KnowsVerdicts files.now found.now }
        ensures { self.new ≡ self.old }
    {
        if let Ok(known) = learned_from(alloc, &self.files, &self.known, files, found) {
            self.known = known;
        }
    }

    /// Keeps the findings of the state's own packages. No file is compared.
    pub fn learn_own(&mut self, known: SharedKnown)
        requires { KnowsVerdicts self.old.files known }
        ensures { self.new ≡ self.old }
    {
        self.known = known;
    }
}
