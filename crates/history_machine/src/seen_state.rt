//! The states of a history, as a view shows them.
ghost use Rattle.std.specs.Prelude.{◌≡◌, ◌++◌, [], ◌∷◌, Some, OnOk};
ghost use Rattle.history_machine.specs.Machine.{ShowsHistory};

use crate::path_list::PathList;
use crate::view::View;
use build_carry::Finished;
use std::alloc::{AllocError, Global};
use std::marker::Model;

/// A state as a view shows it: its number, the paths of its packages, and their units as far as they are finished. All are shared.
#[derive(Drop)]
pub struct SeenState {
    pub number: u64,
    pub packages: PathList,
    pub finished: Finished,
}

/// States of a history.
#[derive(Drop)]
pub struct SeenStates {
    items: Vec<SeenState>,
}

impl Model for SeenStates {
    ghost use Rattle.std.specs.Prelude.{List};
    ghost use Rattle.std.specs.Coded.{codes};
    ghost use Rattle.build_unit.specs.Codes.{unit_code};
    ghost use Rattle.history_machine.specs.declared.seen_state.SeenState.{SeenState};

    ghost Value = { List SeenState };

    ghost coded = { Prim.hlevel (codes, unit_code) };

    ghost view = { λ a. a.items.items };
}

impl SeenStates {
    /// No states.
    pub fn new(alloc: Global) -> SeenStates
        ensures { result ≡ [] }
    {
        SeenStates {
            items: Vec::new(alloc),
        }
    }

    /// Adds a state behind the others.
    pub fn push(&mut self, state: SeenState) -> Result<(), AllocError>
        ensures { OnOk result (self.new ≡ self.old ++ state ∷ []) }
    {
        self.items.push(state)?;
        Ok(())
    }

    /// The states.
    pub fn as_slice(&self) -> &[SeenState]
        ensures { result.now ≡ self.now }
    {
        self.items.as_slice()
    }
}

impl View {
    /// The states of the history, of a view that shows them.
    pub fn states(&self) -> &[SeenState]
        requires { ShowsHistory self.now }
        ensures { self.now.history ≡ Some result.now }
    {
        match &self.history {
            Some(states) => states.as_slice(),
            None => unreachable!(),
        }
    }
}

/// A view that shows all states of the history.
#[derive(Drop)]
pub struct HistoryView {
    view: View,
}

impl Model for HistoryView {
    ghost use Rattle.history_machine.specs.contracts.view.View.{the_row};
    ghost use Rattle.history_machine.specs.declared.view.View.{View};
    ghost use Rattle.history_machine.specs.Machine.{ShowsHistory};

    ghost Value = { View };

    ghost coded = { the_row.coded };

    ghost view = { λ a. a.view };

    ghost invariant = { λ a. ShowsHistory a.view };
}

impl HistoryView {
    /// The view, with these states of the history.
    pub fn new(view: View, states: SeenStates) -> HistoryView
        ensures { result ≡ record view { history = Some states } }
    {
        let View {
            snapshot,
            finished,
            undo,
            redo,
            history: _,
        } = view;
        HistoryView {
            view: View {
                snapshot,
                finished,
                undo,
                redo,
                history: Some(states),
            },
        }
    }

    /// The view.
    pub fn get(&self) -> &View
        ensures view { result.now ≡ self.now }
        ensures shows { ShowsHistory self.now }
    {
        &self.view
    }
}
