//! Looks at the current state and at all states of the history.
ghost use Rattle.std.specs.Prelude.{◌≡◌, ◌++◌, map, IfOk, OnOk};
ghost use Rattle.history_machine.specs.Machine.{IsViewOf, seen_states};
ghost use Rattle.history_machine.specs.Resting.{seen_resting};
ghost use Rattle.history_machine.specs.Step.{AnswersOrLacks, looked};
ghost use Rattle.history_machine.specs.declared.event.Event.TheVariants.{Look};

use crate::content::Content;
use crate::reasons::refusal_told;
use crate::{Answered, Asked, Question};
use base_files::Refusal;
use history_machine::{Entry, EntryKind, HistoryView, Resting, SeenStates, Told, View};
use history_records::AskedChange;
use std::alloc::{AllocError, Global};

/// Asks for a view of the current state that shows all states of the history. It is a look.
#[derive(Clone, Copy)]
pub struct LookingBack;

/// Adds states at rest in their order.
fn add_states(shown: &mut SeenStates, states: &[Resting]) -> Result<(), AllocError>
    ensures { OnOk result (shown.new ≡ shown.old ++ map seen_resting states.now) }
{
    for state in states {
        shown.push(state.seen()?)?;
    }
    Ok(())
}

/// All states: those that undo reaches, the current one, and those that redo reaches.
fn all_states(alloc: Global, content: &Content) -> Result<SeenStates, AllocError>
    ensures { IfOk result (λ shown. shown ≡ seen_states content.now) }
{
    let history = &content.history;
    let mut shown = SeenStates::new(alloc);
    add_states(&mut shown, &history.earlier)?;
    shown.push(history.current.seen(alloc, history.earlier.last())?)?;
    add_states(&mut shown, &history.later)?;
    Ok(shown)
}

/// Adds all states of the history to a view of the current state.
fn with_states(content: &Content, view: View) -> Result<HistoryView, Refusal>
    requires { IsViewOf content.now view }
    ensures { AnswersOrLacks content.now Look (looked result) content.now }
{
    let shown = all_states(content.alloc, content)?;
    Ok(HistoryView::new(view, shown))
}

/// A view of the current state that shows all states of the history. All that it shows is shared.
fn look_back(content: &Content) -> Result<HistoryView, Refusal>
    ensures { AnswersOrLacks content.now Look (looked result) content.now }
{
    match content.look() {
        Ok(view) => with_states(content, view),
        Err(refusal) => Err(refusal),
    }
}

impl Question for LookingBack {
    type Answer = Result<HistoryView, Refusal>;

    ghost event = { λ _. Look };

    ghost reply = { looked };

    fn kind(&self) -> EntryKind {
        EntryKind::Look
    }

    fn change(&self) -> Option<AskedChange<'_>> {
        None
    }

    fn asked(&self, content: &Content) -> Asked {
        Asked::alone(EntryKind::Look, content.number())
    }

    fn ask(
        self,
        content: &mut Content,
        _journal: &[Entry],
    ) -> Answered<Result<HistoryView, Refusal>> {
        match look_back(content) {
            Ok(view) => {
                let out = Some(Told::Done(view.get().snapshot.number()));
                Answered::new(Ok(view), out, None)
            }
            Err(refusal) => {
                let out = refusal_told(&refusal);
                Answered::new(Err(refusal), out, None)
            }
        }
    }

    fn refuse(self, refusal: Refusal) -> Result<HistoryView, Refusal> {
        Err(refusal)
    }
}
