//! What is left to be built in a state.
ghost use Rattle.std.specs.Prelude.{◌↔◌, ℕ, IsTrue, List};
ghost use Rattle.history_machine.specs.Waiting.{IsWaiting};
ghost use Rattle.history_book.specs.WorkLeft.{AreAllFinished, IsFinishedAt, TakesOnlyJobs, TakesOrLacks};

use build_carry::Finished;
use build_unit::Out;
use history_machine::{State, first_waiting};

/// Whether a package of the state waits to be built.
pub(crate) fn has_package_waiting(state: &State, out: &Out, visit: u64) -> bool
    ensures { IsTrue result ↔ ((p : List ℕ) × IsWaiting state.now out.now visit p) }
{
    first_waiting(state, out, visit).is_some()
}

/// Whether the package of this number is finished.
fn is_finished(table: &Finished, number: usize) -> bool
    ensures { IsTrue result ↔ IsFinishedAt table.now number }
{
    table.get(number).is_some()
}

/// Whether each package of the state is finished. The search begins behind the finished packages at the front of the table.
pub(crate) fn are_all_finished(state: &State) -> bool
    ensures { IsTrue result ↔ AreAllFinished state.now }
{
    for number in state.finished.front()..state.files.len() {
        if !is_finished(&state.finished, number) {
            return false;
        }
    }
    true
}

/// A Take that has a Job is refused only for want of memory.
pub fn takes_or_lacks()
    ensures { TakesOrLacks }
{}

/// A Take that hands out a Job had one.
pub fn takes_only_jobs()
    ensures { TakesOnlyJobs }
{}
