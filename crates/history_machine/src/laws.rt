//! The laws of the history, over every list of events: each follows from the contract of `Book::step`.
ghost use Rattle.history_machine.specs.Current.{FinishedAreCurrent, StepsKeepUnits};
ghost use Rattle.history_machine.specs.Run.{
  UndoRestores,
  RedoRestores,
  MovesCursor,
  NumbersRise,
  NumbersArePositive,
  RefusalsKeepAll,
  RunsAddEntries,
  RunsAreLegal,
};

/// An admitted change followed by undo leaves everything as before, and redo restores the change.
pub fn undo_and_redo_restore()
    ensures undo { UndoRestores }
    ensures redo { RedoRestores }
    ensures cursor { MovesCursor }
{}

/// Each state's number is given to no later state.
pub fn numbers_are_used_once()
    ensures rise { NumbersRise }
    ensures fresh { NumbersArePositive }
{}

/// A refusal adds its entry to the journal. It changes nothing else, except that a delivery that is stale or already finished spends its
/// Job.
pub fn refusals_keep_all()
    ensures { RefusalsKeepAll }
{}

/// A run adds exactly the entries of its events to the journal, in their order. So the content after a run from the opening state is the
/// replay of its journal.
pub fn journals_are_legal()
    ensures entries { RunsAddEntries }
    ensures legal { RunsAreLegal }
{}

/// Each finished unit of each state is the unit of its package in the state's whole workspace, whatever is delivered and in whatever order.
pub fn finished_units_are_current()
    ensures steps { StepsKeepUnits }
    ensures always { FinishedAreCurrent }
{}
