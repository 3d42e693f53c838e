//! The laws of replays, as contracts of functions that do nothing.
ghost use Rattle.law_history.specs.Replays.{EntriesTellSteps, ReplaysAreUnique};

/// The entry of a step tells what the step makes of the content.
pub fn entries_tell_steps()
    ensures { EntriesTellSteps }
{}

/// A journal determines the content that is its replay.
pub fn replays_are_unique()
    ensures { ReplaysAreUnique }
{}
