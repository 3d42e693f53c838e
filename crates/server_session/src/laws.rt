//! The law of a session.
ghost use Rattle.server_session.specs.Laws.{RunsTheMachine, RunsUntilCutOff};

/// A session over a book is a run of the book's machine. The events of the run are those that the messages send. This is so also where the
/// writer fails.
pub fn runs_the_machine()
    ensures whole { RunsTheMachine }
    ensures cut { RunsUntilCutOff }
{}
