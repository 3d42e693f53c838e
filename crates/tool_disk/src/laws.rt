//! The law of journals.
ghost use Rattle.tool_disk.specs.RunJournals.{JournalsAreRead};

/// A journal is read as the run of which it was written, and as no other.
pub fn journals_are_read()
    ensures { JournalsAreRead }
{}
