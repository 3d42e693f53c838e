//! The law of the lines of a session: an input is read in one way.
ghost use Rattle.server_read.specs.Laws.{BeginsOneWay, ReadsOneWay};

/// An input has one first message at most, and one list of messages up to its end.
pub fn begins_one_way()
    ensures first { BeginsOneWay }
    ensures all { ReadsOneWay }
{}
