//! The events of a book and the replies to them, as contracts name them. Code uses a question of one kind instead (`Question` of
//! history_book).
use crate::entry::ShownEntry;
use crate::view::View;
use base_files::Refusal;
use build_unit::{Built, Job};
use workspace_snapshot::MadeChange;

/// An event of a book. The number of a `Commit`, `Undo` or `Redo` is its basis: the state that the client believes to be current.
pub enum Event {
    /// Asks for a view of the current state.
    Look,
    /// Asks for the line of an entry of the journal, by its number.
    Log(u64),
    /// Asks for a change of the workspace. It is admitted where its basis is the current number and its base has the current files, byte
    /// for byte.
    Commit(u64, MadeChange),
    /// Makes the state before the current one current again.
    Undo(u64),
    /// Makes the state current again that the last undo left.
    Redo(u64),
    /// Asks for a Job of the first package that waits to be built.
    Take,
    /// Hands in what was built for a Job.
    Deliver(Job, Built),
    /// Hands a Job in that was not built.
    GiveBack(Job),
}

/// The reply to an event. The number of `Done` is that of the state that is current after the event. `Back` returns the Job, and what was
/// built, of a refused event: for want of memory or of room in the journal, or since the Job is not out.
pub enum Reply {
    Looked(View),
    /// The number of the current state, and what is shown of the entry.
    Logged(u64, ShownEntry),
    Done(u64),
    Taken(Job),
    Refused(Refusal),
    Back(Refusal, Job, Option<Built>),
}
