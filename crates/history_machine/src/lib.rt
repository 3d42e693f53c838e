//! The history of a workspace as a machine: its states, its events, the entries of its journal, and its laws over every list of events.
//!
//! Crates above rely on: `Step` defines the reply to an event and the machine after it. The laws hold over every list of events: undo and
//! redo restore states, refusals change nothing, numbers are used once, and finished units are those of the current files.
#![tactic(auto)]

mod entry;
mod entry_edits;
mod event;
mod laws;
mod path_list;
mod resting;
mod seen_state;
mod state;
mod view;
mod waiting;

pub use entry::{Entry, EntryKind, Line, Reason, SharedEdits, ShownEntry, Told};
pub use entry_edits::{EntryEdits, entry_and_copy};
pub use event::{Event, Reply};
pub use laws::{
    finished_units_are_current, journals_are_legal, numbers_are_used_once, refusals_keep_all,
    undo_and_redo_restore,
};
pub use path_list::PathList;
pub use resting::Resting;
pub use seen_state::{HistoryView, SeenState, SeenStates};
pub use state::State;
pub use view::{KnownSnapshot, View};
pub use waiting::first_waiting;
