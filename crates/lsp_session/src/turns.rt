//! How far a session is, and whether it goes on.
use lsp_message::SessionStage;

/// How far a session is: its stage, and the id of the next request of the server.
#[derive(Clone, Copy, Debug, PartialEq, Eq)]
pub(crate) struct SessionProgress {
    pub stage: SessionStage,
    pub next_id: u64,
}

/// Whether the session goes on, or how it ended: orderly, or not.
#[derive(Clone, Copy, Debug, PartialEq, Eq)]
pub(crate) enum EditorTurn {
    GoesOn,
    Ended(bool),
}
