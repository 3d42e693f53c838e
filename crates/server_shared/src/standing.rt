//! What a shared book tells of itself.
use history_machine::KnownSnapshot;

/// What a shared book tells of itself, at one moment.
#[derive(Drop)]
pub struct Standing {
    /// The current state.
    pub snapshot: KnownSnapshot,
    /// The number of the first entry of the current chapter.
    pub begun: u64,
    /// How many entries the chapter has.
    pub entries: u64,
    /// How many entries the journal has below the length at which the chapter is closed.
    pub due: u64,
    /// How many bytes the texts have that the changes of the chapter put into files.
    pub kept: u64,
    /// How many sessions are under way.
    pub sessions: u64,
    /// How many workers there are.
    pub workers: u64,
}
