//! What a server tells of itself in numbers.
ghost use Rattle.std.specs.Prelude.{◌≡◌, ◌+◌};
ghost use Rattle.std.specs.Io.Iter.{u64_saturate};
ghost use Rattle.base_edits.specs.Moved.{added_by};
ghost use Rattle.server_commands.specs.Numbers.{AreNumbersOf, kept_with, bytes_put};
ghost use Rattle.workspace_snapshot.specs.Fits.{total_bytes};

use base_edits::{Edit, EditSet};
use base_files::{Files, Refusal};
use history_machine::KnownSnapshot;

/// What a book tells of itself in numbers.
#[derive(Clone, Copy)]
pub struct BookNumbers {
    /// The number of the current state.
    pub state: u64,
    /// The number of the first entry of the current chapter.
    pub chapter: u64,
    /// How many entries the journal has below its limit.
    pub left: u64,
    /// How many bytes the texts of all files have.
    pub bytes: u64,
}

/// What a server tells of itself in numbers.
#[derive(Clone, Copy)]
pub struct ServerNumbers {
    /// How many sessions are under way.
    pub sessions: u64,
    /// How many threads build packages.
    pub workers: u64,
    /// How many entries the journal has below the length at which its chapter is closed.
    pub due: u64,
    /// How many bytes the texts have that the changes of the chapter put into files.
    pub kept: u64,
    pub book: BookNumbers,
}

/// How many bytes the texts of all files have, or 2^64 - 1 where they have more.
fn text_bytes(files: &Files) -> u64
    ensures { result ≡ u64_saturate (total_bytes files.now) }
{
    let mut bytes: u64 = 0;
    for (_, text) in files.iter() {
        bytes = bytes.saturating_add(text.len() as u64);
    }
    bytes
}

/// What a book tells of itself whose current state this is, and whose chapter begins with the entry `chapter` and has so many entries.
pub fn book_numbers(snapshot: &KnownSnapshot, chapter: u64, entries: u64) -> BookNumbers
    ensures { AreNumbersOf snapshot.now chapter entries result }
{
    let shown = snapshot.get();
    BookNumbers {
        state: shown.number,
        chapter,
        left: shown.limits.journal.saturating_sub(entries),
        bytes: text_bytes(shown.files.files()),
    }
}

/// So many bytes, and those of the texts of edits, or 2^64 - 1 where these are more.
fn with_edits(before: u64, edits: &[Edit]) -> u64
    ensures { result ≡ u64_saturate (before + added_by edits.now) }
{
    let mut bytes = before;
    for edit in edits {
        bytes = bytes.saturating_add(edit.text.len() as u64);
    }
    bytes
}

/// How many bytes the texts have that an edit set puts into files, or 2^64 - 1 where they have more. The journal keeps them.
pub fn edit_bytes(set: &EditSet) -> u64
    ensures { result ≡ u64_saturate (bytes_put set.now) }
{
    let mut bytes: u64 = 0;
    for file in set.added() {
        bytes = bytes.saturating_add(file.1.len() as u64);
    }
    for change in set.changed() {
        bytes = with_edits(bytes, change.edits.as_slice());
    }
    bytes
}

/// How many bytes are kept behind a change that puts so many into files, where so many were before: the change has to be done.
pub fn kept_behind(kept: u64, bytes: u64, done: &Result<u64, Refusal>) -> u64
    ensures { result ≡ kept_with kept bytes done.now }
{
    match done {
        Ok(_) => kept.saturating_add(bytes),
        Err(_) => kept,
    }
}
