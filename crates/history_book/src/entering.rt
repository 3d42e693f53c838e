//! Adds entries to the journal.
ghost use Rattle.std.specs.Prelude.{◌≡◌, ◌+◌, ◌++◌, ◌∷◌, ◌≤◌, [], length, vec_capacity};

use history_machine::{Entry, EntryEdits, Line, entry_and_copy};

/// Adds an entry to the journal, which has room for it, and returns a copy of the entry.
pub fn add_entry(
    journal: &mut Vec<Entry>,
    line: Line,
    subject: Option<u64>,
    made: Option<EntryEdits>,
) -> Entry
    requires { length journal.old.items + 1 ≤ vec_capacity journal.old }
    ensures copy { result ≡ record { line = line; subject = subject; edits = made } }
    ensures journal { journal.new.items ≡ journal.old.items ++ result ∷ [] }
    ensures capacity { vec_capacity journal.new ≡ vec_capacity journal.old }
{
    let (entry, copy) = entry_and_copy(line, subject, made);
    journal.push_reserved(entry);
    copy
}
