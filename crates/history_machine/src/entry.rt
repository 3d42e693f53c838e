//! The entries of the journal: one for each event, with its outcome.
ghost use Rattle.std.specs.Prelude.{◌≡◌, ◌↔◌, IfOk, IsTrue};
ghost use Rattle.history_machine.specs.Kinds.{kind_name, reason_refusal};

use base_edits::EditSet;
use base_files::Refusal;
use base_packed::PackedSet;
use std::alloc::{AllocError, Global};
use std::marker::Model;
use std::sync::Arc;

/// The kind of an event.
#[derive(Clone, Copy, Debug, PartialEq, Eq)]
pub enum EntryKind {
    Look,
    Log,
    Commit,
    Undo,
    Redo,
    Take,
    Deliver,
    GiveBack,
}

impl EntryKind {
    /// The kind's name in the replies of a session.
    pub fn name(self) -> &'static str
        ensures { result.now ≡ kind_name self }
    {
        match self {
            EntryKind::Look => "look",
            EntryKind::Log => "log",
            EntryKind::Commit => "commit",
            EntryKind::Undo => "undo",
            EntryKind::Redo => "redo",
            EntryKind::Take => "take",
            EntryKind::Deliver => "deliver",
            EntryKind::GiveBack => "give",
        }
    }
}

/// Why an event that has an entry was refused. An event that is refused for want of memory, or of room in the journal, has no entry.
#[derive(Clone, Copy, Debug, PartialEq, Eq)]
pub enum Reason {
    Moved { current: u64 },
    NothingToUndo,
    NothingToRedo,
    Stale { current: u64 },
    Already,
    NoJob,
}

impl Reason {
    /// The refusal that this reason stands for in a reply.
    pub fn refusal(self) -> Refusal
        ensures { result ≡ reason_refusal self }
    {
        match self {
            Reason::Moved { current } => Refusal::Moved { current },
            Reason::NothingToUndo => Refusal::NothingToUndo,
            Reason::NothingToRedo => Refusal::NothingToRedo,
            Reason::Stale { current } => Refusal::Stale { current },
            Reason::Already => Refusal::Already,
            Reason::NoJob => Refusal::NoJob,
        }
    }
}

/// The outcome of an event. The number of `Done` is that of the state that was current after the event.
#[derive(Clone, Copy, Debug, PartialEq, Eq)]
pub enum Told {
    Done(u64),
    Refused(Reason),
}

/// What a log shows of an entry: its kind, its basis and its outcome.
#[derive(Clone, Copy, Debug, PartialEq, Eq)]
pub struct Line {
    pub kind: EntryKind,
    /// The number of the state that the event was based on. For a commit, an undo and a redo the client gives it; a delivery and a Job that
    /// is given back have the Job's number; any other event has the number of the current state.
    pub basis: u64,
    pub out: Told,
}

/// What a log shows of the entry of a number.
#[derive(Clone, Copy, Debug, PartialEq, Eq)]
pub enum ShownEntry {
    /// Its line.
    OfLine(Line),
    /// Its journal was closed. The current one begins with the entry of this number.
    Closed(u64),
    /// There is none yet.
    Unwritten,
}

/// The edits of a change, packed. A clone shares them.
pub struct SharedEdits {
    edits: Arc<PackedSet, Global>,
}

/// Written out, so that crates above call it and need no proof of how each part is dropped.
impl Drop for SharedEdits {
    fn drop(self) {
        let SharedEdits { edits } = self;
        drop(edits);
    }
}

impl Model for SharedEdits {
    ghost use Rattle.std.specs.Arc.{arc_value};
    ghost use Rattle.base_edits.specs.EditSet.{FileChanges};

    ghost Value = { FileChanges };

    ghost view = { λ a. arc_value a.edits };
}

impl SharedEdits {
    /// Packs an edit set, and moves it behind a shared pointer.
    pub(crate) fn new(alloc: Global, edits: EditSet) -> Result<SharedEdits, AllocError>
        ensures { IfOk result (λ shared. shared ≡ edits) }
    {
        let packed = PackedSet::new(alloc, &edits)?;
        let edits = Arc::new(alloc, packed)?;
        Ok(SharedEdits { edits })
    }

    /// Whether both are the same edits. Their texts are compared byte by byte.
    fn same(&self, other: &SharedEdits) -> bool
        ensures { IsTrue result ↔ (self.now ≡ other.now) }
    {
        self.edits.same(&other.edits)
    }
}

/// Whether both have the same edits, or none.
fn have_same_edits(one: &Option<SharedEdits>, other: &Option<SharedEdits>) -> bool
    ensures { IsTrue result ↔ (one.now ≡ other.now) }
{
    match (one, other) {
        (None, None) => true,
        (Some(edits), Some(others)) => edits.same(others),
        _ => false,
    }
}

impl Clone for SharedEdits {
    ghost is_clone = { λ shared copy. copy ≡ shared };

    fn clone(&self) -> Result<SharedEdits, AllocError> {
        let edits = Arc::try_clone(&self.edits)?;
        Ok(SharedEdits { edits })
    }
}

/// An entry of the journal: its line, its subject, and the edits of an admitted change. Of a workspace's files an entry has only those that
/// its change added. It lists no finished units: the files before and after a change determine which of them the change carries over.
pub struct Entry {
    pub line: Line,
    /// The number of the entry that a log asked for, or the ticket of the Job that was taken, delivered or given back.
    pub subject: Option<u64>,
    /// The edits of an admitted change.
    pub edits: Option<SharedEdits>,
}

/// Written out, so that crates above call it and need no proof of how each part is dropped.
impl Drop for Entry {
    fn drop(self) {
        let Entry {
            line: _,
            subject: _,
            edits,
        } = self;
        drop(edits);
    }
}

impl Clone for Entry {
    ghost is_clone = { λ entry copy. copy ≡ entry };

    fn clone(&self) -> Result<Entry, AllocError> {
        let edits = match &self.edits {
            Some(edits) => Some(edits.clone()?),
            None => None,
        };
        Ok(Entry {
            line: self.line,
            subject: self.subject,
            edits,
        })
    }
}

impl Entry {
    /// Whether both entries are equal in all their parts. Edits are compared text by text.
    pub fn same(&self, other: &Entry) -> bool
        ensures { IsTrue result ↔ (self.now ≡ other.now) }
    {
        self.line == other.line
            && self.subject == other.subject
            && have_same_edits(&self.edits, &other.edits)
    }
}
