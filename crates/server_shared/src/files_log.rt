//! The log of the files that were current. A seat that saw its end shows by a number that its files are the current ones.
ghost use Rattle.std.specs.Prelude.{◌≡◌, ◌↔◌, IfSome, IsTrue, Some, false};
ghost use Rattle.server_versions.specs.Growing.{IsLastVersion};
ghost use Rattle.server_shared.specs.SeenFiles.{MayChangeFiles};

use crate::opening::Opening;
use history_machine::{EntryKind, Line, Told};
use server_versions::{VersionLog, Versions};
use workspace_graph::Graph;

/// The log of a shared book, which is changed under its lock alone.
#[derive(Drop)]
pub struct FilesLog<L: Opening> {
    log: VersionLog<Graph, L>,
    pub seen: Versions<Graph, L>,
    /// Whether the current files are the last that were seen.
    pub is_seen: bool,
}

/// Whether the event of an entry may have changed the current files: a change, an undo or a redo that was done.
fn may_change_files(line: &Line) -> bool
    ensures { IsTrue result ↔ MayChangeFiles line.now.kind line.now.out }
{
    match (line.kind, line.out) {
        (EntryKind::Commit | EntryKind::Undo | EntryKind::Redo, Told::Done(_)) => true,
        _ => false,
    }
}

impl<L: Opening> FilesLog<L> {
    /// The log whose files so far these are. The current ones are not among them.
    pub fn new(log: VersionLog<Graph, L>, seen: Versions<Graph, L>) -> FilesLog<L>
        ensures { result.is_seen ≡ false }
    {
        FilesLog {
            log,
            seen,
            is_seen: false,
        }
    }

    /// Adds the current files to the log, unless it ends with them or is full.
    fn add(&mut self, files: &Graph)
        requires { IsTrue self.old.is_seen → IsLastVersion self.old.seen files.now }
        ensures { IsTrue self.new.is_seen → IsLastVersion self.new.seen files.now }
    {
        if self.is_seen {
            return;
        }
        if self.seen.has_room() {
            self.is_seen = self.seen.add(&self.log, files);
        }
    }

    /// A copy of what was seen, if it ends with the current files.
    fn copy(&self) -> Option<Versions<Graph, L>>
        ensures { IfSome result (λ v. IsTrue self.now.is_seen × (v ≡ self.now.seen)) }
    {
        if self.is_seen {
            Some(self.seen.again())
        } else {
            None
        }
    }

    /// What a seat is to see of the log, which ends with the current files. It is nothing where the log is full.
    pub fn show(&mut self, files: &Graph) -> Option<Versions<Graph, L>>
        requires { IsTrue self.old.is_seen → IsLastVersion self.old.seen files.now }
        ensures shown { IfSome result (λ v. IsLastVersion v files.now) }
        ensures here { IsTrue self.new.is_seen → IsLastVersion self.new.seen files.now }
    {
        self.add(files);
        self.copy()
    }

    /// Whether what was seen of the log ends with the current files. It compares two numbers.
    pub fn is_end(&self, seen: &Option<Versions<Graph, L>>) -> bool
        ensures { IsTrue result ↔ (IsTrue self.now.is_seen × (seen.now ≡ Some self.now.seen)) }
    {
        match seen {
            Some(seen) => self.is_seen && self.seen.is_same(seen),
            None => false,
        }
    }

    /// Passes the event of an entry, behind which the current files may be others.
    pub fn pass(&mut self, line: &Line)
        ensures seen { self.new.seen ≡ self.old.seen }
        ensures stays { IsTrue self.new.is_seen ↔ (IsTrue self.old.is_seen × ¬ (MayChangeFiles line.now.kind line.now.out)) }
    {
        self.is_seen = self.is_seen && !may_change_files(line);
    }
}
