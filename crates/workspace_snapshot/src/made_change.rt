//! Changes whose files are what their edit sets make of the base, with the way back.
ghost use Rattle.std.specs.Prelude.{◌≡◌, IfOk};
ghost use Rattle.base_edits.specs.EditSet.{edited};
ghost use Rattle.base_edits.specs.Fits.{Fits};
ghost use Rattle.base_edits.specs.Inverse.{AreChanges, IsInverse};
ghost use Rattle.workspace_graph.specs.Borrows.{names};
ghost use Rattle.workspace_snapshot.specs.Made.{IsMadeByEdits};
ghost use Rattle.workspace_graph.specs.SameGoFiles.{DiffersOnlyAt};

use crate::change::{Change, ChangeKind};
use crate::named::named_paths;
use crate::snapshot::Snapshot;
use base_edits::{EditSet, FileChange, Inverse, Prepared, WayBack, prepare};
use base_files::{FileText, Files, Path};
use std::alloc::{AllocError, Global};
use std::marker::Model;
use workspace_graph::Graph;

/// A change whose edit set fits its base and makes its files, with the changes that lead back. Its value in contracts is the `Change` alone.
pub struct MadeChange {
    change: Change,
    back: WayBack,
}

/// Written out so that crates above need not prove again how each part is dropped.
impl Drop for MadeChange {
    fn drop(self) {
        let MadeChange { change, back } = self;
        drop(change);
        drop(back);
    }
}

impl Model for MadeChange {
    ghost use Rattle.workspace_snapshot.specs.contracts.change.Change.{the_row};
    ghost use Rattle.workspace_snapshot.specs.declared.change.Change.{Change};
    ghost use Rattle.base_edits.specs.Inverse.{IsInverse};
    ghost use Rattle.workspace_snapshot.specs.Made.{IsMadeByEdits};

    ghost Value = { Change };

    ghost coded = { the_row.coded };

    ghost view = { λ a. a.change };

    ghost invariant = { λ a. IsMadeByEdits a.change × IsInverse a.back a.change.files a.change.base };
}

/// The graph of the files after changes, made from the graph before them. Only files that the changes name are looked at. The text of one that
/// stays at its path is not compared with the one before: its edits are known.
fn graph_with(
    alloc: Global,
    base: &Graph,
    changed: &[FileChange],
    added: &[(Path, FileText)],
    files: Files,
) -> Result<Graph, AllocError>
    requires changes { AreChanges (record { changed = changed.now; added = added.now }) }
    requires fits { Fits (record { changed = changed.now; added = added.now }) base.now }
    requires files { files ≡ edited (record { changed = changed.now; added = added.now }) base.now }
    ensures { IfOk result (λ graph. graph ≡ files) }
{
    let paths = named_paths(alloc, changed, added)?;
    Graph::changed_by_edits(alloc, base, files, changed, &paths)
}

/// The graph of the files to which an inverse leads, made from the graph before it. Only files that the inverse names are looked at.
pub fn graph_after(
    alloc: Global,
    base: &Graph,
    way: &Inverse,
    files: Files,
) -> Result<Graph, AllocError>
    requires fits { Fits way.now base.now }
    requires files { files ≡ edited way.now base.now }
    ensures { IfOk result (λ graph. graph ≡ files) }
{
    graph_with(alloc, base, way.changed(), way.added(), files)
}

impl MadeChange {
    /// The change of a snapshot's files by an edit set. Only files with a new text are parsed.
    pub fn of(
        alloc: Global,
        snapshot: &Snapshot,
        kind: ChangeKind,
        edits: EditSet,
    ) -> Result<MadeChange, AllocError>
        requires { Fits edits snapshot.now.files }
        ensures { IfOk result (λ change. change ≡ record { base = snapshot.now.files; kind = kind; edits = edits; files = edited edits snapshot.now.files }) }
    {
        let base = &snapshot.files;
        let Prepared { files, inverse } = prepare(alloc, &edits, base.files())?;
        let back = inverse.set_aside();
        let files = graph_with(alloc, base, edits.changed(), edits.added(), files)?;
        let change = Change {
            base: base.clone()?,
            kind,
            edits,
            files,
        };
        Ok(MadeChange { change, back })
    }

    /// The change of a snapshot's files by the edit set of a change of some of them. Only Go files at the paths `left_out` may differ from those
    /// that this change makes. So only these are looked at, and no other is parsed again.
    pub fn widened(
        alloc: Global,
        snapshot: &Snapshot,
        part: MadeChange,
        left_out: &[&Path],
    ) -> Result<MadeChange, AllocError>
        requires fits { Fits part.edits snapshot.now.files }
        requires rest { DiffersOnlyAt (names left_out.now) part.files (edited part.edits snapshot.now.files) }
        ensures { IfOk result (λ change. change ≡ record { base = snapshot.now.files; kind = part.kind; edits = part.edits; files = edited part.edits snapshot.now.files }) }
    {
        let (part, _) = part.into_parts();
        let Change {
            kind,
            edits,
            files: before,
            ..
        } = part;
        let base = &snapshot.files;
        let Prepared { files, inverse } = prepare(alloc, &edits, base.files())?;
        let back = inverse.set_aside();
        let files = Graph::changed(alloc, &before, files, left_out)?;
        let change = Change {
            base: base.clone()?,
            kind,
            edits,
            files,
        };
        Ok(MadeChange { change, back })
    }

    /// The change.
    pub fn get(&self) -> &Change
        ensures { result.now ≡ self.now }
    {
        &self.change
    }

    /// The change, by value, and what leads from its files back to its base. Its edits make its files.
    pub fn into_parts(self) -> (Change, WayBack)
        ensures same { result.0 ≡ self }
        ensures made { IsMadeByEdits self }
        ensures back { IsInverse result.1 self.files self.base }
    {
        let MadeChange { change, back } = self;
        (change, back)
    }

    /// The paths of all files that the edit set names, some perhaps several times. Go files at other paths have the same text before and
    /// after the change.
    pub fn paths<'a>(&'a self, alloc: Global) -> Result<Vec<&'a Path>, AllocError>
        ensures { IfOk result (λ paths. DiffersOnlyAt (names paths.items) self.now.base self.now.files) }
    {
        let edits = &self.change.edits;
        named_paths(alloc, edits.changed(), edits.added())
    }
}
