//! Plans changes of one file: put and del.
ghost use Rattle.std.specs.Prelude.{◌≡◌, ◌≢◌, ◌↔◌, [], IsTrue, IfOk};
ghost use Rattle.std.specs.FinMap as map;
ghost use Rattle.base_edits.specs.Inverse.{dropped};
ghost use Rattle.workspace_snapshot.specs.Plan.{PlansPut, PlansDel, drop_changes, put_changes, del_changes};

use crate::change::ChangeKind;
use crate::fits::fits_limits;
use crate::made_change::MadeChange;
use crate::snapshot::Snapshot;
use base_edits::{EditSet, Edits, Fate, FileChange};
use base_files::{FileText, Files, Path, Refusal};
use std::alloc::{AllocError, Global};

/// Whether the file at the path exists and has the text.
pub fn has_text(files: &Files, path: &Path, text: &FileText) -> bool
    ensures { IsTrue result ↔ (map.get files.now path.now ≡ Some text.now) }
{
    match files.get(path) {
        Some(old) => *old == *text,
        None => false,
    }
}

/// The change that drops the file at a path.
fn dropping(alloc: Global, path: &Path) -> Result<FileChange, AllocError>
    ensures { IfOk result (λ change. change ≡ dropped (path.now, [])) }
{
    Ok(FileChange {
        path: path.clone()?,
        edits: Edits::new(Vec::new(alloc)),
        fate: Fate::Dropped,
    })
}

/// The edit set that drops the file at a path.
fn del_edits(alloc: Global, path: &Path) -> Result<EditSet, AllocError>
    ensures { IfOk result (λ edits. edits ≡ del_changes path.now) }
{
    let mut changed = Vec::new(alloc);
    changed.push(dropping(alloc, path)?)?;
    Ok(EditSet::new(changed, Vec::new(alloc)))
}

/// The change that drops the file at a path, if there is one; otherwise no change.
fn replacing(alloc: Global, files: &Files, path: &Path) -> Result<Vec<FileChange>, AllocError>
    ensures { IfOk result (λ changed. changed.items ≡ drop_changes (map.get files.now path.now) path.now) }
{
    let mut changed = Vec::new(alloc);
    if files.get(path).is_some() {
        changed.push(dropping(alloc, path)?)?;
    }
    Ok(changed)
}

/// The edit set that sets the text of the file at a path.
fn put_edits(
    alloc: Global,
    files: &Files,
    path: Path,
    text: FileText,
) -> Result<EditSet, AllocError>
    ensures { IfOk result (λ edits. edits ≡ put_changes files.now path text) }
{
    let changed = replacing(alloc, files, &path)?;
    let mut added = Vec::new(alloc);
    added.push((path, text))?;
    Ok(EditSet::new(changed, added))
}

/// The change of a snapshot that deletes the file at a path.
fn del_change(alloc: Global, snapshot: &Snapshot, path: &Path) -> Result<MadeChange, AllocError>
    requires { map.get snapshot.now.files path.now ≢ None }
    ensures { IfOk result (λ change. change ≡ record { base = snapshot.now.files; kind = ChangeKind.Del; edits = del_changes path.now; files = map.remove snapshot.now.files path.now }) }
{
    let edits = del_edits(alloc, path)?;
    MadeChange::of(alloc, snapshot, ChangeKind::Del, edits)
}

/// The change of a snapshot that sets the text of the file at a path.
fn put_change(
    alloc: Global,
    snapshot: &Snapshot,
    path: Path,
    text: FileText,
) -> Result<MadeChange, AllocError>
    ensures { IfOk result (λ change. change ≡ record { base = snapshot.now.files; kind = ChangeKind.Put; edits = put_changes snapshot.now.files path text; files = map.insert snapshot.now.files path text }) }
{
    let edits = put_edits(alloc, snapshot.files.files(), path, text)?;
    MadeChange::of(alloc, snapshot, ChangeKind::Put, edits)
}

/// Plans the deletion of the file at a path. Refuses with `BadPath` what is no path of at least two segments, and with `NoFile` a path
/// without a file.
pub fn plan_del(alloc: Global, snapshot: &Snapshot, path: &str) -> Result<MadeChange, Refusal>
    ensures { PlansDel snapshot.now path.now result }
{
    let path = Path::read(alloc, path, 2)?;
    if snapshot.files.files().get(&path).is_none() {
        return Err(Refusal::NoFile);
    }
    let change = del_change(alloc, snapshot, &path)?;
    Ok(change)
}

/// Plans to set the text of the file at a path. Refuses with `BadPath` what is no path of at least two segments, and with `Same` the text
/// that the file has. Refuses with `TooLarge` a change after which the files exceed a limit.
pub fn plan_put(
    alloc: Global,
    snapshot: &Snapshot,
    path: &str,
    text: FileText,
) -> Result<MadeChange, Refusal>
    ensures { PlansPut snapshot.now path.now text result }
{
    let path = Path::read(alloc, path, 2)?;
    if has_text(snapshot.files.files(), &path, &text) {
        return Err(Refusal::Same);
    }
    let change = put_change(alloc, snapshot, path, text)?;
    if !fits_limits(&snapshot.limits, &change.get().files) {
        return Err(Refusal::TooLarge);
    }
    Ok(change)
}
