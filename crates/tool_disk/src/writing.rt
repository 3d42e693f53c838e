//! Writes changed files so that each is old or new whatever happens. First a journal names the files. Then all new texts are written to files
//! beside the old ones, and flushed. When no file that was read has changed, the journal takes the name that says that all are written. Then
//! each new text takes the place of its file, and the folder that moves is renamed. When all this is flushed, the journal is removed.
//!
//! The names of the new texts have the mark of the run, which the journal names too. So a run finds its own new texts, and never those of
//! another run, also where that was cut off in a folder above.
ghost use Rattle.std.specs.Prelude.{ℕ, ◌≡◌, ◌≢◌, ◌↔◌, ◌++◌, ◌∷◌, [], IfOk, IsTrue, List, MatchOption, MatchResult, OnOk, nat_eq};
ghost use Rattle.std.specs.List.{starts_with};
ghost use Rattle.tool_disk.specs.RunJournals.{CanBeJournal, HaveLinePaths, LiesInFolder, journal_text, run_lines, texts_of_run};
ghost use Rattle.tool_disk.specs.Writes.{NotesOne, NotesPlaced, paths_of};
ghost use Rattle.tool_text.specs.Journal.{bare_texts};

use crate::fault::{ToolFault, at, told};
use crate::paths::{below, beside, folder_and_name};
use crate::steps::{
    COMMIT, PREPARE, is_free, is_later, lies_behind_link, next_mark, real_or_own_path, real_path,
    remove_journal, sync, sync_above, sync_folder, text_there, write_new,
};
use std::alloc::{AllocError, Global};
use std::fs;
use std::fs::Metadata;
use std::io::ErrorKind;
use std::rt::Files;
use tool_text::{is_line, push_lines};

/// A path below the folder, and a text.
#[derive(Clone, Copy)]
pub struct FileOf<'a> {
    pub path: &'a str,
    pub text: &'a [u8],
}

/// What a run is to write below a folder: the folder that moves and its new path, or two empty texts, the new texts, and the texts of all
/// files that were read.
#[derive(Clone, Copy)]
pub struct FolderWriting<'a> {
    pub root: &'a str,
    pub from: &'a str,
    pub to: &'a str,
    pub new: &'a [FileOf<'a>],
    pub read: &'a [FileOf<'a>],
}

/// What a run puts in place: the folder that moves and its new path, or two empty texts, and the paths of the files with new texts. Its mark is
/// in the names of the new texts.
#[derive(Drop)]
pub(crate) struct DiskRun<'a> {
    pub from: &'a str,
    pub to: &'a str,
    pub mark: &'a str,
    pub paths: Vec<&'a str>,
}

/// The paths of files.
fn paths<'a>(alloc: Global, files: &[FileOf<'a>]) -> Result<Vec<&'a str>, AllocError>
    ensures { IfOk result (λ paths. paths.items ≡ paths_of files.now) }
{
    let mut paths = Vec::new(alloc);
    for file in files {
        paths.push(file.path)?;
    }
    Ok(paths)
}

/// Whether the path of each file can stand in a journal.
fn all_lines(files: &[FileOf<'_>]) -> bool
    ensures { IsTrue result ↔ HaveLinePaths files.now }
{
    for file in files {
        if !is_line(file.path) {
            return false;
        }
    }
    true
}

/// The lines of the journal of a run: the paths of the files, the folder that moves, its new path, and the mark.
fn lines_of<'a>(alloc: Global, run: &DiskRun<'a>) -> Result<Vec<&'a str>, AllocError>
    ensures { IfOk result (λ lines. bare_texts lines.items ≡ run_lines (texts_of_run run.now)) }
{
    let mut lines = Vec::from_slice(alloc, run.paths.as_slice())?;
    lines.push(run.from)?;
    lines.push(run.to)?;
    lines.push(run.mark)?;
    Ok(lines)
}

/// The journal of a run.
fn journal_of(alloc: Global, run: &DiskRun<'_>) -> Result<Vec<u8>, AllocError>
    ensures { IfOk result (λ text. text.items ≡ journal_text (texts_of_run run.now)) }
{
    let lines = lines_of(alloc, run)?;
    let mut text = Vec::new(alloc);
    push_lines(&mut text, lines.as_slice())?;
    Ok(text)
}

/// Writes the journal of a run.
fn write_journal<R: Files + AllocGlobal>(
    rt: &R,
    root: &str,
    run: &DiskRun<'_>,
) -> Result<(), ToolFault> {
    let alloc = rt.alloc();
    let text = journal_of(alloc, run)?;
    let path = below(alloc, root, PREPARE)?;
    let written = write_new(rt, path.as_str(), text.as_slice(), None);
    at(alloc, PREPARE, written)?;
    at(alloc, PREPARE, sync(rt, path.as_str()))?;
    at(alloc, PREPARE, sync_folder(rt, path.as_str()))
}

/// Writes the new text of a file beside it, with its owner, group and permissions, and returns its real path.
fn write_beside<R: Files + AllocGlobal>(
    rt: &R,
    root: &str,
    run: &DiskRun<'_>,
    file: FileOf<'_>,
) -> Result<String, ToolFault> {
    let alloc = rt.alloc();
    let place = real_path(rt, root, file.path)?;
    let data = at(alloc, file.path, fs::metadata(rt, place.as_str()))?;
    let path = beside(alloc, place.as_str(), run.mark)?;
    let written = write_new(rt, path.as_str(), file.text, Some(&data));
    at(alloc, path.as_str(), written)?;
    Ok(path)
}

/// Flushes files by their real paths.
fn sync_files<R: Files + AllocGlobal>(rt: &R, paths: &[String]) -> Result<(), ToolFault> {
    for path in paths {
        at(rt.alloc(), path.as_str(), sync(rt, path.as_str()))?;
    }
    Ok(())
}

/// Flushes the folders of files by their real paths, so that the names in them stay. One is flushed once for files that follow one another, and
/// none that is gone.
fn sync_folders<R: Files + AllocGlobal>(rt: &R, paths: &[String]) -> Result<(), ToolFault> {
    let mut last = "";
    for path in paths {
        let (folder, _) = folder_and_name(path.as_str());
        if last != folder && !is_free(rt, folder, folder)? {
            at(rt.alloc(), folder, sync(rt, folder))?;
            last = folder;
        }
    }
    Ok(())
}

/// Removes the new text of a file, if the run has written it, and returns its real path.
fn remove_beside<R: Files + AllocGlobal>(
    rt: &R,
    root: &str,
    run: &DiskRun<'_>,
    path: &str,
) -> Result<String, ToolFault> {
    let alloc = rt.alloc();
    let place = real_or_own_path(rt, root, path)?;
    let path = beside(alloc, place.as_str(), run.mark)?;
    if !is_free(rt, path.as_str(), path.as_str())? {
        at(alloc, path.as_str(), fs::remove_file(rt, path.as_str()))?;
    }
    Ok(path)
}

/// Removes all new texts that a run has written, and that are not in place.
pub(crate) fn remove_all_beside<R: Files + AllocGlobal>(
    rt: &R,
    root: &str,
    run: &DiskRun<'_>,
) -> Result<(), ToolFault> {
    let mut removed = Vec::new(rt.alloc());
    for path in &run.paths {
        removed.push(remove_beside(rt, root, run, *path)?)?;
    }
    sync_folders(rt, removed.as_slice())
}

/// The fault of a file that changed since it was read.
fn changed_since(alloc: Global, path: &str) -> ToolFault {
    let why = "it changed since it was read, so no file is written";
    told(alloc, path, why)
}

/// Refuses a file whose text is not the one that was read.
fn refuse_changed<R: Files + AllocGlobal>(
    rt: &R,
    root: &str,
    file: FileOf<'_>,
) -> Result<(), ToolFault> {
    let alloc = rt.alloc();
    let place = below(alloc, root, file.path)?;
    let Some(text) = text_there(rt, file.path, place.as_str())? else {
        return Err(changed_since(alloc, file.path));
    };
    if text.as_slice() == file.text {
        Ok(())
    } else {
        Err(changed_since(alloc, file.path))
    }
}

/// Whether a file is gone, or was changed after another one.
fn is_gone_or_later<R: Files + AllocGlobal>(
    rt: &R,
    path: &str,
    place: &str,
    other: &Metadata,
) -> Result<bool, ToolFault> {
    Ok(is_free(rt, path, place)? || at(rt.alloc(), path, is_later(rt, place, other))?)
}

/// Whether a file changed, or went, after its new text was written beside it. It is old no longer where that text is not there.
fn has_changed<R: Files + AllocGlobal>(
    rt: &R,
    path: &str,
    place: &str,
    new: &str,
) -> Result<bool, ToolFault> {
    let alloc = rt.alloc();
    match fs::metadata(rt, new) {
        Err(error) if error.kind() == ErrorKind::NotFound => Ok(false),
        Err(error) => at(alloc, path, Err(error)),
        Ok(data) => is_gone_or_later(rt, path, place, &data),
    }
}

/// Refuses a file that changed after its new text was written beside it, by its path below the folder.
fn refuse_touched<R: Files + AllocGlobal>(
    rt: &R,
    root: &str,
    run: &DiskRun<'_>,
    path: &str,
) -> Result<(), ToolFault> {
    let alloc = rt.alloc();
    let place = real_path(rt, root, path)?;
    let new = beside(alloc, place.as_str(), run.mark)?;
    if has_changed(rt, path, place.as_str(), new.as_str())? {
        Err(changed_since(alloc, path))
    } else {
        Ok(())
    }
}

/// Refuses to have a new text take the place of a file that changed later.
fn refuse_later<R: Files + AllocGlobal>(
    rt: &R,
    path: &str,
    place: &str,
    new: &str,
) -> Result<(), ToolFault> {
    if has_changed(rt, path, place, new)? {
        let why =
            "the file whose new text this is has changed since: remove this, and that file stays";
        Err(told(rt.alloc(), new, why))
    } else {
        Ok(())
    }
}

/// Refuses a new path of a folder that may lead to another place.
fn refuse_elsewhere<R: Files + AllocGlobal>(
    rt: &R,
    writing: FolderWriting<'_>,
) -> Result<(), ToolFault> {
    if lies_behind_link(rt, writing.root, writing.to)? {
        let why = "a folder above it is a symbolic link";
        Err(told(rt.alloc(), writing.to, why))
    } else {
        Ok(())
    }
}

/// Refuses a new path of a folder at which something stands.
fn refuse_taken<R: Files + AllocGlobal>(rt: &R, root: &str, to: &str) -> Result<(), ToolFault> {
    let alloc = rt.alloc();
    let place = below(alloc, root, to)?;
    if to.is_empty() || is_free(rt, to, place.as_str())? {
        Ok(())
    } else {
        Err(told(alloc, to, "something stands there already"))
    }
}

/// What a text has behind this front, if it begins with it.
fn rest_after<'a>(text: &'a [u8], front: &[u8]) -> Option<&'a [u8]>
    ensures { MatchOption result ((rest : List ℕ) → text.now ≢ front.now ++ rest) (λ rest. text.now ≡ front.now ++ rest.now) }
{
    text.strip_prefix(front)
}

/// Whether a text begins with a slash.
fn is_slash_first(text: &[u8]) -> bool
    ensures { result ≡ starts_with nat_eq text.now (47 ∷ []) }
{
    text.starts_with(b"/".as_slice())
}

/// Whether a path lies in a folder.
fn lies_in(folder: &str, path: &str) -> bool
    ensures { IsTrue result ↔ LiesInFolder folder.now path.now }
{
    match rest_after(path.as_bytes(), folder.as_bytes()) {
        Some(rest) => is_slash_first(rest),
        None => false,
    }
}

/// Refuses a file of the folder that moves that is a symbolic link: it may lead elsewhere from there.
fn refuse_link<R: Files + AllocGlobal>(
    rt: &R,
    writing: FolderWriting<'_>,
    path: &str,
) -> Result<(), ToolFault> {
    if writing.from.is_empty() || !lies_in(writing.from, path) {
        return Ok(());
    }
    let alloc = rt.alloc();
    let place = below(alloc, writing.root, path)?;
    let data = at(alloc, path, fs::symlink_metadata(rt, place.as_str()))?;
    if data.is_symlink() {
        let why = "it is a symbolic link in the folder that moves";
        Err(told(alloc, path, why))
    } else {
        Ok(())
    }
}

/// Writes all new texts beside their files. Then flushes them, and their folders.
fn write_all_beside<R: Files + AllocGlobal>(
    rt: &R,
    writing: FolderWriting<'_>,
    run: &DiskRun<'_>,
) -> Result<(), ToolFault> {
    let mut written = Vec::new(rt.alloc());
    for file in writing.new {
        written.push(write_beside(rt, writing.root, run, *file)?)?;
    }
    sync_files(rt, written.as_slice())?;
    sync_folders(rt, written.as_slice())
}

/// Writes all new texts beside their files, and refuses all where a file that was read has changed.
fn prepare<R: Files + AllocGlobal>(
    rt: &R,
    writing: FolderWriting<'_>,
    run: &DiskRun<'_>,
) -> Result<(), ToolFault> {
    refuse_elsewhere(rt, writing)?;
    refuse_taken(rt, writing.root, writing.to)?;
    for file in writing.read {
        refuse_link(rt, writing, file.path)?;
    }
    write_all_beside(rt, writing, run)?;
    for file in writing.read {
        refuse_changed(rt, writing.root, *file)?;
    }
    for path in &run.paths {
        refuse_touched(rt, writing.root, run, *path)?;
    }
    Ok(())
}

/// Lets the journal say that all new texts are written.
fn commit<R: Files + AllocGlobal>(rt: &R, root: &str) -> Result<(), ToolFault> {
    let alloc = rt.alloc();
    let old = below(alloc, root, PREPARE)?;
    let new = below(alloc, root, COMMIT)?;
    at(alloc, PREPARE, fs::rename(rt, old.as_str(), new.as_str()))
}

/// Has a new text take the place of its file, if it has not yet, and returns the real path of the file.
fn put_in_place<R: Files + AllocGlobal>(
    rt: &R,
    root: &str,
    run: &DiskRun<'_>,
    path: &str,
) -> Result<String, ToolFault> {
    let alloc = rt.alloc();
    let place = real_or_own_path(rt, root, path)?;
    let new = beside(alloc, place.as_str(), run.mark)?;
    refuse_later(rt, path, place.as_str(), new.as_str())?;
    match fs::rename(rt, new.as_str(), place.as_str()) {
        Err(error) if error.kind() == ErrorKind::NotFound => Ok(place),
        Err(error) => at(alloc, path, Err(error)),
        Ok(()) => Ok(place),
    }
}

/// Gives the folder that moves its new path, if there is one. Nothing may stand there.
fn move_folder<R: Files + AllocGlobal>(
    rt: &R,
    root: &str,
    run: &DiskRun<'_>,
) -> Result<(), ToolFault> {
    if run.from.is_empty() {
        return Ok(());
    }
    refuse_taken(rt, root, run.to)?;
    let alloc = rt.alloc();
    let old = below(alloc, root, run.from)?;
    let new = below(alloc, root, run.to)?;
    let (parent, _) = folder_and_name(new.as_str());
    at(alloc, run.to, fs::create_dir_all(rt, parent))?;
    sync_above(rt, root, run.to)?;
    at(alloc, run.from, fs::rename(rt, old.as_str(), new.as_str()))
}

/// Whether the folder that moves has its new path, and the old one no longer.
fn has_moved<R: Files + AllocGlobal>(
    rt: &R,
    root: &str,
    run: &DiskRun<'_>,
) -> Result<bool, ToolFault> {
    if run.from.is_empty() {
        return Ok(false);
    }
    let alloc = rt.alloc();
    let from = below(alloc, root, run.from)?;
    let to = below(alloc, root, run.to)?;
    let is_old = at(alloc, run.from, fs::exists(rt, from.as_str()))?;
    Ok(!is_old && at(alloc, run.to, fs::exists(rt, to.as_str()))?)
}

/// Notes a path on a line.
fn note_path(done: &mut Vec<u8>, path: &str) -> Result<(), AllocError>
    ensures { OnOk result (done.new.items ≡ done.old.items ++ (path.now ++ 10 ∷ [])) }
{
    done.extend_from_slice(path.as_bytes())?;
    done.push(b'\n')?;
    Ok(())
}

/// Has a new text take the place of its file, notes the path, and returns the real one.
fn put_and_note<R: Files + AllocGlobal>(
    rt: &R,
    root: &str,
    place: (&DiskRun<'_>, &str),
    done: &mut Vec<u8>,
) -> Result<String, ToolFault>
    ensures { NotesOne place.entry.1.now done.old.items done.new.items result }
{
    let (run, path) = place;
    let real = put_in_place(rt, root, run, path)?;
    note_path(done, path)?;
    Ok(real)
}

/// Puts all new texts in place, and notes the path of each. Then flushes their folders.
fn put_all_in_place<R: Files + AllocGlobal>(
    rt: &R,
    root: &str,
    run: &DiskRun<'_>,
    done: &mut Vec<u8>,
) -> Result<(), ToolFault>
    ensures { NotesPlaced run.now.paths.items done.old.items done.new.items result }
{
    let mut places = Vec::new(rt.alloc());
    for path in &run.paths {
        places.push(put_and_note(rt, root, (run, *path), done)?)?;
    }
    sync_folders(rt, places.as_slice())
}

/// Puts all new texts in place, notes the path of each, and moves the folder that moves.
fn put_and_move<R: Files + AllocGlobal>(
    rt: &R,
    root: &str,
    run: &DiskRun<'_>,
    done: &mut Vec<u8>,
) -> Result<(), ToolFault>
    ensures { NotesPlaced run.now.paths.items done.old.items done.new.items result }
{
    put_all_in_place(rt, root, run, done)?;
    move_folder(rt, root, run)
}

/// Flushes the folders above both paths of the folder that has moved. Then the journal is removed.
fn settle<R: Files + AllocGlobal>(rt: &R, root: &str, run: &DiskRun<'_>) -> Result<(), ToolFault> {
    if !run.from.is_empty() {
        sync_above(rt, root, run.from)?;
        sync_above(rt, root, run.to)?;
    }
    remove_journal(rt, root, COMMIT)
}

/// Finishes a run that was cut off after all of its new texts were written.
pub(crate) fn finish<R: Files + AllocGlobal>(
    rt: &R,
    root: &str,
    run: &DiskRun<'_>,
) -> Result<(), ToolFault> {
    if !has_moved(rt, root, run)? {
        let mut done = Vec::new(rt.alloc());
        put_and_move(rt, root, run, &mut done)?;
    }
    settle(rt, root, run)
}

/// Takes back what was prepared. What cannot be removed is left to the next run.
fn take_back<R: Files + AllocGlobal>(rt: &R, root: &str, run: &DiskRun<'_>) {
    if remove_all_beside(rt, root, run).is_ok() {
        let _ = remove_journal(rt, root, PREPARE);
    }
}

/// Prepares what is to be written, or leaves all as it was.
fn prepare_or_take_back<R: Files + AllocGlobal>(
    rt: &R,
    writing: FolderWriting<'_>,
    run: &DiskRun<'_>,
) -> Result<(), ToolFault> {
    write_journal(rt, writing.root, run)?;
    let prepared = match prepare(rt, writing, run) {
        Ok(()) => commit(rt, writing.root),
        Err(fault) => Err(fault),
    };
    if prepared.is_err() {
        take_back(rt, writing.root, run);
    }
    prepared
}

/// Flushes the journal that says that all new texts are written.
fn sync_commit<R: Files + AllocGlobal>(rt: &R, root: &str) -> Result<(), ToolFault> {
    let alloc = rt.alloc();
    let path = below(alloc, root, COMMIT)?;
    at(alloc, COMMIT, sync_folder(rt, path.as_str()))
}

/// Whether all paths can stand in a journal.
fn can_be_journal(writing: FolderWriting<'_>) -> bool
    ensures { IsTrue result ↔ CanBeJournal writing.entry }
{
    all_lines(writing.new) && is_line(writing.from) && is_line(writing.to)
}

/// Refuses a path that cannot stand in a journal.
fn refuse_paths(alloc: Global, writing: FolderWriting<'_>) -> Result<(), ToolFault>
    ensures { MatchResult result (λ _. CanBeJournal writing.entry) (λ _. CanBeJournal writing.entry → ⊥) }
{
    if can_be_journal(writing) {
        Ok(())
    } else {
        Err(told(alloc, writing.root, "a path in it has a line feed"))
    }
}

/// Prepares a run, and makes it one that is finished whatever happens.
fn prepare_whole<R: Files + AllocGlobal>(
    rt: &R,
    writing: FolderWriting<'_>,
    run: &DiskRun<'_>,
) -> Result<(), ToolFault> {
    refuse_paths(rt.alloc(), writing)?;
    prepare_or_take_back(rt, writing, run)?;
    sync_commit(rt, writing.root)
}

/// Writes new texts with this mark, moves the folder that is to move, and notes the path of each file that has its new text.
fn write_marked<R: Files + AllocGlobal>(
    rt: &R,
    writing: FolderWriting<'_>,
    mark: &str,
    done: &mut Vec<u8>,
) -> Result<(), ToolFault>
    ensures { NotesPlaced (paths_of writing.entry.new.now) done.old.items done.new.items result }
{
    let run = DiskRun {
        from: writing.from,
        to: writing.to,
        mark,
        paths: paths(rt.alloc(), writing.new)?,
    };
    prepare_whole(rt, writing, &run)?;
    put_and_move(rt, writing.root, &run, done)?;
    settle(rt, writing.root, &run)
}

/// Writes new texts, moves the folder that is to move, and notes the path of each file that has its new text. Where it fails before all new
/// texts are written, all files are as they were. Where it fails later, the next run finishes it.
pub fn write_all<R: Files + AllocGlobal>(
    rt: &R,
    writing: FolderWriting<'_>,
    done: &mut Vec<u8>,
) -> Result<(), ToolFault>
    ensures { NotesPlaced (paths_of writing.entry.new.now) done.old.items done.new.items result }
{
    let mark = next_mark(rt, writing.root)?;
    write_marked(rt, writing, mark.as_str(), done)
}
