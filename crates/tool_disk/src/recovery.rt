//! Finishes or takes back a run that was cut off. While new texts are written beside their files, its journal lies at one path, and while they
//! are put in place at another. In the second case the run is finished, and in the first taken back.
ghost use Rattle.std.specs.Prelude.{◌≡◌, ◌↔◌, [], IfOk, IsTrue, MatchOption};
ghost use Rattle.tool_disk.specs.RunJournals.{AreUtf8, FindsRunOf, IsRunMark, ReadsRun};
ghost use Rattle.tool_text.specs.Journal.{bare_texts};

use crate::fault::{ToolFault, told};
use crate::paths::is_mark;
use crate::steps::{COMMIT, PREPARE, journal_there, lies_behind_link, remove_journal};
use crate::writing::{DiskRun, finish, remove_all_beside};
use base_files::{Path, Refusal};
use std::alloc::{AllocError, Global};
use std::rt::Files;
use tool_text::read_lines;

/// Whether a text is a path below the folder, and leads to no other place.
fn is_below<R: Files + AllocGlobal>(rt: &R, root: &str, path: &str) -> Result<bool, ToolFault> {
    match Path::read(rt.alloc(), path, 1) {
        Ok(_) => Ok(!lies_behind_link(rt, root, path)?),
        Err(Refusal::Memory) => Err(ToolFault::Memory),
        Err(_) => Ok(false),
    }
}

/// Whether a run moves no folder, or one below the folder to a path below it.
fn moves_below<R: Files + AllocGlobal>(
    rt: &R,
    root: &str,
    run: &DiskRun<'_>,
) -> Result<bool, ToolFault> {
    if run.from.is_empty() {
        Ok(run.to.is_empty())
    } else {
        Ok(is_below(rt, root, run.from)? && is_below(rt, root, run.to)?)
    }
}

/// Whether all paths of a run lie below the folder.
fn are_below<R: Files + AllocGlobal>(
    rt: &R,
    root: &str,
    run: &DiskRun<'_>,
) -> Result<bool, ToolFault> {
    for path in &run.paths {
        if !is_below(rt, root, *path)? {
            return Ok(false);
        }
    }
    moves_below(rt, root, run)
}

/// The texts of lines, or `None` where one is not UTF-8.
fn texts_of<'a>(alloc: Global, lines: &[&'a [u8]]) -> Result<Option<Vec<&'a str>>, AllocError>
    ensures { IfOk result (λ texts. MatchOption texts (AreUtf8 lines.now → ⊥) (λ texts. bare_texts texts.items ≡ bare_texts lines.now)) }
{
    let mut texts = Vec::new(alloc);
    for line in lines {
        match std::str::from_utf8(*line) {
            Ok(text) => texts.push(text)?,
            Err(_) => return Ok(None),
        }
    }
    Ok(Some(texts))
}

/// Whether these are the last parts of a whole journal: a mark, and nothing behind its line feed.
fn is_end(mark: &str, behind: &str) -> bool
    ensures { IsTrue result ↔ ((behind.now ≡ []) × IsRunMark mark.now) }
{
    behind.is_empty() && is_mark(mark)
}

/// The run whose journal has these parts, or `None` where they are not those of a whole one.
fn run_of(texts: Vec<&str>) -> Option<DiskRun<'_>>
    ensures { FindsRunOf (bare_texts texts.entry.items) result }
{
    let mut paths = texts;
    let behind = paths.pop()?;
    let mark = paths.pop()?;
    let to = paths.pop()?;
    let from = paths.pop()?;
    if is_end(mark, behind) {
        Some(DiskRun {
            from,
            to,
            mark,
            paths,
        })
    } else {
        None
    }
}

/// The run of a journal, or `None` where the text is not the whole of one.
fn read_run<'a>(alloc: Global, text: &'a [u8]) -> Result<Option<DiskRun<'a>>, AllocError>
    ensures { IfOk result (λ run. ReadsRun text.now run) }
{
    let lines = read_lines(alloc, text)?;
    let texts = texts_of(alloc, lines.as_slice())?;
    match texts {
        Some(texts) => Ok(run_of(texts)),
        None => Ok(None),
    }
}

/// The run of a journal all of whose paths lie below the folder, or `None` where the text is not the whole of one.
fn run_below<'a, R: Files + AllocGlobal>(
    rt: &R,
    root: &str,
    text: &'a [u8],
) -> Result<Option<DiskRun<'a>>, ToolFault> {
    match read_run(rt.alloc(), text)? {
        Some(run) => {
            if are_below(rt, root, &run)? {
                Ok(Some(run))
            } else {
                Ok(None)
            }
        }
        None => Ok(None),
    }
}

/// Notes what came of each file of a run that was cut off.
fn note_all(notes: &mut Vec<u8>, paths: &[&str], what: &str) -> Result<(), ToolFault> {
    for path in paths {
        notes.extend_from_slice(path.as_bytes())?;
        notes.extend_from_slice(what.as_bytes())?;
    }
    Ok(())
}

/// Finishes the run of this journal, which was cut off while new texts were put in place.
fn finish_run<R: Files + AllocGlobal>(
    rt: &R,
    root: &str,
    text: &[u8],
    notes: &mut Vec<u8>,
) -> Result<(), ToolFault> {
    let alloc = rt.alloc();
    let Some(run) = run_below(rt, root, text)? else {
        return Err(told(alloc, COMMIT, "this is no journal of a run: remove it"));
    };
    finish(rt, root, &run)?;
    let what = ": new: a run that was cut off is finished\n";
    note_all(notes, run.paths.as_slice(), what)
}

/// Takes back the run of this journal, which was cut off while new texts were written beside their files. A journal that is not whole was cut
/// off before the first of them was written.
fn take_back_run<R: Files + AllocGlobal>(
    rt: &R,
    root: &str,
    text: &[u8],
    notes: &mut Vec<u8>,
) -> Result<(), ToolFault> {
    if let Some(run) = run_below(rt, root, text)? {
        remove_all_beside(rt, root, &run)?;
        let what = ": old: a run that was cut off is taken back\n";
        note_all(notes, run.paths.as_slice(), what)?;
    }
    remove_journal(rt, root, PREPARE)
}

/// Finishes or takes back a run that was cut off, and notes which files are new and which are old.
pub fn recover<R: Files + AllocGlobal>(
    rt: &R,
    root: &str,
    notes: &mut Vec<u8>,
) -> Result<(), ToolFault> {
    if let Some(text) = journal_there(rt, root, COMMIT)? {
        finish_run(rt, root, text.as_slice(), notes)?;
    }
    match journal_there(rt, root, PREPARE)? {
        Some(text) => take_back_run(rt, root, text.as_slice(), notes),
        None => Ok(()),
    }
}

/// Refuses a folder in which this journal lies.
fn refuse_journal<R: Files + AllocGlobal>(rt: &R, root: &str, name: &str) -> Result<(), ToolFault> {
    match journal_there(rt, root, name)? {
        None => Ok(()),
        Some(_) => Err(told(
            rt.alloc(),
            name,
            "a run was cut off here, or is at work: `gorefd rename` and `gorefd move` finish it or take it back",
        )),
    }
}

/// Refuses a folder in which a run was cut off.
pub fn refuse_cut_off<R: Files + AllocGlobal>(rt: &R, root: &str) -> Result<(), ToolFault> {
    refuse_journal(rt, root, COMMIT)?;
    refuse_journal(rt, root, PREPARE)
}
