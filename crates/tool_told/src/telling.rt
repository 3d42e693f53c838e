//! Tells what came of plans as texts: places, faults, refusals, and the diffs of changes.
ghost use Rattle.std.specs.Prelude.{◌≡◌, ◌≤◌, ◌++◌, ℕ, List, length, min, IfOk, OnOk, Option};
ghost use Rattle.std.specs.Option.{option_copied};
ghost use Rattle.tool_told.specs.Telling.{
  IsChangeDiff,
  TellsFile,
  TellsFiles,
  detail_text,
  fault_text,
  faults_text,
  git_line,
  message_text,
  move_lines,
  moved_text,
  new_path_of,
  place_of,
  position_text,
  places_text,
  refusal_text,
  shown,
  source_of,
  told_at,
  words_at,
};

use crate::messages::message;
use base_edits::{Fate, FileChange};
use base_files::{FaultKind, Files, Path, Place, Refusal};
use std::alloc::{AllocError, Global};
use tool_text::{
    position_of, push_diff, push_fault_words, push_located, push_told, without_prefix,
};
use workspace_check::FileFault;

/// How places are told: the files that they lie in, and what stands before the folder in their paths.
#[derive(Clone, Copy)]
pub struct Naming<'a> {
    pub files: &'a Files,
    pub prefix: &'a str,
}

/// What was asked for: the word that is told where there is no place, and the place, if there is one.
#[derive(Clone, Copy)]
pub struct AskedFor<'a> {
    pub word: &'a [u8],
    pub place: Option<&'a Place>,
}

/// A path as it is told: without what stands before the folder.
pub fn shown_path<'a>(prefix: &str, path: &'a Path) -> &'a str
    ensures { result.now ≡ shown prefix.now path.now }
{
    without_prefix(prefix, path.as_str())
}

/// The text of a file, or no bytes where there is no file.
pub(crate) fn source<'a>(files: &'a Files, path: &Path) -> &'a [u8]
    ensures { result.now ≡ source_of files.now path.now }
{
    match files.get(path) {
        Some(text) => text.bytes(),
        None => b"",
    }
}

/// Appends a place: `path:line:column`.
fn push_place(text: &mut Vec<u8>, naming: Naming<'_>, place: &Place) -> Result<(), AllocError>
    ensures { OnOk result (text.new.items ≡ text.old.items ++ position_text naming.entry place.now) }
{
    let source = source(naming.files, &place.path);
    let offset = place.offset.min(source.len());
    let path = shown_path(naming.prefix, &place.path).as_bytes();
    push_located(text, path, position_of(source, offset))
}

/// Appends places, each on a line.
pub fn push_places(
    text: &mut Vec<u8>,
    naming: Naming<'_>,
    places: &[Place],
) -> Result<(), AllocError>
    ensures { OnOk result (text.new.items ≡ text.old.items ++ places_text naming.entry places.now) }
{
    for place in places {
        push_place(text, naming, place)?;
        text.push(b'\n')?;
    }
    Ok(())
}

/// Appends what is told of a fault of a kind at a place.
fn push_words_at(
    text: &mut Vec<u8>,
    naming: Naming<'_>,
    place: &Place,
    kind: FaultKind,
) -> Result<(), AllocError>
    ensures { OnOk result (text.new.items ≡ text.old.items ++ words_at naming.entry place.now kind) }
{
    let source = source(naming.files, &place.path);
    let offset = place.offset.min(source.len());
    push_fault_words(text, kind, &source[offset..])
}

/// Appends a fault: its place and what is told of it, on a line.
fn push_fault(text: &mut Vec<u8>, naming: Naming<'_>, fault: &FileFault) -> Result<(), AllocError>
    ensures { OnOk result (text.new.items ≡ text.old.items ++ fault_text naming.entry fault.now) }
{
    push_place(text, naming, &fault.place)?;
    text.extend_from_slice(b": ")?;
    push_words_at(text, naming, &fault.place, fault.kind)?;
    text.extend_from_slice(b"\n")
}

/// Appends faults, each on a line.
pub fn push_faults(
    text: &mut Vec<u8>,
    naming: Naming<'_>,
    faults: &[FileFault],
) -> Result<(), AllocError>
    ensures { OnOk result (text.new.items ≡ text.old.items ++ faults_text naming.entry faults.now) }
{
    for fault in faults {
        push_fault(text, naming, fault)?;
    }
    Ok(())
}

/// Appends a sentence about a place, with its line.
fn push_told_at(
    text: &mut Vec<u8>,
    naming: Naming<'_>,
    place: &Place,
    message: &[u8],
) -> Result<(), AllocError>
    ensures { OnOk result (text.new.items ≡ text.old.items ++ told_at naming.entry place.now message.now) }
{
    let source = source(naming.files, &place.path);
    let offset = place.offset.min(source.len());
    let path = shown_path(naming.prefix, &place.path).as_bytes();
    push_told(text, path, source, offset, message)
}

/// Appends what is told of a fault that refuses, or the place of what captures.
fn push_detail(text: &mut Vec<u8>, naming: Naming<'_>, refusal: &Refusal) -> Result<(), AllocError>
    ensures { OnOk result (text.new.items ≡ text.old.items ++ detail_text naming.entry refusal.now) }
{
    match refusal {
        Refusal::Faulty { place, kind } => push_words_at(text, naming, place, *kind),
        Refusal::Captured {
            used: _,
            by: Some(by),
        } => push_place(text, naming, by),
        _ => Ok(()),
    }
}

/// What is told of a refusal, with what is told of a fault or the place of what captures.
fn message_text(alloc: Global, naming: Naming<'_>, refusal: &Refusal) -> Result<Vec<u8>, AllocError>
    ensures { IfOk result (λ text. text.items ≡ message_text naming.entry refusal.now) }
{
    let mut text = Vec::from_slice(alloc, message(refusal).as_bytes())?;
    push_detail(&mut text, naming, refusal)?;
    Ok(text)
}

/// The place that a refusal names, or else the one that was asked for.
fn place_of<'a>(refusal: &'a Refusal, asked: Option<&'a Place>) -> Option<&'a Place>
    ensures { option_copied result ≡ place_of refusal.now (option_copied asked.entry) }
{
    match refusal {
        Refusal::Faulty { place, kind: _ } => Some(place),
        Refusal::Captured { used, by: _ } => Some(used),
        Refusal::Lost { used } => Some(used),
        Refusal::Coupled { place } => Some(place),
        _ => asked,
    }
}

/// Appends what is told of a refusal: a sentence about its place, or about the word that was asked for.
pub fn push_refusal(
    alloc: Global,
    text: &mut Vec<u8>,
    naming: Naming<'_>,
    asked: AskedFor<'_>,
    refusal: &Refusal,
) -> Result<(), AllocError>
    ensures { OnOk result (text.new.items ≡ text.old.items ++ refusal_text naming.entry asked.entry.word.now (option_copied asked.entry.place) refusal.now) }
{
    let message = message_text(alloc, naming, refusal)?;
    match place_of(refusal, asked.place) {
        Some(place) => push_told_at(text, naming, place, message.as_slice()),
        None => {
            text.extend_from_slice(asked.word)?;
            text.extend_from_slice(b": ")?;
            text.extend_from_slice(message.as_slice())?;
            text.extend_from_slice(b"\n")
        }
    }
}

/// The path of a changed file behind the change.
pub fn new_path_of(change: &FileChange) -> &Path
    ensures { result.now ≡ new_path_of change.now }
{
    match &change.fate {
        Fate::Moves(path) => path,
        Fate::Stays | Fate::Dropped => &change.path,
    }
}

/// Appends the line with both paths with which `git` begins the diff of a file that moves.
fn push_git_line(text: &mut Vec<u8>, old_path: &[u8], new_path: &[u8]) -> Result<(), AllocError>
    ensures { OnOk result (text.new.items ≡ text.old.items ++ git_line old_path.now new_path.now) }
{
    text.extend_from_slice(b"diff --git a/")?;
    text.extend_from_slice(old_path)?;
    text.extend_from_slice(b" b/")?;
    text.extend_from_slice(new_path)?;
    text.extend_from_slice(b"\n")
}

/// Appends the lines that say from which path to which a file moves.
fn push_move_lines(text: &mut Vec<u8>, old_path: &[u8], new_path: &[u8]) -> Result<(), AllocError>
    ensures { OnOk result (text.new.items ≡ text.old.items ++ move_lines old_path.now new_path.now) }
{
    text.extend_from_slice(b"rename from ")?;
    text.extend_from_slice(old_path)?;
    text.extend_from_slice(b"\nrename to ")?;
    text.extend_from_slice(new_path)?;
    text.extend_from_slice(b"\n")
}

/// Appends the paths of a file that moves, as `git` writes them.
fn push_moved(
    text: &mut Vec<u8>,
    change: &FileChange,
    old_path: &[u8],
    new_path: &[u8],
) -> Result<(), AllocError>
    ensures { OnOk result (text.new.items ≡ text.old.items ++ moved_text change.now.fate old_path.now new_path.now) }
{
    match &change.fate {
        Fate::Stays | Fate::Dropped => Ok(()),
        Fate::Moves(_) => {
            push_git_line(text, old_path, new_path)?;
            push_move_lines(text, old_path, new_path)
        }
    }
}

/// Appends the diff of two texts, or nothing where they are the same.
fn push_change_of(
    alloc: Global,
    text: &mut Vec<u8>,
    old: (&[u8], &[u8]),
    new: (&[u8], &[u8]),
) -> Result<(), AllocError>
    ensures { OnOk result ((diff : List ℕ) × IsChangeDiff old.entry.0.now new.entry.0.now old.entry.1.now new.entry.1.now diff × (text.new.items ≡ text.old.items ++ diff)) }
{
    if old.1 == new.1 {
        Ok(())
    } else {
        push_diff(alloc, text, old, new)
    }
}

/// Appends the diff of a changed file.
fn push_file_change(
    alloc: Global,
    text: &mut Vec<u8>,
    naming: Naming<'_>,
    after: &Files,
    change: &FileChange,
) -> Result<(), AllocError>
    ensures { OnOk result ((told : List ℕ) × TellsFile naming.entry after.now change.now told × (text.new.items ≡ text.old.items ++ told)) }
{
    let path = new_path_of(change);
    let old_path = shown_path(naming.prefix, &change.path).as_bytes();
    let new_path = shown_path(naming.prefix, path).as_bytes();
    let old = source(naming.files, &change.path);
    let new = source(after, path);
    push_moved(text, change, old_path, new_path)?;
    push_change_of(alloc, text, (old_path, old), (new_path, new))
}

/// Appends the diffs of all changed files, in the order of their paths before the change.
pub fn push_change(
    alloc: Global,
    text: &mut Vec<u8>,
    naming: Naming<'_>,
    after: &Files,
    changes: &[FileChange],
) -> Result<(), AllocError>
    ensures { OnOk result ((told : List ℕ) × TellsFiles naming.entry after.now changes.now told × (text.new.items ≡ text.old.items ++ told)) }
{
    for change in changes {
        push_file_change(alloc, text, naming, after, change)?;
    }
    Ok(())
}
