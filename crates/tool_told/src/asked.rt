//! The bytes that words of places name in the files of a folder.
ghost use Rattle.std.specs.Prelude.{◌≡◌, IfOk, MatchOption, string_bytes};
ghost use Rattle.base_files.specs.Path.{IsPath};
ghost use Rattle.std.specs.Option.{option_copied};
ghost use Rattle.tool_told.specs.Asked.{FindsOffset, FindsText, NamesPlace, path_below};

use base_files::{FileText, Files, Path, Refusal};
use std::alloc::{AllocError, Global};
use tool_text::{Spot, offset_of, plain_path, read_place};

/// What a word of a place names: no place, a position that its file does not have, or a byte of a file by its path in the workspace.
#[derive(Drop)]
pub enum NamedPlace {
    NoPlace,
    NoPosition,
    Byte { path: String, offset: usize },
}

/// The path in the workspace of a path below the folder.
pub fn path_below(alloc: Global, prefix: &str, path: &str) -> Result<String, AllocError>
    ensures { IfOk result (λ whole. string_bytes whole ≡ path_below prefix.now path.now) }
{
    let mut whole = String::from_str(alloc, prefix)?;
    whole.push_str(plain_path(path))?;
    Ok(whole)
}

/// The text as a path, if it is one.
pub fn path_of(alloc: Global, text: &str) -> Result<Option<Path>, AllocError>
    ensures { IfOk result (λ path. MatchOption path (¬ (IsPath 1 text.now)) (λ path. (path ≡ text.now) × IsPath 1 text.now)) }
{
    match Path::read(alloc, text, 1) {
        Ok(path) => Ok(Some(path)),
        Err(Refusal::Memory) => Err(AllocError),
        Err(_) => Ok(None),
    }
}

/// The text of the file at a path, if there is one.
fn text_at<'a>(
    alloc: Global,
    files: &'a Files,
    path: &str,
) -> Result<Option<&'a FileText>, AllocError>
    ensures { IfOk result (λ text. FindsText files.now path.now (option_copied text)) }
{
    match path_of(alloc, path)? {
        Some(path) => Ok(files.get(&path)),
        None => Ok(None),
    }
}

/// The offset of a spot in a text, or `None` where the text has no such position. Without a text a position stands for its begin.
fn offset_in(text: Option<&FileText>, spot: Spot) -> Option<usize>
    ensures { FindsOffset (option_copied text.entry) spot result }
{
    match spot {
        Spot::Offset(offset) => Some(offset),
        Spot::At(position) => match text {
            Some(text) => offset_of(text.bytes(), position),
            None => Some(0),
        },
    }
}

/// Reads the word of a place in a folder.
pub fn named_place(
    alloc: Global,
    files: &Files,
    prefix: &str,
    word: &str,
) -> Result<NamedPlace, AllocError>
    ensures { IfOk result (NamesPlace files.now prefix.now word.now) }
{
    let Some(asked) = read_place(word) else {
        return Ok(NamedPlace::NoPlace);
    };
    let path = path_below(alloc, prefix, asked.path)?;
    let text = text_at(alloc, files, path.as_str())?;
    match offset_in(text, asked.spot) {
        Some(offset) => Ok(NamedPlace::Byte { path, offset }),
        None => Ok(NamedPlace::NoPosition),
    }
}
