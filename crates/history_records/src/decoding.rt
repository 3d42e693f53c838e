//! Reads the parts of changes at the beginning of bytes.
ghost use Rattle.std.specs.Prelude.{◌≡◌, ◌∷◌, IfErr, IfOk};
ghost use Rattle.history_records.specs.Encoded.{
  FailsToDecode,
  IsAddedFile,
  IsEdit,
  IsFate,
  IsNumber,
  IsPathText,
  IsSpan,
  IsText,
  StartsWith,
  added_bytes,
  edit_bytes,
  fate_bytes,
  number_bytes,
  span_bytes,
  text_bytes,
};

use crate::change::ChangeFault;
use base_edits::{Edit, Fate};
use base_files::{FileText, Path, Refusal, Span};
use std::alloc::Global;
use std::str;

/// Reads a number. Returns it with the bytes behind it.
pub(crate) fn read_number(bytes: &[u8]) -> Result<(u64, &[u8]), ChangeFault>
    ensures ok { IfOk result (λ found. StartsWith number_bytes IsNumber bytes.now found.0 found.1.now) }
    ensures err { IfErr result (FailsToDecode number_bytes IsNumber bytes.now) }
    ensures why { IfErr result (λ fault. fault ≡ ChangeFault.NoChange) }
{
    match bytes.split_first_chunk::<8>() {
        Some((number, rest)) => Ok((u64::from_le_bytes(*number), rest)),
        None => Err(ChangeFault::NoChange),
    }
}

/// Reads a text. Returns it with the bytes behind it.
fn read_text(bytes: &[u8]) -> Result<(&[u8], &[u8]), ChangeFault>
    ensures ok { IfOk result (λ found. StartsWith text_bytes IsText bytes.now found.0.now found.1.now) }
    ensures err { IfErr result (FailsToDecode text_bytes IsText bytes.now) }
    ensures why { IfErr result (λ fault. fault ≡ ChangeFault.NoChange) }
{
    let (count, behind) = read_number(bytes)?;
    match behind.split_at_checked(count as usize) {
        Some((text, rest)) => Ok((text, rest)),
        None => Err(ChangeFault::NoChange),
    }
}

/// Reads the text of a file. Returns it with the bytes behind it.
fn read_file_text(alloc: Global, bytes: &[u8]) -> Result<(FileText, &[u8]), ChangeFault>
    ensures ok { IfOk result (λ found. StartsWith text_bytes IsText bytes.now found.0 found.1.now) }
    ensures err { IfErr result (FailsToDecode text_bytes IsText bytes.now) }
{
    let (text, rest) = read_text(bytes)?;
    let copy = Vec::from_slice(alloc, text)?;
    Ok((FileText::new(alloc, copy)?, rest))
}

/// The path that a text is.
fn as_path(alloc: Global, text: &[u8]) -> Result<Path, ChangeFault>
    ensures ok { IfOk result (λ path. (path ≡ text.now) × IsPathText text.now) }
    ensures err { IfErr result (λ fault. fault ≡ ChangeFault.NoChange → IsPathText text.now → ⊥) }
{
    let Ok(text) = str::from_utf8(text) else {
        return Err(ChangeFault::NoChange);
    };
    match Path::read(alloc, text, 1) {
        Ok(path) => Ok(path),
        Err(Refusal::Memory) => Err(ChangeFault::Memory),
        Err(_) => Err(ChangeFault::NoChange),
    }
}

/// Reads a path. Returns it with the bytes behind it.
pub(crate) fn read_path(alloc: Global, bytes: &[u8]) -> Result<(Path, &[u8]), ChangeFault>
    ensures ok { IfOk result (λ found. StartsWith text_bytes IsPathText bytes.now found.0 found.1.now) }
    ensures err { IfErr result (FailsToDecode text_bytes IsPathText bytes.now) }
{
    let (text, rest) = read_text(bytes)?;
    Ok((as_path(alloc, text)?, rest))
}

/// Reads a new path, behind the byte that tells of it. Returns it with the bytes behind it.
fn read_move(alloc: Global, bytes: &[u8]) -> Result<(Fate, &[u8]), ChangeFault>
    ensures ok { IfOk result (λ found. StartsWith fate_bytes IsFate (1 ∷ bytes.now) found.0 found.1.now) }
    ensures err { IfErr result (FailsToDecode fate_bytes IsFate (1 ∷ bytes.now)) }
{
    let (path, rest) = read_path(alloc, bytes)?;
    Ok((Fate::Moves(path), rest))
}

/// Reads what becomes of a file's path. Returns it with the bytes behind it.
pub(crate) fn read_fate(alloc: Global, bytes: &[u8]) -> Result<(Fate, &[u8]), ChangeFault>
    ensures ok { IfOk result (λ found. StartsWith fate_bytes IsFate bytes.now found.0 found.1.now) }
    ensures err { IfErr result (FailsToDecode fate_bytes IsFate bytes.now) }
{
    let Some((tag, rest)) = bytes.split_first() else {
        return Err(ChangeFault::NoChange);
    };
    match *tag {
        0 => Ok((Fate::Stays, rest)),
        1 => read_move(alloc, rest),
        2 => Ok((Fate::Dropped, rest)),
        _ => Err(ChangeFault::NoChange),
    }
}

/// Reads a span. Returns it with the bytes behind it.
fn read_span(bytes: &[u8]) -> Result<(Span, &[u8]), ChangeFault>
    ensures ok { IfOk result (λ found. StartsWith span_bytes IsSpan bytes.now found.0 found.1.now) }
    ensures err { IfErr result (FailsToDecode span_bytes IsSpan bytes.now) }
{
    let (start, behind) = read_number(bytes)?;
    let (end, rest) = read_number(behind)?;
    let span = Span {
        start: start as usize,
        end: end as usize,
    };
    Ok((span, rest))
}

/// Reads an edit. Returns it with the bytes behind it.
pub(crate) fn read_edit(alloc: Global, bytes: &[u8]) -> Result<(Edit, &[u8]), ChangeFault>
    ensures ok { IfOk result (λ found. StartsWith edit_bytes IsEdit bytes.now found.0 found.1.now) }
    ensures err { IfErr result (FailsToDecode edit_bytes IsEdit bytes.now) }
{
    let (span, behind) = read_span(bytes)?;
    let (text, rest) = read_file_text(alloc, behind)?;
    Ok((Edit { span, text }, rest))
}

/// Reads a file that is added. Returns it with the bytes behind it.
pub(crate) fn read_added(
    alloc: Global,
    bytes: &[u8],
) -> Result<((Path, FileText), &[u8]), ChangeFault>
    ensures ok { IfOk result (λ found. StartsWith added_bytes IsAddedFile bytes.now found.0 found.1.now) }
    ensures err { IfErr result (FailsToDecode added_bytes IsAddedFile bytes.now) }
{
    let (path, behind) = read_path(alloc, bytes)?;
    let (text, rest) = read_file_text(alloc, behind)?;
    Ok(((path, text), rest))
}
