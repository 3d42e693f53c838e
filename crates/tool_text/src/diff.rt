//! Writes a unified diff of two texts.
ghost use Rattle.std.specs.Prelude.{◌≡◌, ◌+◌, ◌<◌, ◌≤◌, ◌++◌, ◌∷◌, ℕ, [], length, List, OnOk};
ghost use Rattle.tool_text.specs.Diff.{AreHunksWithin, IsDiff, hunk_head, hunk_lines, hunk_text, hunks_text, line_end, new_count, old_count, paths_text, range_text, signed_line};

use crate::hunks::hunks;
use crate::script::{LinePair, pairs};
use base_files::Span;
use itoa::Buffer;
use std::alloc::{AllocError, Global};

/// Appends what follows a line: nothing behind a line feed, else a line feed and a note.
fn push_line_end(text: &mut Vec<u8>, line: &[u8]) -> Result<(), AllocError>
    ensures { OnOk result (text.new.items ≡ text.old.items ++ line_end line.now) }
{
    if line.ends_with(b"\n") {
        Ok(())
    } else {
        text.extend_from_slice(b"\n\\ No newline at end of file\n")
    }
}

/// Appends a line behind its sign. An empty line is left out.
fn push_signed(text: &mut Vec<u8>, sign: u8, line: &[u8]) -> Result<(), AllocError>
    ensures { OnOk result (text.new.items ≡ text.old.items ++ signed_line sign line.now) }
{
    if line.is_empty() {
        return Ok(());
    }
    text.push(sign)?;
    text.extend_from_slice(line)?;
    push_line_end(text, line)
}

/// Appends the lines of a hunk. Of lines that follow each other, those that are removed come first.
fn push_lines(alloc: Global, text: &mut Vec<u8>, pairs: &[LinePair<'_>]) -> Result<(), AllocError>
    ensures { OnOk result (text.new.items ≡ text.old.items ++ hunk_lines [] [] pairs.now) }
{
    let mut removed: Vec<u8> = Vec::new(alloc);
    let mut added: Vec<u8> = Vec::new(alloc);
    for pair in pairs {
        if pair.is_even() {
            text.extend_from_slice(removed.as_slice())?;
            text.extend_from_slice(added.as_slice())?;
            removed.clear();
            added.clear();
            push_signed(text, b' ', pair.old)?;
        } else {
            push_signed(&mut removed, b'-', pair.old)?;
            push_signed(&mut added, b'+', pair.new)?;
        }
    }
    text.extend_from_slice(removed.as_slice())?;
    text.extend_from_slice(added.as_slice())
}

/// Appends where lines begin and how many there are: `start,count`. Lines count from 1; where there are none, the line before is named.
fn push_range(text: &mut Vec<u8>, start: usize, count: usize) -> Result<(), AllocError>
    requires { start + count ≤ 9223372036854775807 }
    ensures { OnOk result (text.new.items ≡ text.old.items ++ range_text start count) }
{
    let mut digits = Buffer::new();
    let first = if count == 0 { start } else { start + 1 };
    text.extend_from_slice(digits.format(first).as_bytes())?;
    text.extend_from_slice(b",")?;
    text.extend_from_slice(digits.format(count).as_bytes())
}

/// Appends the head of a hunk.
fn push_head(text: &mut Vec<u8>, start: usize, olds: usize, news: usize) -> Result<(), AllocError>
    requires olds { start + olds ≤ 9223372036854775807 }
    requires news { start + news ≤ 9223372036854775807 }
    ensures { OnOk result (text.new.items ≡ text.old.items ++ hunk_head start olds news) }
{
    text.extend_from_slice(b"@@ -")?;
    push_range(text, start, olds)?;
    text.extend_from_slice(b" +")?;
    push_range(text, start, news)?;
    text.extend_from_slice(b" @@\n")
}

/// How many lines of the old text the pairs have.
fn old_count(pairs: &[LinePair<'_>]) -> usize
    ensures is { result ≡ old_count pairs.now }
    ensures within { result ≤ length pairs.now }
{
    pairs.iter().filter(|pair| !pair.old.is_empty()).count()
}

/// How many lines of the new text the pairs have.
fn new_count(pairs: &[LinePair<'_>]) -> usize
    ensures is { result ≡ new_count pairs.now }
    ensures within { result ≤ length pairs.now }
{
    pairs.iter().filter(|pair| !pair.new.is_empty()).count()
}

/// Appends a hunk whose first pair has the number `start`.
fn push_hunk(
    alloc: Global,
    text: &mut Vec<u8>,
    pairs: &[LinePair<'_>],
    start: usize,
) -> Result<(), AllocError>
    requires { start + length pairs.now ≤ 9223372036854775807 }
    ensures { OnOk result (text.new.items ≡ text.old.items ++ hunk_text start pairs.now) }
{
    push_head(text, start, old_count(pairs), new_count(pairs))?;
    push_lines(alloc, text, pairs)
}

/// Appends the paths of both files.
fn push_paths(text: &mut Vec<u8>, old_path: &[u8], new_path: &[u8]) -> Result<(), AllocError>
    ensures { OnOk result (text.new.items ≡ text.old.items ++ paths_text old_path.now new_path.now) }
{
    text.extend_from_slice(b"--- a/")?;
    text.extend_from_slice(old_path)?;
    text.extend_from_slice(b"\n+++ b/")?;
    text.extend_from_slice(new_path)?;
    text.extend_from_slice(b"\n")
}

/// Appends all hunks.
fn push_hunks(
    alloc: Global,
    text: &mut Vec<u8>,
    pairs: &[LinePair<'_>],
    hunks: &[Span],
) -> Result<(), AllocError>
    requires { AreHunksWithin (length pairs.now) hunks.now }
    ensures { OnOk result (text.new.items ≡ text.old.items ++ hunks_text pairs.now hunks.now) }
{
    for hunk in hunks {
        push_hunk(alloc, text, &pairs[hunk.start..hunk.end], hunk.start)?;
    }
    Ok(())
}

/// Appends a unified diff of two files.
pub fn push_diff(
    alloc: Global,
    text: &mut Vec<u8>,
    old: (&[u8], &[u8]),
    new: (&[u8], &[u8]),
) -> Result<(), AllocError>
    ensures { OnOk result ((diff : List ℕ) × IsDiff old.entry.0.now new.entry.0.now old.entry.1.now new.entry.1.now diff × (text.new.items ≡ text.old.items ++ diff)) }
{
    let lines = pairs(alloc, old.1, new.1)?;
    let parts = hunks(alloc, lines.as_slice())?;
    push_paths(text, old.0, new.0)?;
    push_hunks(alloc, text, lines.as_slice(), parts.as_slice())
}
