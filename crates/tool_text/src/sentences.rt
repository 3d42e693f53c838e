//! Sentences about places in files, with the source line and a caret below the place.
ghost use Rattle.std.specs.Prelude.{◌≡◌, ◌≤◌, ◌++◌, length, OnOk};
ghost use Rattle.std.specs.List.{after_last, before_first};
ghost use Rattle.tool_text.specs.Positions.{is_line_feed};
ghost use Rattle.tool_text.specs.Sentences.{blank_of, blanks, line_shown, located, told_text};

use crate::parts::part_len;
use crate::positions::{LinePosition, last_line_len, position_of};
use itoa::Buffer;
use std::alloc::AllocError;

/// Appends a position in a file: `path:line:column`.
pub fn push_located(text: &mut Vec<u8>, path: &[u8], at: LinePosition) -> Result<(), AllocError>
    ensures { OnOk result (text.new.items ≡ text.old.items ++ located path.now at) }
{
    let mut digits = Buffer::new();
    text.extend_from_slice(path)?;
    text.extend_from_slice(b":")?;
    text.extend_from_slice(digits.format(at.line).as_bytes())?;
    text.extend_from_slice(b":")?;
    text.extend_from_slice(digits.format(at.column).as_bytes())
}

/// The bytes of the last line of a text.
fn last_line(text: &[u8]) -> &[u8]
    ensures { result.now ≡ after_last is_line_feed text.now }
{
    &text[text.len() - last_line_len(text)..]
}

/// The bytes of a text before its first line feed.
fn first_line(text: &[u8]) -> &[u8]
    ensures { result.now ≡ before_first is_line_feed text.now }
{
    &text[..part_len(text, b'\n')]
}

/// What stands below a byte before the caret: a tab below a tab, nothing below a byte that continues a character, and else a blank.
fn blank_of(byte: u8) -> &'static [u8]
    ensures { result.now ≡ blank_of byte }
{
    if byte == b'\t' {
        b"\t"
    } else if 128 <= byte && byte < 192 {
        b""
    } else {
        b" "
    }
}

/// Appends what stands below these bytes before the caret.
fn push_blanks(text: &mut Vec<u8>, before: &[u8]) -> Result<(), AllocError>
    ensures { OnOk result (text.new.items ≡ text.old.items ++ blanks before.now) }
{
    for byte in before {
        text.extend_from_slice(blank_of(*byte))?;
    }
    Ok(())
}

/// Appends the line of an offset, and below it a line with a caret below the byte at the offset.
fn push_line_shown(text: &mut Vec<u8>, source: &[u8], offset: usize) -> Result<(), AllocError>
    requires { offset ≤ length source.now }
    ensures { OnOk result (text.new.items ≡ text.old.items ++ line_shown source.now offset) }
{
    let before = last_line(&source[..offset]);
    text.extend_from_slice(before)?;
    text.extend_from_slice(first_line(&source[offset..]))?;
    text.extend_from_slice(b"\n")?;
    push_blanks(text, before)?;
    text.extend_from_slice(b"^\n")
}

/// Appends a sentence about an offset in a file: `path:line:column: message`, the source line, and a line with a caret.
pub fn push_told(
    text: &mut Vec<u8>,
    path: &[u8],
    source: &[u8],
    offset: usize,
    message: &[u8],
) -> Result<(), AllocError>
    requires { offset ≤ length source.now }
    ensures { OnOk result (text.new.items ≡ text.old.items ++ told_text path.now source.now offset message.now) }
{
    push_located(text, path, position_of(source, offset))?;
    text.extend_from_slice(b": ")?;
    text.extend_from_slice(message)?;
    text.extend_from_slice(b"\n")?;
    push_line_shown(text, source, offset)
}
