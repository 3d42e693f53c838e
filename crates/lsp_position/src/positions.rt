//! The line and the column of a byte offset.
ghost use Rattle.std.specs.Prelude.{◌≡◌, ◌≤◌, ◌<◌, ◌+◌, ◌==◌, length, slice_index};
ghost use Rattle.lsp_position.specs.Positions.{editor_position, is_line_end};

use crate::units::{PositionEncoding, unit_count};

/// A place in a text by its line and its column, both from 0. Columns count code units.
#[derive(Clone, Copy, Debug, PartialEq, Eq)]
pub struct EditorPosition {
    pub line: usize,
    pub character: usize,
}

/// The begin of a text.
pub(crate) const START: EditorPosition = EditorPosition {
    line: 0,
    character: 0,
};

/// Whether the byte is there and is a line feed.
pub(crate) fn is_feed(text: &[u8], number: usize) -> bool
    ensures { result ≡ (slice_index text.now number == 10) }
{
    match text.get(number) {
        Some(byte) => *byte == b'\n',
        None => false,
    }
}

/// Whether the byte ends a line: a line feed, or a carriage return with no line feed behind it.
fn is_line_end(text: &[u8], number: usize) -> bool
    requires { number < length text.now }
    ensures { result ≡ is_line_end text.now number }
{
    match text[number] {
        b'\n' => true,
        b'\r' => !is_feed(text, number + 1),
        _ => false,
    }
}

/// The position one byte further.
pub(crate) fn advanced(
    encoding: PositionEncoding,
    text: &[u8],
    number: usize,
    at: EditorPosition,
) -> EditorPosition
    requires inside { number < length text.now }
    requires at { at ≡ editor_position encoding text.now number }
    ensures { result ≡ editor_position encoding text.now (number + 1) }
{
    if is_line_end(text, number) {
        EditorPosition {
            line: at.line + 1,
            character: 0,
        }
    } else {
        EditorPosition {
            line: at.line,
            character: at.character + unit_count(encoding, text[number]),
        }
    }
}

/// The position of a byte offset, which may be the end of the text.
pub fn position_at(encoding: PositionEncoding, text: &[u8], offset: usize) -> EditorPosition
    requires { offset ≤ length text.now }
    ensures { result ≡ editor_position encoding text.now offset }
{
    let mut at = START;
    for number in 0..offset {
        at = advanced(encoding, text, number, at);
    }
    at
}
