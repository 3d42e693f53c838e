//! The byte offset of a line and a column.
ghost use Rattle.std.specs.Prelude.{◌≡◌, ◌≤◌, ◌<◌, ◌↔◌, IsTrue, length};
ghost use Rattle.lsp_position.specs.Offsets.{IsAtOrBefore, IsEditorPlace, IsLastPlace, IsOffsetAt, splits_line_end};

use crate::positions::{EditorPosition, START, advanced, is_feed};
use crate::units::{PositionEncoding, continues_character};

/// Whether the first position lies behind the second.
fn is_behind(position: EditorPosition, asked: EditorPosition) -> bool
    ensures { IsTrue result ↔ ¬ (IsAtOrBefore position asked) }
{
    position.line > asked.line
        || (position.line == asked.line && position.character > asked.character)
}

/// Whether the offset stands between a carriage return and the line feed of the same line end.
fn splits_line_end(text: &[u8], offset: usize) -> bool
    requires { offset ≤ length text.now }
    ensures { result ≡ splits_line_end text.now offset }
{
    0 < offset && text[offset - 1] == b'\r' && is_feed(text, offset)
}

/// Whether a position can name the offset: it splits neither a character nor a line end.
fn is_place(text: &[u8], offset: usize) -> bool
    requires { offset < length text.now }
    ensures { IsTrue result ↔ IsEditorPlace text.now offset }
{
    offset == 0 || (!continues_character(text[offset]) && !splits_line_end(text, offset))
}

/// The number where it is a place, and else what was found before.
fn last_place(text: &[u8], number: usize, found: usize) -> usize
    requires { number < length text.now }
    ensures { IsLastPlace text.now number found result }
{
    if is_place(text, number) {
        number
    } else {
        found
    }
}

/// The byte offset of a position: the last place that does not lie behind it. A column past the end of its line is the end of the line. A
/// line past the last one is the end of the text.
pub fn offset_at(encoding: PositionEncoding, text: &[u8], asked: EditorPosition) -> usize
    ensures { IsOffsetAt encoding text.now asked result }
{
    let mut at = START;
    let mut found = 0;
    for number in 0..text.len() {
        if is_behind(at, asked) {
            return found;
        }
        found = last_place(text, number, found);
        at = advanced(encoding, text, number, at);
    }
    if is_behind(at, asked) {
        found
    } else {
        text.len()
    }
}
