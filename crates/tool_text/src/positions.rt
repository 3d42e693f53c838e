//! Lines and columns of byte offsets, and back.
ghost use Rattle.std.specs.Prelude.{◌≡◌, ◌≤◌, ℕ, length, not, MatchOption, ◌==◌};
ghost use Rattle.std.specs.List.{suffix_len};
ghost use Rattle.tool_text.specs.Positions.{is_inside_line, line_position, HasNoOffset, IsOffsetOf};

/// A place in a text by its line and its column, both from 1. Columns count bytes, as compilers print them.
#[derive(Clone, Copy, Debug, PartialEq, Eq)]
pub struct LinePosition {
    pub line: usize,
    pub column: usize,
}

/// How many bytes stand before the end of a text in its last line.
pub(crate) fn last_line_len(text: &[u8]) -> usize
    ensures len { result ≡ suffix_len is_inside_line text.now }
    ensures within { result ≤ length text.now }
{
    let mut start = text.len();
    while start > 0 && text[start - 1] != b'\n' {
        start -= 1;
    }
    text.len() - start
}

/// The position of a byte offset, which may be the end of the text.
pub fn position_of(text: &[u8], offset: usize) -> LinePosition
    requires { offset ≤ length text.now }
    ensures { result ≡ line_position text.now offset }
{
    let before = &text[..offset];
    let line = before.iter().filter(|byte| **byte == b'\n').count() + 1;
    let column = last_line_len(before) + 1;
    LinePosition { line, column }
}

/// The byte offset of a position, or `None` where the text has no such position.
pub fn offset_of(text: &[u8], asked: LinePosition) -> Option<usize>
    ensures { MatchOption result (HasNoOffset text.now asked) (IsOffsetOf text.now asked) }
{
    let mut line = 1;
    let mut column = 1;
    for offset in 0..text.len() {
        if line == asked.line && column == asked.column {
            return Some(offset);
        }
        if text[offset] == b'\n' {
            line += 1;
            column = 1;
        } else {
            column += 1;
        }
    }
    if line == asked.line && column == asked.column {
        Some(text.len())
    } else {
        None
    }
}
