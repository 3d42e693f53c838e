//! Ranges of bytes as ranges of positions, and the identifiers of texts.
ghost use Rattle.std.specs.Prelude.{◌≡◌, ◌≤◌, ◌+◌, drop, length, take};
ghost use Rattle.std.specs.List.{prefix_len, suffix_len};
ghost use Rattle.lsp_edits.specs.Spans.{between, identifier_at, identifier_range, is_identifier_byte};

use lsp_answers::Between;
use lsp_position::{PositionEncoding, position_at};

/// The range between two byte offsets. An offset past the end of the text is its end.
pub fn between(encoding: PositionEncoding, text: &[u8], low: usize, high: usize) -> Between
    ensures { result ≡ between encoding text.now low high }
{
    Between {
        start: position_at(encoding, text, low.min(text.len())),
        end: position_at(encoding, text, high.min(text.len())),
    }
}

/// Whether a byte can be one of an identifier: a letter, a digit, `_`, or a byte of a character outside ASCII.
fn is_identifier_byte(byte: u8) -> bool
    ensures { result ≡ is_identifier_byte byte }
{
    byte.is_ascii_alphanumeric() || byte == b'_' || 128 <= byte
}

/// Where the bytes of an identifier end that begin at an offset.
fn identifier_end(text: &[u8], offset: usize) -> usize
    requires { offset ≤ length text.now }
    ensures end { result ≡ offset + prefix_len is_identifier_byte (drop offset text.now) }
    ensures within { result ≤ length text.now }
    ensures behind { offset ≤ result }
{
    let mut end = offset;
    while end < text.len() && is_identifier_byte(text[end]) {
        end += 1;
    }
    end
}

/// Where the identifier begins in which or behind which an offset stands.
pub fn identifier_begin(text: &[u8], offset: usize) -> usize
    requires { offset ≤ length text.now }
    ensures begin { result + suffix_len is_identifier_byte (take offset text.now) ≡ offset }
    ensures before { result ≤ offset }
{
    let mut begin = offset;
    while begin > 0 && is_identifier_byte(text[begin - 1]) {
        begin -= 1;
    }
    begin
}

/// The bytes of the identifier that begins at an offset.
pub fn identifier_at(text: &[u8], offset: usize) -> &[u8]
    ensures { result.now ≡ identifier_at text.now offset }
{
    let begin = offset.min(text.len());
    &text[begin..identifier_end(text, begin)]
}

/// The range of the identifier that begins at an offset.
pub fn identifier_range(encoding: PositionEncoding, text: &[u8], offset: usize) -> Between
    ensures { result ≡ identifier_range encoding text.now offset }
{
    let begin = offset.min(text.len());
    between(encoding, text, begin, identifier_end(text, begin))
}
