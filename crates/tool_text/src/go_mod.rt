//! Reads the path of a module from the text of its file `go.mod`.
ghost use Rattle.std.specs.Prelude.{◌≡◌, ◌≤◌, IsTrue, length, option_map};
ghost use Rattle.tool_text.specs.GoMod.{comment_start, is_padding, is_quoted, module_in, module_path, trimmed, unquoted, without_back, without_front};

use crate::parts::split_part;

/// Whether a byte is a blank, a tab or a carriage return.
pub(crate) fn is_padding(byte: u8) -> bool
    ensures { result ≡ is_padding byte }
{
    byte == b' ' || byte == b'\t' || byte == b'\r'
}

/// The text without blanks at its begin.
fn without_front(text: &[u8]) -> &[u8]
    ensures { result.now ≡ without_front text.now }
{
    let mut start = 0;
    while start < text.len() && is_padding(text[start]) {
        start += 1;
    }
    &text[start..]
}

/// The text without blanks at its end.
fn without_back(text: &[u8]) -> &[u8]
    ensures { result.now ≡ without_back text.now }
{
    let mut end = text.len();
    while end > 0 && is_padding(text[end - 1]) {
        end -= 1;
    }
    &text[..end]
}

/// The text without blanks at its begin and its end.
pub(crate) fn trimmed(text: &[u8]) -> &[u8]
    ensures { result.now ≡ trimmed text.now }
{
    without_back(without_front(text))
}

/// Where a comment `//` begins in a line, or where the line ends.
fn comment_start(line: &[u8]) -> usize
    ensures at { result ≡ comment_start line.now }
    ensures within { result ≤ length line.now }
{
    let mut at = 0;
    while at < line.len() && !line[at..].starts_with(b"//") {
        at += 1;
    }
    at
}

/// Whether a text begins and ends with this quote.
fn is_quoted(text: &[u8], quote: u8) -> bool
    ensures is { result ≡ is_quoted text.now quote }
    ensures long { IsTrue result → 2 ≤ length text.now }
{
    text.len() >= 2 && text[0] == quote && text[text.len() - 1] == quote
}

/// The text without the quotes round it, if it has such.
fn unquoted(text: &[u8]) -> &[u8]
    ensures { result.now ≡ unquoted text.now }
{
    if is_quoted(text, b'"') || is_quoted(text, b'`') {
        &text[1..text.len() - 1]
    } else {
        text
    }
}

/// The path of the module that a line names, or `None` where it names none.
fn module_in(line: &[u8]) -> Option<&[u8]>
    ensures { option_map (λ path. path.now) result ≡ module_in line.now }
{
    let code = trimmed(&line[..comment_start(line)]);
    let rest = code.strip_prefix(b"module".as_slice())?;
    let path = trimmed(rest);
    if path.is_empty() || path.len() == rest.len() {
        None
    } else {
        Some(unquoted(path))
    }
}

/// The path of the module that the first line that names one names, or `None` where no line does.
pub fn module_path(text: &[u8]) -> Option<&[u8]>
    ensures { option_map (λ path. path.now) result ≡ module_path text.now }
{
    let mut rest = Some(text);
    'lines: while let Some(lines) = rest {
        let (line, left) = split_part(lines, b'\n');
        if let Some(path) = module_in(line) {
            return Some(path);
        }
        rest = left;
    }
    None
}
