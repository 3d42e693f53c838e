//! Reads the lines of a header.
ghost use Rattle.std.specs.Prelude.{◌≡◌, ◌≢◌, ◌≤◌, ◌↔◌, ◌==◌, IsTrue, MatchOption, length, option_map, slice_index};
ghost use Rattle.std.specs.List.{position_or_len};
ghost use Rattle.lsp_message.specs.Headers.{HasNoSize, HeaderSays, IsLengthName, IsSizeText, SaysSize, field_of, without_return};

/// What a line of a header says.
#[derive(Clone, Copy, Debug, PartialEq, Eq)]
pub enum HeaderField {
    /// The header is over.
    End,
    /// The body has so many bytes.
    Length(usize),
    /// The line is to give the length of the body, and gives no number below 2^64.
    NoLength,
    /// Another field, or no field.
    Other,
}

/// The line without a carriage return at its end.
fn without_return(line: &[u8]) -> &[u8]
    ensures { result.now ≡ without_return line.now }
{
    match line {
        [front @ .., b'\r'] => front,
        _ => line,
    }
}

/// Where the first colon of a line stands, or the end of the line.
fn colon_at(line: &[u8]) -> usize
    ensures len { result ≡ position_or_len (λ byte. byte == 58) line.now }
    ensures within { result ≤ length line.now }
{
    let mut end = 0;
    while end < line.len() && line[end] != b':' {
        end += 1;
    }
    end
}

/// The name and the value of a field: what stands before and behind the first colon.
fn split_field(line: &[u8]) -> Option<(&[u8], &[u8])>
    ensures { option_map (λ parts. (parts.0.now, parts.1.now)) result ≡ field_of line.now }
{
    let at = colon_at(line);
    if at < line.len() {
        Some((&line[..at], &line[at + 1..]))
    } else {
        None
    }
}

/// Whether the name is that of the field with the length. The case of letters does not matter.
fn is_length_name(name: &[u8]) -> bool
    ensures { IsTrue result ↔ IsLengthName name.now }
{
    name.eq_ignore_ascii_case(b"content-length")
}

/// The number that the digits write, or `None` where they write none below 2^64.
fn number(digits: &str) -> Option<usize>
    requires { slice_index digits.now 0 ≢ 43 }
    ensures { MatchOption result (HasNoSize digits.now) (IsSizeText digits.now) }
{
    digits.parse::<usize>().ok()
}

/// The number that a text writes in digits alone, or `None` where it writes none below 2^64.
fn size(text: &[u8]) -> Option<usize>
    ensures { MatchOption result (HasNoSize text.now) (IsSizeText text.now) }
{
    if !text.is_empty() && text[0] == b'+' {
        return None;
    }
    match std::str::from_utf8(text) {
        Ok(digits) => number(digits),
        Err(_) => None,
    }
}

/// What the value of the field with the length says.
fn length_field(value: &[u8]) -> HeaderField
    ensures { SaysSize value.now result }
{
    match size(value.trim_ascii()) {
        Some(length) => HeaderField::Length(length),
        None => HeaderField::NoLength,
    }
}

/// What a line of a header says. The line has no line feed behind it.
pub fn read_header(line: &[u8]) -> HeaderField
    ensures { HeaderSays line.now result }
{
    let text = without_return(line);
    if text.is_empty() {
        return HeaderField::End;
    }
    match split_field(text) {
        Some((name, value)) if is_length_name(name) => length_field(value),
        _ => HeaderField::Other,
    }
}
