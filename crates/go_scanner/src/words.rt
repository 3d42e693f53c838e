//! Scans names and keywords.
ghost use Rattle.std.specs.Prelude.{◌≡◌};
ghost use Rattle.go_scanner.specs.Characters.{is_ascii_word, is_ascii_mark};
ghost use Rattle.go_scanner.specs.Words.{IsNameRun, NameRunSoFar};

use crate::characters::continues_name;
use bstr::decode_utf8;

/// Whether a byte is an ASCII letter or digit, or `_`.
fn is_ascii_word(byte: u8) -> bool
    ensures { result ≡ is_ascii_word byte }
{
    matches!(byte, b'a'..=b'z' | b'A'..=b'Z' | b'0'..=b'9' | b'_')
}

/// Whether a byte is a character of ASCII that no name has.
pub fn is_ascii_mark(byte: u8) -> bool
    ensures { result ≡ is_ascii_mark byte }
{
    !is_ascii_word(byte) && byte < 0x80
}

/// The length of the longest prefix of ASCII letters, digits and `_`.
fn ascii_run(bytes: &[u8]) -> usize
    ensures { NameRunSoFar bytes.now result }
{
    let mut n = 0;
    while n < bytes.len() && is_ascii_word(bytes[n]) {
        n += 1;
    }
    n
}

/// The length of the longest prefix of characters that may continue a name. Most names end before a character of ASCII, which needs no
/// table.
pub fn name_run(bytes: &[u8]) -> usize
    ensures { IsNameRun bytes.now result }
{
    let mut n = ascii_run(bytes);
    while n < bytes.len() {
        if is_ascii_mark(bytes[n]) {
            return n;
        }
        let (found, size) = decode_utf8(&bytes[n..]);
        match found {
            Some(c) if continues_name(c) => n += size,
            _ => return n,
        }
    }
    n
}
