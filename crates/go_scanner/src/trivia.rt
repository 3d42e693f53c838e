//! Scans blanks and comments.
ghost use Rattle.std.specs.Prelude.{◌≡◌, MatchOption};
ghost use Rattle.bstr.specs.Find.{OccursAt};
ghost use Rattle.go_scanner.specs.Pieces.{IsLongest};
ghost use Rattle.go_scanner.specs.Trivia.{is_blank, line_opening, comment_opening, IsLineComment, IsGeneralComment, IsOpenComment};

use memchr::{memchr, memmem};

/// Whether a byte is a space, a tab or a carriage return.
pub fn is_blank(byte: u8) -> bool
    ensures { result ≡ is_blank byte }
{
    matches!(byte, b' ' | b'\t' | b'\r')
}

/// The length of the line comment at the start, without its newline.
pub fn line_comment_len(bytes: &[u8]) -> usize
    requires { OccursAt bytes.now line_opening 0 }
    ensures { IsLongest IsLineComment bytes.now result }
{
    match memchr(b'\n', bytes) {
        Some(newline) => newline,
        None => bytes.len(),
    }
}

/// The length of the general comment at the start, or `None` where it has no end.
pub fn general_comment_len(bytes: &[u8]) -> Option<usize>
    requires { OccursAt bytes.now comment_opening 0 }
    ensures { MatchOption result (IsOpenComment bytes.now) (λ n. IsLongest IsGeneralComment bytes.now n) }
{
    match memmem::find(&bytes[2..], b"*/") {
        Some(body) => Some(body + 4),
        None => None,
    }
}
