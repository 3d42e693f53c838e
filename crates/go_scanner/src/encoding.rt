//! Checks that a text is UTF-8 without a zero byte.
ghost use Rattle.std.specs.Prelude.{MatchOption};
ghost use Rattle.go_scanner.specs.Cuts.{IsValidLen, IsWellEncoded, IsIllEncodedAt};

use memchr::memchr;

/// The length of the longest prefix that is UTF-8.
fn valid_len(text: &[u8]) -> usize
    ensures { IsValidLen text.now result }
{
    match str::from_utf8(text) {
        Ok(_) => text.len(),
        Err(error) => error.valid_up_to(),
    }
}

/// The offset of the first byte that is zero or is not UTF-8, or `None` where the whole text is well encoded.
pub fn encoding_fault(text: &[u8]) -> Option<usize>
    ensures { MatchOption result (IsWellEncoded text.now) (λ n. IsIllEncodedAt text.now n) }
{
    let valid = valid_len(text);
    match memchr(0, &text[..valid]) {
        Some(zero) => Some(zero),
        None if valid < text.len() => Some(valid),
        None => None,
    }
}
