//! Scans string literals, part by part.
ghost use Rattle.std.specs.Prelude.{◌≡◌, ◌≤◌, ◌<◌, length, slice_index, IsTrue};
ghost use Rattle.std.specs.List.{list_all};
ghost use Rattle.std.specs.Char.{is_digit};
ghost use Rattle.go_scanner.specs.Families.{IsFront};
ghost use Rattle.go_scanner.specs.Integers.{number_in};
ghost use Rattle.go_scanner.specs.Lengths.{digits_at, octal_at, character_at, escape_len, part_len};
ghost use Rattle.go_scanner.specs.Strings.{is_plain, is_plain_escape, IsStringRun};

use crate::integers::{is_digit, number_in};
use crate::piece::Class;
use crate::refusal::TextFault;
use base_files::FaultKind;
use memchr::memchr;

/// Whether a byte stands for itself in an interpreted string: no quote, backslash or newline.
fn is_plain(byte: u8) -> bool
    ensures { result ≡ is_plain byte }
{
    !(byte == b'"' || (byte == b'\\' || byte == b'\n'))
}

/// Whether a byte after a backslash is an escape by itself: one of `a b f n r t v \ "`.
pub fn is_plain_escape(byte: u8) -> bool
    ensures { result ≡ is_plain_escape byte }
{
    matches!(
        byte,
        b'a' | b'b' | b'f' | b'n' | b'r' | b't' | b'v' | b'\\' | b'"'
    )
}

/// Whether all bytes are digits of the base.
fn are_all_digits(bytes: &[u8], base: u32) -> bool
    requires low { 2 ≤ base }
    requires high { base ≤ 16 }
    ensures { result ≡ list_all (λ b. is_digit b base) bytes.now }
{
    bytes.iter().all(|byte| is_digit(*byte, base))
}

/// Whether the bytes begin with `count` digits of the base.
fn digits_at(bytes: &[u8], count: usize, base: u32) -> bool
    requires low { 2 ≤ base }
    requires high { base ≤ 16 }
    ensures value { result ≡ digits_at count base bytes.now }
    ensures fits { IsTrue result → count ≤ length bytes.now }
{
    bytes.len() >= count && are_all_digits(&bytes[..count], base)
}

/// Whether the bytes begin with three octal digits of at most 255.
fn octal_at(bytes: &[u8]) -> bool
    ensures value { result ≡ octal_at bytes.now }
    ensures fits { IsTrue result → 3 ≤ length bytes.now }
{
    if !digits_at(bytes, 3, 8) {
        return false;
    }
    match number_in(8, &bytes[..3]) {
        Some(number) => number <= 255,
        None => false,
    }
}

/// Whether the bytes begin with `count` hexadecimal digits that spell a character: at most 10FFFF, and no surrogate.
fn character_at(bytes: &[u8], count: usize) -> bool
    ensures value { result ≡ character_at count bytes.now }
    ensures fits { IsTrue result → count ≤ length bytes.now }
{
    if !digits_at(bytes, count, 16) {
        return false;
    }
    match number_in(16, &bytes[..count]) {
        Some(number) => number < 0xD800 || (0xDFFF < number && number < 0x110000),
        None => false,
    }
}

/// The length of the escape at the start, given without its backslash, or 0.
#[tactic(auto, unfolding(crate::specs::Lengths::escape_len))]
fn escape_len(bytes: &[u8]) -> usize
    ensures value { result ≡ escape_len bytes.now }
    ensures fits { result ≤ length bytes.now }
{
    let [first, rest @ ..] = bytes else {
        return 0;
    };
    if is_plain_escape(*first) {
        return 1;
    }
    if octal_at(bytes) {
        return 3;
    }
    match *first {
        b'x' if digits_at(rest, 2, 16) => 3,
        b'u' if character_at(rest, 4) => 5,
        b'U' if character_at(rest, 8) => 9,
        _ => 0,
    }
}

/// The length of the string part at the start: a plain byte or an escape with its backslash, or 0.
#[tactic(auto, unfolding(crate::specs::Lengths::part_len))]
pub fn part_len(bytes: &[u8]) -> usize
    ensures value { result ≡ part_len bytes.now }
    ensures fits { result ≤ length bytes.now }
{
    let [first, rest @ ..] = bytes else {
        return 0;
    };
    if is_plain(*first) {
        return 1;
    }
    if *first != b'\\' {
        return 0;
    }
    let size = escape_len(rest);
    if size == 0 { 0 } else { 1 + size }
}

/// The offset at which the parts after an opening quote end.
fn parts_end(bytes: &[u8]) -> usize
    requires some { 0 < length bytes.now }
    requires first { slice_index bytes.now 0 ≡ 34 }
    ensures { IsStringRun bytes.now result }
{
    let mut n = 1;
    loop {
        let size = part_len(&bytes[n..]);
        if size == 0 {
            return n;
        }
        n += size;
    }
}

/// Scans an interpreted string literal. The fault of a bad escape is at its backslash, that of an open string at its quote.
#[inline(always)]
pub fn string(bytes: &[u8]) -> Result<(Class, usize), TextFault>
    requires some { 0 < length bytes.now }
    requires first { slice_index bytes.now 0 ≡ 34 }
    ensures { IsFront bytes.now result }
{
    let end = parts_end(bytes);
    let kind = FaultKind::String;
    if end == bytes.len() {
        return Err(TextFault { offset: 0, kind });
    }
    let byte = bytes[end];
    if byte == b'"' {
        Ok((Class::InterpretedString, end + 1))
    } else if byte == b'\\' {
        Err(TextFault { offset: end, kind })
    } else {
        Err(TextFault { offset: 0, kind })
    }
}

/// Scans a raw string literal. Refuses one without a closing quote.
#[inline(always)]
pub fn raw_string(bytes: &[u8]) -> Result<(Class, usize), TextFault>
    requires some { 0 < length bytes.now }
    requires first { slice_index bytes.now 0 ≡ 96 }
    ensures { IsFront bytes.now result }
{
    match memchr(b'`', &bytes[1..]) {
        Some(body) => Ok((Class::RawString, body + 2)),
        None => Err(TextFault {
            offset: 0,
            kind: FaultKind::String,
        }),
    }
}
