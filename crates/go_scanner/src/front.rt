//! Scans one piece: the class and length of the piece at the start of some bytes, by their first byte. All is inlined, so that no result
//! is copied through memory: that took half of the time.
ghost use Rattle.std.specs.Prelude.{◌≡◌, ◌<◌, ℕ, length, MatchBool, MatchOption, slice_index, true};
ghost use Rattle.std.specs.Char.{is_digit};
ghost use Rattle.bstr.specs.Find.{OccursAt};
ghost use Rattle.bstr.specs.Utf8.{decoded};
ghost use Rattle.go_scanner.specs.Families.{IsFront, starts_word, begins_with_letter, MayBeOperator};
ghost use Rattle.go_scanner.specs.Characters.{is_ascii_letter};
ghost use Rattle.go_scanner.specs.Pieces.{Stands, spoils_number, IsFraction};
ghost use Rattle.go_scanner.specs.declared.piece.Class.TheVariants.{Name};
ghost use Rattle.go_scanner.specs.Trivia.{is_blank, line_opening, comment_opening};

use crate::characters::{continues_name, is_letter};
use crate::integers::{integer_len, integer_value};
use crate::keywords::keyword_of;
use crate::operators::operator_at;
use crate::piece::Class;
use crate::refusal::TextFault;
use crate::strings::{raw_string, string};
use crate::trivia::{general_comment_len, line_comment_len};
use crate::words::{is_ascii_mark, name_run};
use base_files::FaultKind;
use bstr::decode_utf8;

/// A fault of this kind at the first byte.
#[inline(always)]
fn fault(kind: FaultKind) -> Result<(Class, usize), TextFault>
    ensures { result ≡ Err (record { offset = 0; kind = kind }) }
{
    Err(TextFault { offset: 0, kind })
}

/// Whether a byte is an ASCII letter or `_`.
fn is_ascii_letter(byte: u8) -> bool
    ensures { result ≡ is_ascii_letter byte }
{
    matches!(byte, b'_' | b'a'..=b'z' | b'A'..=b'Z')
}

/// Whether the first character is a letter. One of ASCII needs no table.
fn begins_with_letter(bytes: &[u8]) -> bool
    ensures { result ≡ begins_with_letter bytes.now }
{
    match bytes {
        [first, ..] if is_ascii_letter(*first) => true,
        _ => match decode_utf8(bytes).0 {
            Some(first) => is_letter(first),
            None => false,
        },
    }
}

/// Whether the first character may not follow a number: `.`, a letter or a digit, as in `12ab`. One of ASCII that no name has needs no table.
fn spoils_number(bytes: &[u8]) -> bool
    ensures { result ≡ spoils_number (decoded bytes.now).char }
{
    match bytes {
        [first, ..] if is_ascii_mark(*first) => *first == b'.',
        _ => match decode_utf8(bytes).0 {
            Some(first) => first == '.' || continues_name(first),
            None => false,
        },
    }
}

/// Scans one space, tab or carriage return.
#[inline(always)]
fn blank(bytes: &[u8]) -> Result<(Class, usize), TextFault>
    requires some { 0 < length bytes.now }
    requires first { is_blank (slice_index bytes.now 0) ≡ true }
    ensures { IsFront bytes.now result }
{
    Ok((Class::Blank, 1))
}

/// Scans one newline.
#[inline(always)]
fn newline(bytes: &[u8]) -> Result<(Class, usize), TextFault>
    requires some { 0 < length bytes.now }
    requires first { slice_index bytes.now 0 ≡ 10 }
    ensures { IsFront bytes.now result }
{
    Ok((Class::Newline, 1))
}

/// Scans a name or a keyword.
#[inline(always)]
fn word(bytes: &[u8]) -> Result<(Class, usize), TextFault>
    requires some { 0 < length bytes.now }
    requires first { starts_word (slice_index bytes.now 0) ≡ true }
    ensures { IsFront bytes.now result }
{
    if !begins_with_letter(bytes) {
        return fault(FaultKind::Character);
    }
    let size = name_run(bytes);
    match keyword_of(&bytes[..size]) {
        Some(keyword) => Ok((Class::Keyword(keyword), size)),
        None => Ok((Class::Name, size)),
    }
}

/// Scans an integer literal. Refuses one of 2^63 or more, and one that a letter, a digit or `.` follows.
#[inline(always)]
fn number(bytes: &[u8]) -> Result<(Class, usize), TextFault>
    requires some { 0 < length bytes.now }
    requires first { is_digit (slice_index bytes.now 0) 10 ≡ true }
    ensures { IsFront bytes.now result }
{
    let size = integer_len(bytes);
    if spoils_number(&bytes[size..]) {
        return fault(FaultKind::Number);
    }
    match integer_value(&bytes[..size]) {
        Some(_) => Ok((Class::Integer, size)),
        None => fault(FaultKind::Number),
    }
}

/// Scans a comment from `//` to the end of its line.
#[inline(always)]
fn line_comment(bytes: &[u8]) -> Result<(Class, usize), TextFault>
    requires { OccursAt bytes.now line_opening 0 }
    ensures { IsFront bytes.now result }
{
    Ok((Class::LineComment, line_comment_len(bytes)))
}

/// Scans a comment from `/*` to the first `*/`. Refuses one without an end.
#[inline(always)]
fn general_comment(bytes: &[u8]) -> Result<(Class, usize), TextFault>
    requires { OccursAt bytes.now comment_opening 0 }
    ensures { IsFront bytes.now result }
{
    match general_comment_len(bytes) {
        Some(size) => Ok((Class::GeneralComment, size)),
        None => fault(FaultKind::Comment),
    }
}

/// Whether the bytes begin with a point and a digit, as the literal `.5` does.
fn is_fraction(bytes: &[u8]) -> bool
    ensures { MatchBool result (IsFraction bytes.now) (IsFraction bytes.now → ⊥) }
{
    bytes.len() > 1 && bytes[0] == b'.' && char::from(bytes[1]).is_digit(10)
}

/// Scans the longest operator. Refuses a byte that begins no piece, and a fraction such as `.5`.
#[inline(always)]
fn operator(bytes: &[u8]) -> Result<(Class, usize), TextFault>
    requires { MayBeOperator bytes.now }
    ensures { IsFront bytes.now result }
{
    if is_fraction(bytes) {
        return fault(FaultKind::Number);
    }
    match operator_at(bytes) {
        Some(operator) => Ok((Class::Operator(operator), operator.spelling().len())),
        None => fault(FaultKind::Character),
    }
}

/// Scans the piece at the start of some bytes: its class and length, or the rule that is broken there.
#[inline(always)]
pub fn front(bytes: &[u8]) -> Result<(Class, usize), TextFault>
    requires { 0 < length bytes.now }
    ensures { IsFront bytes.now result }
{
    match bytes {
        [b' ' | b'\t' | b'\r', ..] => blank(bytes),
        [b'\n', ..] => newline(bytes),
        [b'/', b'/', ..] => line_comment(bytes),
        [b'/', b'*', ..] => general_comment(bytes),
        [b'0'..=b'9', ..] => number(bytes),
        [b'"', ..] => string(bytes),
        [b'`', ..] => raw_string(bytes),
        [b'A'..=b'Z' | b'a'..=b'z' | b'_' | 0x80..=0xFF, ..] => word(bytes),
        _ => operator(bytes),
    }
}

/// The length of the name at the start of some bytes. `None` where no name begins there, as where a keyword does.
pub fn name_len(bytes: &[u8]) -> Option<usize>
    ensures { MatchOption result ((n : ℕ) → Stands bytes.now Name n → ⊥) (Stands bytes.now Name) }
{
    if bytes.is_empty() {
        return None;
    }
    match front(bytes) {
        Ok((class, size)) => {
            match class {
                Class::Name => Some(size),
                _ => None,
            }
        }
        Err(_) => None,
    }
}
