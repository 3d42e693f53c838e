//! Evaluates string literals (Go specification, "String literals").
ghost use Rattle.std.specs.Prelude.{◌≡◌, ◌<◌, ◌≤◌, ◌^◌, ◌++◌, ◌∷◌, [], IfOk, true};
ghost use Rattle.std.specs.Char.{encode_utf8};
ghost use Rattle.go_scanner.specs.Integers.{number_in};
ghost use Rattle.go_scanner.specs.Strings.{is_character, is_escape, is_string_part, IsString};
ghost use Rattle.go_scanner.specs.StringValues.{plain_escape_value, escape_value, part_value, raw_value, HasStringValue, IsStringPiece, HasPartsValue};

use crate::integers::{is_digit, number_in};
use crate::strings::{is_plain_escape, part_len};
use bstr::ByteVec;
use std::alloc::{AllocError, Global};

/// The byte that the escape `\b` of one letter stands for.
fn plain_escape_value(byte: u8) -> u8
    ensures { result ≡ plain_escape_value byte }
{
    match byte {
        b'a' => 7,
        b'b' => 8,
        b'f' => 12,
        b'n' => 10,
        b'r' => 13,
        b't' => 9,
        b'v' => 11,
        _ => byte,
    }
}

/// The number that a few digits spell.
fn small_number(base: u32, digits: &[u8]) -> u32
    requires low { 2 ≤ base }
    requires high { base ≤ 16 }
    requires small { number_in base digits.now < 2 ^ 32 }
    ensures { result ≡ number_in base digits.now }
{
    match number_in(base, digits) {
        Some(number) => number as u32,
        None => 0,
    }
}

/// Appends the UTF-8 of a character.
fn push_character(value: &mut Vec<u8>, code: u32) -> Result<(), AllocError>
    requires { is_character code ≡ true }
    ensures { IfOk result (λ _. value.new.items ≡ value.old.items ++ encode_utf8 code) }
{
    match char::from_u32(code) {
        Some(character) => value.push_char(character),
        None => Ok(()),
    }
}

/// Appends one byte.
fn push_byte(value: &mut Vec<u8>, byte: u8) -> Result<(), AllocError>
    ensures { IfOk result (λ _. value.new.items ≡ value.old.items ++ (byte ∷ [])) }
{
    value.push(byte)?;
    Ok(())
}

/// Appends the value of an escape, given without its backslash.
fn push_escape(value: &mut Vec<u8>, escape: &[u8]) -> Result<(), AllocError>
    requires { is_escape escape.now ≡ true }
    ensures { IfOk result (λ _. value.new.items ≡ value.old.items ++ escape_value escape.now) }
{
    let [first, digits @ ..] = escape else {
        return Ok(());
    };
    if is_plain_escape(*first) {
        push_byte(value, plain_escape_value(*first))
    } else if is_digit(*first, 8) {
        push_byte(value, small_number(8, escape) as u8)
    } else if *first == b'x' {
        push_byte(value, small_number(16, digits) as u8)
    } else {
        push_character(value, small_number(16, digits))
    }
}

/// Appends the value of a part of an interpreted string: a plain byte, or an escape with its backslash.
fn push_part(value: &mut Vec<u8>, part: &[u8]) -> Result<(), AllocError>
    requires { is_string_part part.now ≡ true }
    ensures { IfOk result (λ _. value.new.items ≡ value.old.items ++ part_value part.now) }
{
    match part {
        [] => Ok(()),
        [byte] => push_byte(value, *byte),
        [_, escape @ ..] => push_escape(value, escape),
    }
}

/// The value of an interpreted string literal, given with its quotes.
fn interpreted_value(alloc: Global, literal: &[u8]) -> Result<Vec<u8>, AllocError>
    requires { IsString literal.now }
    ensures { IfOk result (λ value. HasPartsValue literal.now value.items) }
{
    let mut value = Vec::new(alloc);
    let mut n = 1;
    loop {
        let size = part_len(&literal[n..]);
        if size == 0 {
            return Ok(value);
        }
        push_part(&mut value, &literal[n..n + size])?;
        n += size;
    }
}

/// The value of a raw string's body: its bytes without carriage returns.
fn raw_value(alloc: Global, body: &[u8]) -> Result<Vec<u8>, AllocError>
    ensures { IfOk result (λ value. value.items ≡ raw_value body.now) }
{
    let mut value = Vec::new(alloc);
    for byte in body {
        if *byte != b'\r' {
            value.push(*byte)?;
        }
    }
    Ok(value)
}

/// The value of a string literal, given with its quotes. Escapes are evaluated; a raw string loses its carriage returns.
pub fn string_value(alloc: Global, literal: &[u8]) -> Result<Vec<u8>, AllocError>
    requires { IsStringPiece literal.now }
    ensures { IfOk result (λ value. HasStringValue literal.now value.items) }
{
    if literal[0] == b'`' {
        raw_value(alloc, &literal[1..literal.len() - 1])
    } else {
        interpreted_value(alloc, literal)
    }
}
