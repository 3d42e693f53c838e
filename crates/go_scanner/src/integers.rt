//! Scans and evaluates integer literals (Go specification, "Integer literals").
ghost use Rattle.std.specs.Prelude.{◌≡◌, ◌≤◌, ◌<◌, ◌^◌, ◌*◌, ◌+◌, length, MatchOption};
ghost use Rattle.std.specs.Char.{is_digit, digit_value};
ghost use Rattle.go_scanner.specs.Integers.{prefix_base, number_in, integer_value};
ghost use Rattle.go_scanner.specs.Lengths.{digit_len, digits_len, after_zero_len, integer_len};

/// Whether a byte is an ASCII digit of the base.
pub fn is_digit(byte: u8, base: u32) -> bool
    requires low { 2 ≤ base }
    requires high { base ≤ 36 }
    ensures { result ≡ is_digit byte base }
{
    char::from(byte).is_digit(base)
}

/// The length of the digit at the start, with a `_` before it: 1, 2, or 0 where there is none.
#[tactic(auto, unfolding(crate::specs::Lengths::digit_len))]
fn digit_len(bytes: &[u8], base: u32) -> usize
    requires low { 2 ≤ base }
    requires high { base ≤ 36 }
    ensures value { result ≡ digit_len base bytes.now }
    ensures fits { result ≤ length bytes.now }
{
    match bytes {
        [b, ..] if is_digit(*b, base) => 1,
        [b'_', b, ..] if is_digit(*b, base) => 2,
        _ => 0,
    }
}

/// The length of the longest prefix of digits of the base, with at most one `_` before each.
fn digits_len(bytes: &[u8], base: u32) -> usize
    requires low { 2 ≤ base }
    requires high { base ≤ 36 }
    ensures value { result ≡ digits_len base bytes.now }
    ensures fits { result ≤ length bytes.now }
{
    let mut n = 0;
    loop {
        let size = digit_len(&bytes[n..], base);
        if size == 0 {
            return n;
        }
        n += size;
    }
}

/// The base that the letter after a leading 0 gives: 16, 8 or 2, and 0 for any other byte.
fn prefix_base(byte: u8) -> u32
    ensures { result ≡ prefix_base byte }
{
    match byte {
        b'x' | b'X' => 16,
        b'o' | b'O' => 8,
        b'b' | b'B' => 2,
        _ => 0,
    }
}

/// How many bytes after a leading 0 belong to the literal: a base's letter with its digits, or octal digits.
#[tactic(auto, unfolding(crate::specs::Lengths::after_zero_len))]
fn after_zero_len(bytes: &[u8]) -> usize
    ensures value { result ≡ after_zero_len bytes.now }
    ensures fits { result ≤ length bytes.now }
{
    let [first, rest @ ..] = bytes else {
        return 0;
    };
    let base = prefix_base(*first);
    if base == 0 {
        return digits_len(bytes, 8);
    }
    let digits = digits_len(rest, base);
    if digits == 0 { 0 } else { 1 + digits }
}

/// The length of the longest integer literal at the start, or 0.
#[tactic(auto, unfolding(crate::specs::Lengths::integer_len))]
pub fn integer_len(bytes: &[u8]) -> usize
    ensures value { result ≡ integer_len bytes.now }
    ensures fits { result ≤ length bytes.now }
{
    match bytes {
        [b'0', rest @ ..] => 1 + after_zero_len(rest),
        [b'1'..=b'9', rest @ ..] => 1 + digits_len(rest, 10),
        _ => 0,
    }
}

/// The value of an ASCII digit or letter as a digit of base 36, and 36 for any other byte.
fn digit_value(byte: u8) -> u32
    ensures value { result ≡ digit_value byte }
    ensures bound { result ≤ 36 }
{
    char::from(byte).to_digit(36).unwrap_or(36)
}

/// Appends a digit to a number. `None` where the result is 2^63 or more.
fn next_number(number: u64, base: u32, digit: u32) -> Option<u64>
    requires small { number < 2 ^ 63 }
    requires low { 2 ≤ base }
    requires high { base ≤ 16 }
    requires digit { digit ≤ 36 }
    ensures { MatchOption result (2 ^ 63 ≤ number * base + digit) (λ n. (n ≡ number * base + digit) × (n < 2 ^ 63)) }
{
    let product = number.checked_mul(u64::from(base))?;
    let sum = product.checked_add(u64::from(digit))?;
    if sum < 1 << 63 { Some(sum) } else { None }
}

/// The number that digits of a base spell, without `_`. `None` where it is 2^63 or more.
pub fn number_in(base: u32, bytes: &[u8]) -> Option<u64>
    requires low { 2 ≤ base }
    requires high { base ≤ 16 }
    ensures { MatchOption result (2 ^ 63 ≤ number_in base bytes.now) (λ n. (n ≡ number_in base bytes.now) × (n < 2 ^ 63)) }
{
    let mut number: u64 = 0;
    for byte in bytes {
        if *byte != b'_' {
            let digit = digit_value(*byte);
            number = match next_number(number, base, digit) {
                Some(next) => next,
                None => return None,
            };
        }
    }
    Some(number)
}

/// The value of an integer literal. `None` where it is 2^63 or more.
pub fn integer_value(bytes: &[u8]) -> Option<u64>
    ensures { MatchOption result (2 ^ 63 ≤ integer_value bytes.now) (λ n. (n ≡ integer_value bytes.now) × (n < 2 ^ 63)) }
{
    match bytes {
        [] => Some(0),
        [digit] => Some(u64::from(digit_value(*digit))),
        [b'0', letter, rest @ ..] => {
            let base = prefix_base(*letter);
            if base > 0 {
                number_in(base, rest)
            } else {
                number_in(8, &bytes[1..])
            }
        }
        _ => number_in(10, bytes),
    }
}
