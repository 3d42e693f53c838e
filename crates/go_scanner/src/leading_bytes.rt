//! Reads the first two bytes of a text.
ghost use Rattle.std.specs.Prelude.{◌≡◌, slice_index};

/// The first byte, or 0 where there is none.
pub fn first_byte(bytes: &[u8]) -> u8
    ensures { result ≡ slice_index bytes.now 0 }
{
    match bytes {
        [first, ..] => *first,
        [] => 0,
    }
}

/// The second byte, or 0 where there is none.
pub fn second_byte(bytes: &[u8]) -> u8
    ensures { result ≡ slice_index bytes.now 1 }
{
    match bytes {
        [_, second, ..] => *second,
        [_] => 0,
        [] => 0,
    }
}
