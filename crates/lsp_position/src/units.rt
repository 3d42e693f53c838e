//! The code units in which editors count columns.
ghost use Rattle.std.specs.Prelude.{◌≡◌, ◌≤◌};
ghost use Rattle.lsp_position.specs.Units.{continues_character, unit_count};

/// The code units of columns: those of UTF-8, which are bytes, or those of UTF-16.
#[derive(Clone, Copy, Debug, PartialEq, Eq)]
pub enum PositionEncoding {
    Utf8,
    Utf16,
}

/// Whether the byte continues a character that an earlier byte began.
pub(crate) fn continues_character(byte: u8) -> bool
    ensures { result ≡ continues_character byte }
{
    128 <= byte && byte < 192
}

/// How many code units the byte adds to its line.
pub(crate) fn unit_count(encoding: PositionEncoding, byte: u8) -> usize
    ensures count { result ≡ unit_count encoding byte }
    ensures few { result ≤ 2 }
{
    match encoding {
        PositionEncoding::Utf8 => 1,
        PositionEncoding::Utf16 => {
            if continues_character(byte) {
                0
            } else if byte < 240 {
                1
            } else {
                2
            }
        }
    }
}
