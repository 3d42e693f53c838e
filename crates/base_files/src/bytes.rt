//! Compares texts many bytes at a time.
ghost use Rattle.std.specs.Prelude.{◌≡◌, ◌↔◌, ◌+◌, ◌≤◌, IsTrue, length, take, drop};

use std::simd::cmp::SimdPartialEq;
use std::simd::u8x64;

/// How many bytes are compared at a time.
const BLOCK: usize = 64;

/// Whether the blocks from byte `at` on are equal.
fn is_same_block(one: &[u8], other: &[u8], at: usize) -> bool
    requires one { at + 64 ≤ length one.now }
    requires other { at + 64 ≤ length other.now }
    ensures { IsTrue result ↔ (take 64 (drop at one.now) ≡ take 64 (drop at other.now)) }
{
    let differ = u8x64::from_slice(&one[at..]).simd_ne(u8x64::from_slice(&other[at..]));
    differ.to_bitmask() == 0
}

/// Whether both are equal, byte by byte.
fn is_same_end(one: &[u8], other: &[u8]) -> bool
    ensures { IsTrue result ↔ (one.now ≡ other.now) }
{
    one == other
}

/// Whether both have the same bytes. As `==` says it too, but this compares a block of 64 bytes in a few instructions.
pub(crate) fn same_bytes(one: &[u8], other: &[u8]) -> bool
    ensures { IsTrue result ↔ (one.now ≡ other.now) }
{
    if one.len() != other.len() {
        return false;
    }
    let mut at = 0;
    while BLOCK <= one.len() - at {
        if !is_same_block(one, other, at) {
            return false;
        }
        at += BLOCK;
    }
    is_same_end(&one[at..], &other[at..])
}
