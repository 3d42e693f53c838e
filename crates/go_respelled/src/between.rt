//! Finds the edits that make one text of another by replacing names and strings, in one walk over both.
ghost use Rattle.std.specs.Prelude.{◌≡◌, ◌<◌, ◌≤◌, drop, length, take, IfOk, IfSome, IsTrue};
ghost use Rattle.go_scanner.specs.CutText.{tokens_in};
ghost use Rattle.go_respelled.specs.Replaced.{IsDifference, IsTokenBehind, PutsToken, Respell};

use crate::token_edits::replaces_token;
use base_edits::Edit;
use base_files::{FileText, Span};
use go_scanner::{Class, CompactPiece, Pieces, name_len};
use std::alloc::{AllocError, Global};

/// How far two texts are the same, by steps of as many bytes. They are the same up to `from`.
#[inline(always)]
fn same_by(one: &[u8], other: &[u8], from: usize, step: usize) -> usize
    requires step { 0 < step }
    requires one { from ≤ length one.now }
    requires other { from ≤ length other.now }
    requires same { take from one.now ≡ take from other.now }
    ensures one { result ≤ length one.now }
    ensures other { result ≤ length other.now }
    ensures same { take result one.now ≡ take result other.now }
{
    let size = one.len().min(other.len());
    let mut n = from;
    while step <= size - n && one[n..n + step] == other[n..n + step] {
        n += step;
    }
    n
}

/// The number of equal bytes with which both texts begin.
fn common_len(one: &[u8], other: &[u8]) -> usize
    ensures one { result ≤ length one.now }
    ensures other { result ≤ length other.now }
    ensures same { take result one.now ≡ take result other.now }
{
    let far = same_by(one, other, 0, 64);
    let near = same_by(one, other, far, 8);
    same_by(one, other, near, 1)
}

/// The number of tokens that begin at or before an offset, found by binary search.
fn begun(tokens: &[CompactPiece], offset: usize) -> usize
    ensures { result ≤ length tokens.now }
{
    let mut low = 0;
    let mut high = tokens.len();
    while low < high {
        let middle = low + (high - low) / 2;
        if tokens[middle].start() <= offset {
            low = middle + 1;
        } else {
            high = middle;
        }
    }
    low
}

/// Whether the token of this number is a name that reaches up to an offset, or a string about the offset.
fn reaches(tokens: &[CompactPiece], number: usize, offset: usize) -> bool
    ensures { IsTrue result → number < length tokens.now }
{
    match tokens.get(number) {
        Some(token) => match token.class() {
            Class::Name => offset <= token.end(),
            Class::InterpretedString => offset < token.end(),
            _ => false,
        },
        None => false,
    }
}

/// The number of the name or string that contains an offset, or of the name that ends there.
fn token_near(tokens: &[CompactPiece], offset: usize) -> Option<usize>
    ensures { IfSome result (λ number. number < length tokens.now) }
{
    let count = begun(tokens, offset);
    let last = count.wrapping_sub(1);
    if reaches(tokens, last, offset) {
        return Some(last);
    }
    let before = count.wrapping_sub(2);
    if reaches(tokens, before, offset) {
        return Some(before);
    }
    None
}

/// A token of the old text, and the number of the bytes before it that stand in the new text as well.
#[derive(Clone, Copy)]
pub(crate) struct TokenBehind {
    pub(crate) number: usize,
    pub(crate) same: usize,
}

/// Where two texts differ first.
#[derive(Clone, Copy)]
pub(crate) enum Difference {
    /// Nowhere.
    Absent,
    /// At a name or string.
    InToken(TokenBehind),
    /// At other bytes.
    Elsewhere,
}

/// The name or string at an offset, if it begins where the texts are the same: at or behind `at`, and at or before the offset.
fn token_behind(tokens: &[CompactPiece], at: usize, offset: usize) -> Option<TokenBehind>
    ensures { IfSome result (λ token. IsTokenBehind tokens.now at offset token) }
{
    let number = token_near(tokens, offset)?;
    let start = tokens[number].start();
    if start < at || offset < start {
        return None;
    }
    Some(TokenBehind {
        number,
        same: start - at,
    })
}

/// Where the old text from an offset on and what is left of the new one differ first.
fn first_difference(old: &Pieces, at: usize, left: &[u8]) -> Difference
    requires { at ≤ length old.now.text }
    ensures { IsDifference old.now at left.now result }
{
    let rest = &old.file().bytes()[at..];
    let same = common_len(rest, left);
    if same == rest.len() && same == left.len() {
        return Difference::Absent;
    }
    match token_behind(old.tokens(), at, at + same) {
        Some(token) => Difference::InToken(token),
        None => Difference::Elsewhere,
    }
}

/// The length of the string at the start of some bytes that begin with its quote: up to the next quote without a backslash before it.
fn string_len(bytes: &[u8]) -> Option<usize>
    ensures { IfSome result (λ n. n ≤ length bytes.now) }
{
    let mut n = 1;
    while n < bytes.len() {
        match bytes[n] {
            b'"' => return Some(n + 1),
            b'\n' => return None,
            b'\\' => n += 2,
            _ => n += 1,
        }
    }
    None
}

/// The length of the name or string at the start of some bytes.
fn token_len(bytes: &[u8]) -> Option<usize>
    ensures { IfSome result (λ n. n ≤ length bytes.now) }
{
    match bytes.first() {
        Some(b'"') => string_len(bytes),
        _ => name_len(bytes),
    }
}

/// The bytes from an offset on. None where it lies past the end.
fn from(bytes: &[u8], offset: usize) -> &[u8]
    ensures { result.now ≡ drop offset bytes.now }
{
    if offset <= bytes.len() {
        &bytes[offset..]
    } else {
        &[]
    }
}

/// The name or string with which some bytes begin. It has no bytes where there is none.
fn leading_token(bytes: &[u8]) -> &[u8]
    ensures within { length result.now ≤ length bytes.now }
    ensures leads { result.now ≡ take (length result.now) bytes.now }
{
    match token_len(bytes) {
        Some(size) => &bytes[..size],
        None => &[],
    }
}

/// A text with the bytes of a token. It is that of the edit before where this has the same bytes, so that a token put often stands once.
fn token_text(alloc: Global, token: &[u8], before: Option<&Edit>) -> Result<FileText, AllocError>
    ensures { IfOk result (λ text. text ≡ token.now) }
{
    match before {
        Some(edit) if edit.text.bytes() == token => edit.text.clone(),
        _ => FileText::new(alloc, Vec::from_slice(alloc, token)?),
    }
}

/// The edit that puts the name or string with which `left` begins for a token. `None` where it may not take its place.
fn edit_of(
    alloc: Global,
    old: &Pieces,
    number: usize,
    left: &[u8],
    before: Option<&Edit>,
) -> Result<Option<Edit>, AllocError>
    requires { number < length (tokens_in old.now) }
    ensures { IfOk result (λ made. IfSome made (PutsToken old.now number left.now)) }
{
    let span = old.tokens()[number].span();
    let text = token_text(alloc, leading_token(left), before)?;
    let edit = Edit { span, text };
    if replaces_token(alloc, old, number, &edit)? {
        Ok(Some(edit))
    } else {
        Ok(None)
    }
}

/// The edits of names and strings that make the new text of the old one. `None` where such edits do not. A file begins with a keyword, so
/// that fewer tokens are replaced than it has.
pub(crate) fn edits_between(
    alloc: Global,
    old: &Pieces,
    new: &[u8],
) -> Result<Option<Vec<Edit>>, AllocError>
    ensures { IfOk result (λ made. IfSome made (λ edits. Respell old.now edits.items new.now)) }
{
    let mut edits = Vec::new(alloc);
    let mut at = 0;
    let mut left = new;
    for _ in 0..old.tokens().len() {
        let token = match first_difference(old, at, left) {
            Difference::Absent => return Ok(Some(edits)),
            Difference::InToken(token) => token,
            Difference::Elsewhere => return Ok(None),
        };
        let rest = from(left, token.same);
        let Some(edit) = edit_of(alloc, old, token.number, rest, edits.last())? else {
            return Ok(None);
        };
        left = from(rest, edit.text.len());
        at = edit.span.end;
        edits.push(edit)?;
    }
    Ok(None)
}
