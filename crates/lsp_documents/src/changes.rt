//! The text that content changes make of a text.
ghost use Rattle.std.specs.Prelude.{◌≡◌, ◌≤◌, ◌++◌, IfOk, drop, length, take};
ghost use Rattle.lsp_documents.specs.Changes.{ChangeMakes, ChangesMake, PartMakes, shown_bytes, text_made};

use lsp_position::{EditorPosition, PositionEncoding, offset_at};
use std::alloc::{AllocError, Global};

/// A change of a part of a text: what stands between two positions becomes another text.
#[derive(Clone, Copy, Debug)]
pub struct ChangedPart<'a> {
    pub start: EditorPosition,
    pub end: EditorPosition,
    pub text: &'a str,
}

/// A content change: of the whole text, or of a part.
#[derive(Clone, Copy, Debug)]
pub enum TextChange<'a> {
    Whole(&'a str),
    Part(ChangedPart<'a>),
}

/// The text with another text between two offsets.
fn spliced(
    alloc: Global,
    text: &[u8],
    low: usize,
    high: usize,
    new: &[u8],
) -> Result<Vec<u8>, AllocError>
    requires order { low ≤ high }
    requires within { high ≤ length text.now }
    ensures { IfOk result (λ made. made.items ≡ take low text.now ++ (new.now ++ drop high text.now)) }
{
    let mut made = Vec::from_slice(alloc, &text[..low])?;
    made.extend_from_slice(new)?;
    made.extend_from_slice(&text[high..])?;
    Ok(made)
}

/// The text after a change of a part, or `None` where the end of the part lies before its start.
fn part_changed(
    alloc: Global,
    encoding: PositionEncoding,
    text: &[u8],
    part: ChangedPart<'_>,
) -> Result<Option<Vec<u8>>, AllocError>
    ensures { IfOk result (λ made. PartMakes encoding text.now part.entry (text_made made)) }
{
    let low = offset_at(encoding, text, part.start);
    let high = offset_at(encoding, text, part.end);
    if high < low {
        return Ok(None);
    }
    let made = spliced(alloc, text, low, high, part.text.as_bytes())?;
    Ok(Some(made))
}

/// The bytes of a text, if there is one.
pub(crate) fn bytes_of(text: &Option<Vec<u8>>) -> Option<&[u8]>
    ensures { shown_bytes result ≡ text_made text.now }
{
    match text {
        Some(text) => Some(text.as_slice()),
        None => None,
    }
}

/// A copy of a text, if there is one.
fn copied(alloc: Global, text: Option<&[u8]>) -> Result<Option<Vec<u8>>, AllocError>
    ensures { IfOk result (λ copy. text_made copy ≡ shown_bytes text.entry) }
{
    match text {
        Some(text) => Ok(Some(Vec::from_slice(alloc, text)?)),
        None => Ok(None),
    }
}

/// The text after a content change, or `None` where there is no such part, or no text before.
fn changed(
    alloc: Global,
    encoding: PositionEncoding,
    text: Option<&[u8]>,
    change: TextChange<'_>,
) -> Result<Option<Vec<u8>>, AllocError>
    ensures { IfOk result (λ made. ChangeMakes encoding (shown_bytes text.entry) change.entry (text_made made)) }
{
    match (change, text) {
        (TextChange::Whole(new), _) => copied(alloc, Some(new.as_bytes())),
        (TextChange::Part(part), Some(text)) => part_changed(alloc, encoding, text, part),
        (TextChange::Part(_), None) => Ok(None),
    }
}

/// The text after content changes, each of which speaks of the text after those before it. It is `None` behind a change of a part that there
/// is not, until a change gives the whole text.
pub fn changed_by(
    alloc: Global,
    encoding: PositionEncoding,
    text: Option<&[u8]>,
    changes: &[TextChange<'_>],
) -> Result<Option<Vec<u8>>, AllocError>
    ensures { IfOk result (λ made. ChangesMake encoding (shown_bytes text.entry) changes.now (text_made made)) }
{
    let mut made = copied(alloc, text)?;
    for change in changes {
        made = changed(alloc, encoding, bytes_of(&made), *change)?;
    }
    Ok(made)
}
