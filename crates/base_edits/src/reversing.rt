//! The edits that take edits back.
ghost use Rattle.std.specs.Prelude.{◌≡◌, length, IfOk};
ghost use Rattle.base_edits.specs.Edits.{AreInOrder, LieWithin, edited_text};
ghost use Rattle.base_edits.specs.Inverse.{reversed};

use crate::edit::{Edit, Edits};
use base_files::{FileText, Span};
use std::alloc::{AllocError, Global};

/// A text with copies of the bytes.
fn copied(alloc: Global, bytes: &[u8]) -> Result<FileText, AllocError>
    ensures { IfOk result (λ text. text ≡ bytes.now) }
{
    FileText::new(alloc, Vec::from_slice(alloc, bytes)?)
}

/// A text with the bytes. It is that of the edit before where this has the same bytes, so that a name that was replaced often stands once.
fn restored(alloc: Global, bytes: &[u8], before: Option<&Edit>) -> Result<FileText, AllocError>
    ensures { IfOk result (λ text. text ≡ bytes.now) }
{
    match before {
        Some(edit) if edit.text.bytes() == bytes => edit.text.clone(),
        _ => copied(alloc, bytes),
    }
}

/// The edits of the new text that restore the old text. The first may share its text with the edit `before`, of another file.
pub(crate) fn reversed_edits(
    alloc: Global,
    text: &FileText,
    edits: &[Edit],
    new_text: &FileText,
    before: Option<&Edit>,
) -> Result<Edits, AllocError>
    requires order { AreInOrder 0 edits.now }
    requires within { LieWithin (length text.now) edits.now }
    requires new { new_text.now ≡ edited_text edits.now text.now }
    ensures { IfOk result (λ back. back ≡ reversed edits.now text.now) }
{
    let size = new_text.len();
    let old = text.bytes();
    let mut back = Vec::with_capacity(alloc, edits.len())?;
    let mut at = 0;
    let mut new = 0;
    for edit in edits {
        let start = new + (edit.span.start - at);
        let end = start + edit.text.len();
        prove!(end <= size);
        let replaced = &old[edit.span.start..edit.span.end];
        let text = restored(alloc, replaced, back.last().or(before))?;
        back.push(Edit {
            span: Span { start, end },
            text,
        })?;
        at = edit.span.end;
        new = end;
    }
    Ok(Edits::new(back))
}
