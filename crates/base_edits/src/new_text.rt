//! The text of a file after its edits.
ghost use Rattle.std.specs.Prelude.{◌≡◌, ◌≤◌, ◌+◌, length, sum_by, IfOk};
ghost use Rattle.base_edits.specs.Edits.{AreInOrder, LieWithin, edited_text};

use crate::edit::Edit;
use base_files::FileText;
use std::alloc::{AllocError, Global};

/// The room that a text takes after edits in order: so many bytes more and fewer.
fn room(size: usize, edits: &[Edit]) -> usize
    ensures { result ≤ size + sum_by (λ edit. length edit.text) edits.now }
{
    let mut room = size;
    for edit in edits {
        let removed = edit.span.end.saturating_sub(edit.span.start);
        room = room.saturating_add(edit.text.len()).saturating_sub(removed);
    }
    room
}

/// The text after the edits. Without edits it shares the old text.
pub(crate) fn new_text(
    alloc: Global,
    text: &FileText,
    edits: &[Edit],
) -> Result<FileText, AllocError>
    requires order { AreInOrder 0 edits.now }
    requires within { LieWithin (length text.now) edits.now }
    ensures { IfOk result (λ new. new ≡ edited_text edits.now text.now) }
{
    if edits.is_empty() {
        return text.clone();
    }
    let old = text.bytes();
    let mut new = Vec::with_capacity(alloc, room(old.len(), edits))?;
    let mut at = 0;
    for edit in edits {
        let kept = &old[at..edit.span.start];
        new.extend_from_slice(kept)?;
        new.extend_from_slice(edit.text.bytes())?;
        at = edit.span.end;
    }
    let rest = &old[at..];
    new.extend_from_slice(rest)?;
    FileText::new(alloc, new)
}
