//! The files whose texts differ, as changes.
ghost use Rattle.std.specs.Prelude.{◌≡◌, ◌++◌, IfOk, OnOk};
ghost use Rattle.lsp_edits.specs.Replaced.{replaced_text, replaced_texts, whole_change};

use base_edits::{Edit, Edits, Fate, FileChange};
use base_files::{FileText, Files, Path, Span};
use std::alloc::{AllocError, Global};

/// The change that gives a file another text.
fn whole_change(
    alloc: Global,
    path: &Path,
    old: &FileText,
    new: &FileText,
) -> Result<FileChange, AllocError>
    ensures { IfOk result (λ change. change ≡ whole_change path.now old.now new.now) }
{
    let span = Span {
        start: 0,
        end: old.len(),
    };
    let mut edits = Vec::new(alloc);
    edits.push(Edit {
        span,
        text: new.clone()?,
    })?;
    Ok(FileChange {
        path: path.clone()?,
        edits: Edits::new(edits),
        fate: Fate::Stays,
    })
}

/// Adds the change of a file, where it has another text after.
fn push_replaced(
    alloc: Global,
    changes: &mut Vec<FileChange>,
    path: &Path,
    old: &FileText,
    after: &Files,
) -> Result<(), AllocError>
    ensures { OnOk result (changes.new.items ≡ changes.old.items ++ replaced_text path.now old.now after.now) }
{
    match after.get(path) {
        Some(new) if new.bytes() != old.bytes() => {
            changes.push(whole_change(alloc, path, old, new)?)?;
            Ok(())
        }
        _ => Ok(()),
    }
}

/// The files that have another text after, as changes of their whole texts.
pub fn replacements(
    alloc: Global,
    before: &Files,
    after: &Files,
) -> Result<Vec<FileChange>, AllocError>
    ensures { IfOk result (λ changes. changes.items ≡ replaced_texts before.now after.now) }
{
    let mut changes = Vec::new(alloc);
    for (path, old) in before.iter() {
        push_replaced(alloc, &mut changes, path, old, after)?;
    }
    Ok(changes)
}
