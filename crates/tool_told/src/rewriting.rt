//! The files to which changes give other texts, with their paths before and behind the changes.
ghost use Rattle.std.specs.Prelude.{◌≡◌, ◌++◌, IfOk, OnOk};
ghost use Rattle.tool_told.specs.Telling.{new_paths_text, rewrite_of, rewrite_parts, rewrites_of};

use crate::telling::{Naming, new_path_of, shown_path, source};
use base_edits::FileChange;
use base_files::Files;
use std::alloc::{AllocError, Global};

/// A file to which a change gives another text: its path as it is told, that behind the change, and the new text.
#[derive(Clone, Copy)]
pub struct Rewrite<'a> {
    pub path: &'a str,
    pub new_path: &'a str,
    pub text: &'a [u8],
}

/// Adds the file of a change, if the change gives it another text.
#[tactic(auto, using(crate::proofs::RewriteParts::parts_push))]
fn push_rewrite<'a>(
    rewrites: &mut Vec<Rewrite<'a>>,
    naming: Naming<'a>,
    after: &'a Files,
    change: &'a FileChange,
) -> Result<(), AllocError>
    ensures { OnOk result (rewrite_parts rewrites.new.items ≡ rewrite_parts rewrites.old.items ++ rewrite_of naming.entry after.now change.now) }
{
    let path = shown_path(naming.prefix, &change.path);
    let new_path = shown_path(naming.prefix, new_path_of(change));
    let text = source(after, new_path_of(change));
    if source(naming.files, &change.path) == text {
        Ok(())
    } else {
        rewrites.push(Rewrite {
            path,
            new_path,
            text,
        })?;
        Ok(())
    }
}

/// The files to which the changes give other texts, in their order.
pub fn rewrites<'a>(
    alloc: Global,
    naming: Naming<'a>,
    after: &'a Files,
    changes: &'a [FileChange],
) -> Result<Vec<Rewrite<'a>>, AllocError>
    ensures { IfOk result (λ rewrites. rewrite_parts rewrites.items ≡ rewrites_of naming.entry after.now changes.now) }
{
    let mut rewrites = Vec::new(alloc);
    for change in changes {
        push_rewrite(&mut rewrites, naming, after, change)?;
    }
    Ok(rewrites)
}

/// Appends the new paths of rewrites, each on a line.
pub fn push_new_paths(text: &mut Vec<u8>, rewrites: &[Rewrite<'_>]) -> Result<(), AllocError>
    ensures { OnOk result (text.new.items ≡ text.old.items ++ new_paths_text rewrites.now) }
{
    for rewrite in rewrites {
        text.extend_from_slice(rewrite.new_path.as_bytes())?;
        text.push(b'\n')?;
    }
    Ok(())
}
