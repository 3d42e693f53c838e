//! The new import paths of packages that move, in double quotes.
ghost use Rattle.std.specs.Prelude.{ℕ, List, ◌≡◌, ◌↔◌, ◌++◌, IsTrue, IfOk, MatchOption};
ghost use Rattle.refactor_move.specs.Paths.{HasMovedPackage, quoted};
ghost use Rattle.refactor_move.specs.PathSteps.{IsPathRest};

use crate::moved::Moved;
use base_files::FileText;
use std::alloc::{AllocError, Global};

/// Whether the bytes are empty or begin with a slash.
fn is_path_rest(rest: &[u8]) -> bool
    ensures { IsTrue result ↔ IsPathRest rest.now }
{
    match rest.first() {
        None => true,
        Some(byte) => *byte == b'/',
    }
}

/// The rest of a text after these bytes, if the text begins with them.
fn rest_of<'a>(front: &[u8], text: &'a [u8]) -> Option<&'a [u8]>
    ensures { MatchOption result ((rest : List ℕ) → text.now ≡ front.now ++ rest → ⊥) (λ rest. text.now ≡ front.now ++ rest.now) }
{
    text.strip_prefix(front)
}

/// The rest of a package's path after a folder, if the package is in the folder: empty, or a slash and more.
fn package_rest<'a>(folder: &[u8], path: &'a [u8]) -> Option<&'a [u8]>
    ensures { MatchOption result ((rest : List ℕ) → path.now ≡ folder.now ++ rest → IsPathRest rest → ⊥) (λ rest. (path.now ≡ folder.now ++ rest.now) × IsPathRest rest.now) }
{
    let rest = rest_of(folder, path)?;
    if is_path_rest(rest) { Some(rest) } else { None }
}

/// The path that two parts make, in double quotes.
fn quote(alloc: Global, folder: &[u8], rest: &[u8]) -> Result<FileText, AllocError>
    ensures { IfOk result (λ text. text ≡ quoted (folder.now ++ rest.now)) }
{
    let mut text = Vec::from_slice(alloc, b"\"".as_slice())?;
    text.extend_from_slice(folder)?;
    text.extend_from_slice(rest)?;
    text.push(b'"')?;
    FileText::new(alloc, text)
}

/// The new path of a package, in double quotes, or `None` where its path doesn't change.
pub fn quoted_path(
    alloc: Global,
    moved: &Moved,
    path: &[u8],
) -> Result<Option<FileText>, AllocError>
    ensures { IfOk result (λ text. MatchOption text ((new : List ℕ) → HasMovedPackage moved.now.from moved.now.to path.now new → ⊥)
        (λ text. (new : List ℕ) × (HasMovedPackage moved.now.from moved.now.to path.now new × (text ≡ quoted new)))) }
{
    match package_rest(moved.from.as_str().as_bytes(), path) {
        None => Ok(None),
        Some(rest) => Ok(Some(quote(alloc, moved.to.as_str().as_bytes(), rest)?)),
    }
}
