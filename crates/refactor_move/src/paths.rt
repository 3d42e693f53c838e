//! The paths of files in the folder that moves.
ghost use Rattle.std.specs.Prelude.{◌≡◌, ◌↔◌, ◌++◌, ◌∷◌, IsTrue, IfOk, MatchOption, string_bytes};
ghost use Rattle.refactor_move.specs.Paths.{IsUnder};
ghost use Rattle.refactor_move.specs.PathSteps.{JoinsNewPath, FindsNewPath};

use crate::moved::Moved;
use base_files::{Path, Refusal};
use std::alloc::{AllocError, Global};

/// The rest of a path after a folder and a slash, if the path lies in the folder.
fn rest_under<'a>(folder: &str, path: &'a str) -> Option<&'a str>
    ensures { MatchOption result (IsUnder folder.now path.now → ⊥) (λ rest. path.now ≡ folder.now ++ 47 ∷ rest.now) }
{
    path.strip_prefix(folder)?.strip_prefix("/")
}

/// Whether a path lies in a folder.
pub fn is_under(folder: &Path, path: &Path) -> bool
    ensures { IsTrue result ↔ IsUnder folder.now path.now }
{
    rest_under(folder.as_str(), path.as_str()).is_some()
}

/// The bytes `folder/rest`.
fn join(alloc: Global, folder: &str, rest: &str) -> Result<String, AllocError>
    ensures { IfOk result (λ path. string_bytes path ≡ folder.now ++ 47 ∷ rest.now) }
{
    let mut path = folder.to_string(alloc)?;
    path.push_str("/")?;
    path.push_str(rest)?;
    Ok(path)
}

/// The path `folder/rest`, refused as `TooLarge` where these bytes are no path.
fn path_in(alloc: Global, folder: &Path, rest: &str) -> Result<Path, Refusal>
    ensures { JoinsNewPath folder.now rest.now result }
{
    let path = join(alloc, folder.as_str(), rest)?;
    match Path::read(alloc, path.as_str(), 1) {
        Ok(path) => Ok(path),
        Err(Refusal::Memory) => Err(Refusal::Memory),
        Err(_) => Err(Refusal::TooLarge),
    }
}

/// The new path of a file in the folder that moves, or `None` for a file outside it. Refused as `TooLarge` where the new path would be too
/// long.
pub fn new_path(alloc: Global, moved: &Moved, path: &Path) -> Result<Option<Path>, Refusal>
    ensures { FindsNewPath moved.now path.now result }
{
    match rest_under(moved.from.as_str(), path.as_str()) {
        None => Ok(None),
        Some(rest) => match path_in(alloc, &moved.to, rest) {
            Ok(path) => Ok(Some(path)),
            Err(refusal) => Err(refusal),
        },
    }
}
